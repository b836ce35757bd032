//! What workers do with an item. A caller says with it what its items are for: `street_tile` does for tiles.
ghost use Rattle.std.specs.Prelude.{ℕ, List, Bool};

/// What is done with items of a kind, in parts that have numbers.
pub trait TeamWork<T> {
    ghost lock: { ℕ → ℕ };

    ghost may: { ℕ → ℕ → List Bool → T → Type 0 };

    ghost does: { ℕ → ℕ → List Bool → T → T → Type 0 };

    /// Makes a part of the work on the item of a number, from 0, among all items, while this is shown.
    fn work(&self, part: u32, number: usize, shown: &[bool], item: &mut T)
        requires { may part number shown.now item.old }
        ensures { does part number shown.now item.old item.new };
}
