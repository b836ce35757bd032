//! Items that are lent together to one thread. `team.rt` fills and empties them.
ghost use Rattle.std.specs.Prelude.{◌≡◌, ℕ, ◌+◌, ◌<◌, ◌≤◌, true, false, vec_len, vec_capacity, slice_index_or};
ghost use Rattle.street_team.specs.Lent.{IsBackOf, HasBack};

use std::alloc::{AllocError, Global};

/// Items on their way to one worker or back, the last of them first, and what is shown to it.
#[derive(Drop)]
pub struct ItemBlock<T: Drop> {
    pub(crate) shown: Vec<bool>,
    pub(crate) items: Vec<T>,
}

/// A block for each thread: with room for so many items as `rooms` says of it, and for so many flags that are shown.
///
/// # Errors
/// Memory was refused.
pub fn new_blocks<T: Drop>(
    alloc: Global,
    rooms: &[usize],
    shown: usize,
) -> Result<Vec<ItemBlock<T>>, AllocError> {
    let mut blocks = Vec::with_capacity(alloc, rooms.len())?;
    for number in 0..rooms.len() {
        blocks.push_reserved(ItemBlock {
            shown: Vec::with_capacity(alloc, shown)?,
            items: Vec::with_capacity(alloc, rooms[number])?,
        });
    }
    Ok(blocks)
}

impl<T: Drop> ItemBlock<T> {
    /// Empties the block, and then puts into it what is shown and, the last first, as many of the last items as it has room for,
    /// which the list then has no more. False where memory for what is shown was refused: then none is taken.
    pub(crate) fn fill(&mut self, shown: &[bool], items: &mut Vec<T>) -> bool
        ensures shown { result ≡ true → self.new.shown.items ≡ shown.now }
        ensures none { result ≡ false → vec_len items.new ≡ vec_len items.old }
        ensures len { vec_len items.new + vec_len self.new.items ≡ vec_len items.old }
        ensures capacity { vec_capacity items.new ≡ vec_capacity items.old }
        ensures front { (i : ℕ) (d : T) → i < vec_len items.new → slice_index_or items.new.items i d ≡ slice_index_or items.old.items i d }
        ensures back { IsBackOf items.old.items (vec_len items.new) self.new.items }
    {
        self.items.clear();
        self.shown.clear();
        if self.shown.extend_from_slice(shown).is_err() {
            return false;
        }
        let count = items.len().min(self.items.capacity());
        for _ in 0..count {
            let item = items.take_last();
            self.items.push_reserved(item);
        }
        true
    }

    /// Puts its items back behind those of the list, which has room for them, in the order that they had there.
    pub(crate) fn empty_into(&mut self, items: &mut Vec<T>)
        requires { vec_len items.old + vec_len self.old.items ≤ vec_capacity items.old }
        ensures len { vec_len items.new ≡ vec_len items.old + vec_len self.old.items }
        ensures capacity { vec_capacity items.new ≡ vec_capacity items.old }
        ensures front { (i : ℕ) (d : T) → i < vec_len items.old → slice_index_or items.new.items i d ≡ slice_index_or items.old.items i d }
        ensures back { HasBack items.new.items (vec_len items.old) self.old.items }
    {
        for _ in 0..self.items.len() {
            let item = self.items.take_last();
            items.push_reserved(item);
        }
    }
}
