//! Moves of marked vehicles from one list to another: how the lane changes of a link are done once they are decided. `pass.rt`
//! calls it.
ghost use Rattle.std.specs.Prelude.{◌≡◌, ◌≢◌, ◌<◌, length, Some};
ghost use Rattle.street_yard.specs.Prelude.{list_on, IsOnList};
ghost use Rattle.street_rule.specs.Prelude.{IsFallen, Carries, Relinks};

use street_gap::last_above;
use street_yard::{Key, ListId, Yard};

/// A key goes from its list to another, right behind the key `position` there, or to the front where that is `None`. Its mark
/// is cleared; its cell and speed stay.
fn carry(yard: &mut Yard, from: ListId, to: ListId, position: Option<Key>, key: Key)
    requires from { from.0 < length yard.old.lists }
    requires to { to.0 < length yard.old.lists }
    requires apart { from.0 ≢ to.0 }
    requires key { list_on yard.old key ≡ Some from.0 }
    requires position { IsOnList yard.old to.0 position }
    ensures { Carries yard.old yard.new from.0 to.0 key position }
{
    yard.set_mark(key, false);
    yard.unlink(key);
    yard.insert_behind(to, position, key);
}

/// Each marked key of the list `from` goes to its position on the list `to`, behind all whose vehicles are above its own, and
/// its mark is cleared. As cells fall along both lists, each position is sought from the one before on.
pub(crate) fn relink(yard: &mut Yard, from: ListId, to: ListId)
    requires from { from.0 < length yard.old.lists }
    requires to { to.0 < length yard.old.lists }
    requires apart { from.0 ≢ to.0 }
    requires falls { IsFallen yard.old from.0 }
    ensures { Relinks yard.old yard.new from.0 to.0 }
{
    let mut position = None;
    let mut cursor = yard.list_front(from);
    while let Some(key) = cursor {
        cursor = yard.behind(key);
        if yard.is_marked(key) {
            let cell = yard.cell(key);
            let above = last_above(yard, to, position, cell);
            carry(yard, from, to, above, key);
            position = Some(key);
        }
    }
}
