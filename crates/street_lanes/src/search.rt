//! Finding the vehicle of a number on a lane's lists, and taking it out. Commands and questions that name a vehicle call it.
ghost use Rattle.std.specs.Prelude.{◌≡◌, ◌^◌, ◌<◌, length, true, IsSome, Some};
ghost use Rattle.street_lanes.specs.Prelude.{waiting_list, IsSought, IsFound, TakesOut};
ghost use Rattle.street_yard.specs.Prelude.{list_on, IsWhole};

use crate::lists::{buffer_list, cells_list, waiting_list};
use street_base::{Car, CarNo};
use street_yard::{Key, ListId, Yard};

/// Whether the car of a key has the number, and is on the list.
pub(crate) fn stands_on(yard: &Yard, list: ListId, key: Key, number: CarNo) -> bool
    ensures stands { result ≡ true → IsSought yard.now list.0 number (Some key) }
    ensures whole { IsWhole yard.now }
{
    match yard.list_of(key) {
        Some(on) => on == list && yard.number(key) == number,
        None => false,
    }
}

/// The key on a list whose car has the number; none where there is none. First it is asked whether that is the key of the hint;
/// else the list is walked.
pub(crate) fn seek(yard: &Yard, list: ListId, number: CarNo, hint: Option<Key>) -> Option<Key>
    requires { list.0 < length yard.now.lists }
    ensures sought { IsSought yard.now list.0 number result }
    ensures whole { IsWhole yard.now }
{
    if let Some(key) = hint
        && stands_on(yard, list, key, number)
    {
        return hint;
    }
    let mut cursor = yard.list_front(list);
    while let Some(key) = cursor {
        if yard.number(key) == number {
            return Some(key);
        }
        cursor = yard.behind(key);
    }
    None
}

/// The key on one of the three lists of a lane, by its number on the tile, whose car has the number; none where there is none.
/// On each list the hint is asked first.
pub(crate) fn seek_on_lane(
    yard: &Yard,
    lane: usize,
    number: CarNo,
    hint: &Option<Key>,
) -> Option<Key>
    requires few { lane < 2 ^ 32 }
    requires lists { waiting_list lane < length yard.now.lists }
    ensures found { IsFound yard.now lane number result }
    ensures whole { IsWhole yard.now }
{
    if let Some(key) = seek(yard, cells_list(lane), number, *hint) {
        return Some(key);
    }
    if let Some(key) = seek(yard, buffer_list(lane), number, *hint) {
        return Some(key);
    }
    seek(yard, waiting_list(lane), number, *hint)
}

/// Takes the car of a key, which is on a list, out of the list and of the yard, and answers it.
pub(crate) fn take_out(yard: &mut Yard, key: Key) -> Car
    requires { IsSome (list_on yard.old key) }
    ensures { TakesOut yard.old yard.new key result }
{
    yard.unlink(key);
    yard.take(key)
}
