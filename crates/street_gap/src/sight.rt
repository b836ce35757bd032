//! What a driver sees on a lane's list: the obstacle ahead, who is next behind, who is next above a cell, and the cells
//! between. The gaps here, the passes of `street_rule` and the departures of `street_lanes` call it.
//!
//! Source: Nagel and Schreckenberg 1992 ahead, Rickert, Nagel, Schreckenberg and Latour 1996 beside and behind.
ghost use Rattle.std.specs.Prelude.{option_map, ◌≡◌, ℕ, ◌-◌, ◌<◌, false, [], length};
ghost use Rattle.street_yard.specs.Prelude.{IsOnList, IsWhole, cell_at, rear_at};
ghost use Rattle.street_gap.specs.Prelude.{IsWithin, closed_marks, lesser, obstacle_by, HasCar, IsNextBehind, IsUpTo, IsPosition};

use crate::closures::Closures;
use street_base::CellNo;
use street_yard::{Key, ListId, Yard};

/// The cell that the front of a key's car stands in; none where there is no key.
pub(crate) fn cell_of(yard: &Yard, key: Option<Key>) -> Option<CellNo>
    requires { HasCar yard.now key }
    ensures { result ≡ option_map (cell_at yard.now) key }
{
    match key {
        Some(key) => Some(yard.cell(key)),
        None => None,
    }
}

/// The last cell that a key's car covers, 0 where that would lie below cell 0; none where there is no key.
pub(crate) fn rear_of(yard: &Yard, key: Option<Key>) -> Option<CellNo>
    requires { HasCar yard.now key }
    ensures { result ≡ option_map (rear_at yard.now) key }
{
    match key {
        Some(key) => Some(yard.rear(key)),
        None => None,
    }
}

/// The key behind `ahead` on the list, or the list's first where `ahead` is none; none where nobody is behind.
pub fn next_behind(yard: &Yard, list: ListId, ahead: &Option<Key>) -> Option<Key>
    requires list { list.0 < length yard.now.lists }
    requires ahead { IsOnList yard.now list.0 ahead.now }
    ensures next { IsNextBehind yard.now list.0 ahead.now result }
    ensures whole { IsWhole yard.now }
{
    match ahead {
        Some(key) => yard.behind(*key),
        None => yard.list_front(list),
    }
}

/// The last key of a lane's list whose vehicle has its front above the cell; none where there is no such vehicle. `from` is such
/// a key, from which on it is sought, or none to begin with the list's first.
pub fn last_above(yard: &Yard, list: ListId, from: Option<Key>, cell: CellNo) -> Option<Key>
    requires list { list.0 < length yard.now.lists }
    requires from { IsUpTo yard.now list.0 cell from }
    ensures { IsPosition yard.now list.0 cell result }
{
    yard.whole();
    let mut above = from;
    let mut cursor = next_behind(yard, list, &above);
    while let Some(key) = cursor {
        let here = yard.cell(key);
        if here <= cell {
            return above;
        }
        above = Some(key);
        cursor = yard.behind(key);
    }
    above
}

/// The lesser of the two cells, or the one that is there; none where neither is.
fn lesser(vehicle: Option<CellNo>, entrance: Option<CellNo>) -> Option<CellNo>
    ensures { result ≡ lesser vehicle entrance }
{
    match (vehicle, entrance) {
        (Some(vehicle), Some(entrance)) => Some(vehicle.min(entrance)),
        (Some(vehicle), None) => Some(vehicle),
        (None, entrance) => entrance,
    }
}

/// The obstacle ahead of a cell: the rear of the vehicle ahead, which `ahead` is, or the first entrance above the cell where that
/// comes before it; none where there is neither. `has_closed` tells whether some cell of the lane is closed, which a walk along
/// a lane asks once: entrances are looked up only then. Each vehicle asks in each step, so this stands in the walks themselves.
#[inline(always)]
pub fn obstacle_ahead(
    closures: &Closures,
    has_closed: bool,
    ahead: Option<CellNo>,
    cell: CellNo,
) -> Option<CellNo>
    requires { has_closed ≡ false → closures.now ≡ [] }
    ensures { (count : ℕ) → IsWithin closures.now count → result ≡ obstacle_by (closed_marks closures.now count) ahead cell }
{
    if has_closed {
        lesser(ahead, closures.entrance_after(cell))
    } else {
        ahead
    }
}

/// How many cells lie between a cell and an obstacle above it; 0 where it is not above, none where there is no obstacle.
pub fn cells_up_to(obstacle: Option<CellNo>, cell: CellNo) -> Option<CellNo>
    ensures { result ≡ option_map (λ y. y - cell - 1) obstacle }
{
    match obstacle {
        Some(obstacle) => Some(obstacle.saturating_sub(cell).saturating_sub(1)),
        None => None,
    }
}

/// How many cells lie between a cell and a vehicle's front below it; 0 where it is not below, none where there is no vehicle.
pub(crate) fn cells_down_to(below: Option<CellNo>, cell: CellNo) -> Option<CellNo>
    ensures { result ≡ option_map (λ y. cell - y - 1) below }
{
    match below {
        Some(below) => Some(cell.saturating_sub(below).saturating_sub(1)),
        None => None,
    }
}
