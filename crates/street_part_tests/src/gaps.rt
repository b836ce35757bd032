//! Closures and gaps, with values known beforehand.

ghost use Rattle.std.specs.Prelude.{◌≡◌, ◌<◌, length, true};
ghost use Rattle.street_base.specs.Prelude.{is_within, most_size};

use std::alloc::Global;
use std::process::Abort;
use std::test::Fail;
use street_base::{Car, CellNo, Listing, Size, Starved};
use street_gap::{Closures, Stretch, gap_ahead, gap_behind, gap_beside};
use street_yard::{Key, ListId, Yard};

#[test]
fn nothing_is_closed_at_first(rt: HostRuntime) {
    let closures = Closures::new(rt.alloc());
    assert!(rt; closures.is_empty() && closures.count_closed() == 0);
}

/// Closes cells 3 to 8 in two parts.
fn close_in_two_parts(closures: &mut Closures) -> Result<(), Starved> {
    closures.close(3, 5)?;
    closures.close(6, 8)
}

/// These stretches are closed.
fn check_stretches(rt: &impl Abort, closures: &Closures, wanted: &[Stretch]) {
    assert!(rt; closures.is_empty() == wanted.is_empty());
    assert!(rt; closures.stretches() == wanted);
}

#[test]
fn closes_stretches(rt: HostRuntime) -> Result<(), Fail> {
    let mut closures = Closures::new(rt.alloc());
    close_in_two_parts(&mut closures)?;
    check_stretches(&rt, &closures, &[Stretch { first: 3, last: 8 }]);
    Ok(())
}

/// Closes cells 3 to 8, and opens cell 5.
fn close_and_open(closures: &mut Closures) -> Result<(), Starved> {
    close_in_two_parts(closures)?;
    closures.reopen(5, 5)
}

/// What is looked up where cells 3, 4, 6, 7 and 8 are closed.
fn check_look_ups(rt: &impl Abort, closures: &Closures) {
    assert!(rt; closures.entrance_after(0) == Some(3));
    assert!(rt; closures.entrance_after(3) == Some(6));
    assert!(rt; closures.entrance_after(8).is_none());
    assert!(rt; closures.is_closed(4) && !closures.is_closed(5));
}

#[test]
fn opens_stretches(rt: HostRuntime) -> Result<(), Fail> {
    let mut closures = Closures::new(rt.alloc());
    close_and_open(&mut closures)?;
    let closed = [Stretch { first: 3, last: 4 }, Stretch { first: 6, last: 8 }];
    check_stretches(&rt, &closures, &closed);
    check_look_ups(&rt, &closures);
    Ok(())
}

/// Closes four stretches that are apart, and opens cells 1 to 24.
fn close_and_cut(closures: &mut Closures) -> Result<(), Starved> {
    closures.close(10, 12)?;
    closures.close(0, 1)?;
    closures.close(20, 29)?;
    closures.close(5, 6)?;
    closures.reopen(1, 24)
}

#[test]
fn cuts_several(rt: HostRuntime) -> Result<(), Fail> {
    let mut closures = Closures::new(rt.alloc());
    close_and_cut(&mut closures)?;
    let ends = [
        Stretch { first: 0, last: 0 },
        Stretch {
            first: 25,
            last: 29,
        },
    ];
    check_stretches(&rt, &closures, &ends);
    Ok(())
}

/// Does that, and closes cells 1 to 40, so that the two stretches that are left are joined.
fn cut_and_join(closures: &mut Closures) -> Result<(), Starved> {
    close_and_cut(closures)?;
    closures.close(1, 40)
}

#[test]
fn joins_several(rt: HostRuntime) -> Result<(), Fail> {
    let mut closures = Closures::new(rt.alloc());
    cut_and_join(&mut closures)?;
    check_stretches(&rt, &closures, &[Stretch { first: 0, last: 40 }]);
    closures.reopen(0, 40)?;
    check_stretches(&rt, &closures, &[]);
    Ok(())
}

/// Closes a stretch of three cells and one of a single cell.
fn close_four_cells(closures: &mut Closures) -> Result<(), Starved> {
    closures.close(2, 4)?;
    closures.close(7, 7)
}

#[test]
fn counts_closed_cells(rt: HostRuntime) -> Result<(), Fail> {
    let mut closures = Closures::new(rt.alloc());
    close_four_cells(&mut closures)?;
    assert!(rt; closures.count_closed() == 4);
    Ok(())
}

/// A car of no plan comes last on list 0.
fn put(
    alloc: Global,
    yard: &mut Yard,
    number: u32,
    cell: CellNo,
    size: Size,
) -> Result<Key, Starved>
    requires { 0 < length yard.old.lists }
    ensures { length yard.new.lists ≡ length yard.old.lists }
{
    let plan = Box::new(alloc, Listing::from_vec(Vec::new(alloc)))?;
    yard.reserve(1)?;
    let key = yard.admit_reserved(Car {
        plan,
        number,
        cell,
        step: 0,
        at: 0,
        speed: 0,
        size,
    });
    yard.push_back(ListId(0), key);
    Ok(key)
}

/// Two cars come on list 0, with their fronts in cell 9 and in cell 2, the first of this size.
fn put_two(alloc: Global, yard: &mut Yard, size: Size) -> Result<(Key, Key), Starved>
    requires { 0 < length yard.old.lists }
    ensures { length yard.new.lists ≡ length yard.old.lists }
{
    let front = put(alloc, yard, 0, 9, size)?;
    let back = put(alloc, yard, 1, 2, size)?;
    Ok((front, back))
}

/// The gap ahead of a car, if it is on a list.
fn ahead_of(yard: &Yard, closures: &Closures, key: Key) -> Option<Option<CellNo>> {
    yard.list_of(key)?;
    Some(gap_ahead(yard, closures, key))
}

/// The gaps ahead from three cells beside the list of a car, the last of them above it.
fn beside(yard: &Yard, closures: &Closures, front: Key) -> Option<[Option<CellNo>; 3]> {
    let list = yard.list_of(front)?;
    Some([
        gap_beside(yard, closures, list, Some(front), 3),
        gap_beside(yard, closures, list, Some(front), 6),
        gap_beside(yard, closures, list, None, 12),
    ])
}

/// The gaps behind three cells of list 0, on which both cars are: one above all cars, and one behind each of the two.
fn behind_each(yard: &Yard, front: Key, back: Key) -> Option<[Option<CellNo>; 3]>
    requires { 0 < length yard.now.lists }
{
    let (list, same) = (yard.list_of(front)?, yard.list_of(back)?);
    if list.0 != 0 || same.0 != 0 {
        return None;
    }
    Some([
        gap_behind(yard, list, None, 12),
        gap_behind(yard, list, Some(front), 7),
        gap_behind(yard, same, Some(back), 1),
    ])
}

/// What is seen of a car in cell 9 and one in cell 2 where no cell is closed.
fn check_neighbours(rt: &(impl Abort + AllocGlobal), yard: &Yard, front: Key, back: Key)
    requires { 0 < length yard.now.lists }
{
    let open = Closures::new(rt.alloc());
    assert!(rt; ahead_of(yard, &open, back) == Some(Some(6)));
    assert!(rt; behind_each(yard, front, back) == Some([Some(2), Some(4), None]));
}

/// What is seen of them where these cells are closed.
fn check_ahead(rt: &impl Abort, yard: &Yard, closed: &Closures, front: Key, back: Key) {
    assert!(rt; ahead_of(yard, closed, front) == Some(None));
    assert!(rt; ahead_of(yard, closed, back) == Some(Some(2)));
    assert!(rt; beside(yard, closed, front) == Some([Some(1), Some(2), None]));
}

/// What is seen of them where cells 5 and 6 are closed.
fn check_entrances(
    rt: &(impl Abort + AllocGlobal),
    yard: &Yard,
    front: Key,
    back: Key,
) -> Result<(), Starved> {
    let mut closed = Closures::new(rt.alloc());
    closed.close(5, 6)?;
    check_ahead(rt, yard, &closed, front, back);
    Ok(())
}

/// A size of so many cells, 1 to 4.
fn cells(count: u64) -> Size
    requires { is_within 1 most_size count ≡ true }
{
    let Some(size) = Size::new(count) else {
        unreachable!();
    };
    size
}

/// What is seen of vehicles of two cells, which cover cells 8 and 9, and 1 and 2.
fn check_pairs(rt: &(impl Abort + AllocGlobal), yard: &Yard, front: Key, back: Key)
    requires { 0 < length yard.now.lists }
{
    let open = Closures::new(rt.alloc());
    assert!(rt; ahead_of(yard, &open, back) == Some(Some(5)));
    assert!(rt; beside(yard, &open, front) == Some([Some(4), Some(1), None]));
    assert!(rt; behind_each(yard, front, back) == Some([Some(2), Some(4), None]));
}

/// What is seen of vehicles of four cells, which cover cells 6 to 9, and 0 to 2.
fn check_fours(rt: &(impl Abort + AllocGlobal), yard: &Yard, front: Key, back: Key)
    requires { 0 < length yard.now.lists }
{
    let open = Closures::new(rt.alloc());
    assert!(rt; ahead_of(yard, &open, back) == Some(Some(3)));
    assert!(rt; beside(yard, &open, front) == Some([Some(2), Some(0), None]));
    assert!(rt; behind_each(yard, front, back) == Some([Some(2), Some(4), None]));
}

#[test]
fn sees_vehicles_of_two_cells(rt: HostRuntime) -> Result<(), Fail> {
    let mut yard = Yard::new(rt.alloc(), 1)?;
    let (front, back) = put_two(rt.alloc(), &mut yard, cells(2))?;
    check_pairs(&rt, &yard, front, back);
    Ok(())
}

#[test]
fn sees_vehicles_of_four_cells(rt: HostRuntime) -> Result<(), Fail> {
    let mut yard = Yard::new(rt.alloc(), 1)?;
    let (front, back) = put_two(rt.alloc(), &mut yard, cells(4))?;
    check_fours(&rt, &yard, front, back);
    Ok(())
}

#[test]
fn sees_neighbours(rt: HostRuntime) -> Result<(), Fail> {
    let mut yard = Yard::new(rt.alloc(), 1)?;
    let (front, back) = put_two(rt.alloc(), &mut yard, cells(1))?;
    check_neighbours(&rt, &yard, front, back);
    Ok(())
}

#[test]
fn sees_entrances(rt: HostRuntime) -> Result<(), Fail> {
    let mut yard = Yard::new(rt.alloc(), 1)?;
    let (front, back) = put_two(rt.alloc(), &mut yard, cells(1))?;
    check_entrances(&rt, &yard, front, back)?;
    Ok(())
}
