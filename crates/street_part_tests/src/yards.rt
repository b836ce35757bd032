//! Calls of the arena; the expected values are reckoned by hand.
ghost use Rattle.std.specs.Prelude.{◌≡◌, ◌<◌, IfOk, IsSome, length};
ghost use Rattle.street_yard.specs.Prelude.{entry_at};

use std::alloc::{AllocError, Global};
use std::process::Abort;
use std::test::Fail;
use street_base::{Car, Listing, Size};
use street_yard::{Key, ListId, Yard};

const FIRST: ListId = ListId(0);

const SECOND: ListId = ListId(1);

// A car with this number and a plan of no links.
fn car(alloc: Global, number: u32) -> Result<Car, AllocError> {
    let Some(size) = Size::new(1) else {
        unreachable!();
    };
    Ok(Car {
        plan: Box::new(alloc, Listing::from_vec(Vec::new(alloc)))?,
        number,
        cell: 0,
        step: 0,
        at: 0,
        speed: 0,
        size,
    })
}

// A yard with so many lists and room for three cars.
fn yard_of(rt: &(impl Abort + AllocGlobal), lists: usize) -> Result<Yard, Fail>
    ensures { IfOk result (λ y. length y.lists ≡ lists) }
{
    let mut yard = Yard::new(rt.alloc(), lists)?;
    yard.reserve(3)?;
    Ok(yard)
}

// Admits a car.
fn admit(rt: &(impl Abort + AllocGlobal), yard: &mut Yard, number: u32) -> Key
    ensures { length yard.new.lists ≡ length yard.old.lists }
{
    let Ok(car) = car(rt.alloc(), number) else {
        panic!(rt; "no memory for a car")
    };
    assert!(rt; yard.room() >= 1);
    yard.admit_reserved(car)
}

// A loose key comes last on a list.
fn push(rt: &impl Abort, yard: &mut Yard, list: ListId, key: Key)
    requires { list.0 < length yard.old.lists }
    ensures { length yard.new.lists ≡ length yard.old.lists }
{
    assert!(rt; yard.is_loose(key));
    yard.push_back(list, key);
}

// A loose key comes first on a list.
fn put_first(rt: &impl Abort, yard: &mut Yard, list: ListId, key: Key)
    requires { list.0 < length yard.old.lists }
    ensures { length yard.new.lists ≡ length yard.old.lists }
{
    assert!(rt; yard.is_loose(key));
    yard.insert_behind(list, None, key);
}

// A loose key comes behind another.
fn put(rt: &impl Abort, yard: &mut Yard, list: ListId, at: Key, key: Key)
    requires { list.0 < length yard.old.lists }
    ensures { length yard.new.lists ≡ length yard.old.lists }
{
    assert!(rt; yard.is_loose(key) && yard.list_of(at) == Some(list));
    yard.insert_behind(list, Some(at), key);
}

// A key of that list leaves it.
fn cut(rt: &impl Abort, yard: &mut Yard, list: ListId, key: Key)
    ensures { length yard.new.lists ≡ length yard.old.lists }
{
    assert!(rt; yard.list_of(key) == Some(list));
    assert!(rt; yard.unlink(key) == list && yard.is_loose(key));
}

// A list has these keys first and last, and so many.
fn is_listed(
    rt: &impl Abort,
    yard: &Yard,
    list: ListId,
    front: Option<Key>,
    back: Option<Key>,
    len: usize,
)
    requires { list.0 < length yard.now.lists }
{
    assert!(rt; yard.list_front(list) == front && yard.list_back(list) == back);
    assert!(rt; yard.list_len(list) == len);
}

// The key stands on the list between these.
fn is_between(
    rt: &impl Abort,
    yard: &Yard,
    list: ListId,
    ahead: Option<Key>,
    key: Key,
    behind: Option<Key>,
) {
    assert!(rt; yard.list_of(key) == Some(list));
    assert!(rt; yard.ahead(key) == ahead && yard.behind(key) == behind);
}

// Three cars come last on the first list, one after another.
fn push_three(rt: &(impl Abort + AllocGlobal), yard: &mut Yard) -> (Key, Key, Key)
    requires { 0 < length yard.old.lists }
    ensures { length yard.new.lists ≡ length yard.old.lists }
{
    let a = admit(rt, yard, 0);
    push(rt, yard, FIRST, a);
    let b = admit(rt, yard, 1);
    push(rt, yard, FIRST, b);
    let c = admit(rt, yard, 2);
    push(rt, yard, FIRST, c);
    (a, b, c)
}

// Three cars pushed back and the middle one taken off: its neighbours meet.
fn cut_the_middle(rt: &(impl Abort + AllocGlobal), yard: &mut Yard)
    requires { 0 < length yard.old.lists }
{
    let (a, b, c) = push_three(rt, yard);
    cut(rt, yard, FIRST, b);
    is_listed(rt, yard, FIRST, Some(a), Some(c), 2);
    is_between(rt, yard, FIRST, None, a, Some(c));
    is_between(rt, yard, FIRST, Some(a), c, None);
}

#[test]
fn neighbours_meet(rt: HostRuntime) -> Result<(), Fail> {
    let mut yard = yard_of(&rt, 1)?;
    cut_the_middle(&rt, &mut yard);
    Ok(())
}

// An only car goes to another list.
fn take_one_over(rt: &(impl Abort + AllocGlobal), yard: &mut Yard)
    requires { 1 < length yard.old.lists }
{
    let a = admit(rt, yard, 0);
    put_first(rt, yard, FIRST, a);
    is_listed(rt, yard, FIRST, Some(a), Some(a), 1);
    cut(rt, yard, FIRST, a);
    is_listed(rt, yard, FIRST, None, None, 0);
    push(rt, yard, SECOND, a);
    is_listed(rt, yard, SECOND, Some(a), Some(a), 1);
    is_between(rt, yard, SECOND, None, a, None);
}

#[test]
fn one_car_goes_over(rt: HostRuntime) -> Result<(), Fail> {
    let mut yard = yard_of(&rt, 2)?;
    take_one_over(&rt, &mut yard);
    Ok(())
}

// Of two cars the first, and then the last, goes to the front of another list.
fn take_two_over(rt: &(impl Abort + AllocGlobal), yard: &mut Yard)
    requires { 1 < length yard.old.lists }
{
    let a = admit(rt, yard, 0);
    push(rt, yard, FIRST, a);
    let b = admit(rt, yard, 1);
    push(rt, yard, FIRST, b);
    cut(rt, yard, FIRST, a);
    put_first(rt, yard, SECOND, a);
    is_listed(rt, yard, FIRST, Some(b), Some(b), 1);
    is_between(rt, yard, FIRST, None, b, None);
    cut(rt, yard, FIRST, b);
    put_first(rt, yard, SECOND, b);
    is_listed(rt, yard, FIRST, None, None, 0);
    is_listed(rt, yard, SECOND, Some(b), Some(a), 2);
    is_between(rt, yard, SECOND, Some(b), a, None);
}

#[test]
fn two_cars_go_over(rt: HostRuntime) -> Result<(), Fail> {
    let mut yard = yard_of(&rt, 2)?;
    take_two_over(&rt, &mut yard);
    Ok(())
}

// Of three cars the first, the last and the middle one go to another list, where the third comes between.
fn take_three_over(rt: &(impl Abort + AllocGlobal), yard: &mut Yard)
    requires { 1 < length yard.old.lists }
{
    let (a, b, c) = push_three(rt, yard);
    cut(rt, yard, FIRST, a);
    push(rt, yard, SECOND, a);
    is_listed(rt, yard, FIRST, Some(b), Some(c), 2);
    cut(rt, yard, FIRST, c);
    push(rt, yard, SECOND, c);
    is_listed(rt, yard, FIRST, Some(b), Some(b), 1);
    cut(rt, yard, FIRST, b);
    put(rt, yard, SECOND, a, b);
    is_listed(rt, yard, FIRST, None, None, 0);
    is_listed(rt, yard, SECOND, Some(a), Some(c), 3);
    is_between(rt, yard, SECOND, Some(a), b, Some(c));
}

#[test]
fn three_cars_go_over(rt: HostRuntime) -> Result<(), Fail> {
    let mut yard = yard_of(&rt, 2)?;
    take_three_over(&rt, &mut yard);
    Ok(())
}

// Of three cars that stand on a list the middle one goes to another.
fn take_the_middle_over(rt: &(impl Abort + AllocGlobal), yard: &mut Yard)
    requires { 1 < length yard.old.lists }
{
    let (a, b, c) = push_three(rt, yard);
    cut(rt, yard, FIRST, b);
    push(rt, yard, SECOND, b);
    is_listed(rt, yard, FIRST, Some(a), Some(c), 2);
    is_between(rt, yard, FIRST, None, a, Some(c));
    is_between(rt, yard, FIRST, Some(a), c, None);
    is_listed(rt, yard, SECOND, Some(b), Some(b), 1);
}

#[test]
fn the_middle_of_three_goes_over(rt: HostRuntime) -> Result<(), Fail> {
    let mut yard = yard_of(&rt, 2)?;
    take_the_middle_over(&rt, &mut yard);
    Ok(())
}

// Of three cars that stand on a list the last one goes to the front of another.
fn take_the_last_over(rt: &(impl Abort + AllocGlobal), yard: &mut Yard)
    requires { 1 < length yard.old.lists }
{
    let (a, b, c) = push_three(rt, yard);
    cut(rt, yard, FIRST, c);
    put_first(rt, yard, SECOND, c);
    is_listed(rt, yard, FIRST, Some(a), Some(b), 2);
    is_between(rt, yard, FIRST, None, a, Some(b));
    is_between(rt, yard, FIRST, Some(a), b, None);
    is_listed(rt, yard, SECOND, Some(c), Some(c), 1);
}

#[test]
fn the_last_of_three_goes_over(rt: HostRuntime) -> Result<(), Fail> {
    let mut yard = yard_of(&rt, 2)?;
    take_the_last_over(&rt, &mut yard);
    Ok(())
}

// A key of that list takes the spare key at a position among those.
fn renew(rt: &impl Abort, yard: &mut Yard, list: ListId, key: Key, at: usize) -> Key
    ensures { length yard.new.lists ≡ length yard.old.lists }
{
    assert!(rt; yard.list_of(key) == Some(list));
    yard.renew(key, at)
}

// Three cars of a list take the three spare keys in order, and keep their order; then no spare key has a position past two.
fn renew_three(rt: &(impl Abort + AllocGlobal), yard: &mut Yard)
    requires { 0 < length yard.old.lists }
{
    let (a, b, c) = push_three(rt, yard);
    yard.sort_spare();
    let a = renew(rt, yard, FIRST, a, 0);
    let b = renew(rt, yard, FIRST, b, 1);
    let c = renew(rt, yard, FIRST, c, 2);
    assert!(rt; a.index() == 0 && b.index() == 1 && c.index() == 2);
    is_listed(rt, yard, FIRST, Some(a), Some(c), 3);
    is_between(rt, yard, FIRST, Some(a), b, Some(c));
    assert!(rt; renew(rt, yard, FIRST, b, 3) == b);
    is_between(rt, yard, FIRST, Some(a), b, Some(c));
}

#[test]
fn cars_take_other_keys(rt: HostRuntime) -> Result<(), Fail> {
    let mut yard = yard_of(&rt, 1)?;
    yard.reserve(6)?;
    renew_three(&rt, &mut yard);
    Ok(())
}

// The key has a car: it is loose.
fn is_named(rt: &impl Abort, yard: &Yard, key: Key)
    ensures { IsSome (entry_at yard.now key) }
{
    assert!(rt; yard.is_loose(key));
}

// The cell and the speed of a loose car, read beside it and in it.
fn is_driven(rt: &impl Abort, yard: &Yard, key: Key, cell: u32, speed: u8) {
    is_named(rt, yard, key);
    assert!(rt; yard.cell(key) == cell && yard.speed(key) == speed);
    let car = yard.car(key);
    assert!(rt; car.cell == cell && car.speed == speed);
}

// What is written of a car is read, beside it and in it.
fn write_fields(rt: &impl Abort, yard: &mut Yard, key: Key) {
    is_driven(rt, yard, key, 0, 0);
    is_named(rt, yard, key);
    yard.set_motion(key, 9, 4);
    is_driven(rt, yard, key, 9, 4);
    is_named(rt, yard, key);
    yard.set_cell(key, 11);
    is_named(rt, yard, key);
    yard.set_speed(key, 2);
    is_driven(rt, yard, key, 11, 2);
}

#[test]
fn fields_are_kept(rt: HostRuntime) -> Result<(), Fail> {
    let mut yard = yard_of(&rt, 1)?;
    let key = admit(&rt, &mut yard, 7);
    write_fields(&rt, &mut yard, key);
    Ok(())
}

// So are the step and the position in the plan.
fn write_other_fields(rt: &impl Abort, yard: &mut Yard, key: Key) {
    is_named(rt, yard, key);
    yard.set_step(key, 30);
    is_named(rt, yard, key);
    yard.set_at(key, 1);
    is_named(rt, yard, key);
    let car = yard.car(key);
    assert!(rt; car.step == 30 && car.at == 1);
}

// So is the mark.
fn set_mark(rt: &impl Abort, yard: &mut Yard, key: Key) {
    is_named(rt, yard, key);
    assert!(rt; !yard.is_marked(key));
    yard.set_mark(key, true);
    is_named(rt, yard, key);
    assert!(rt; yard.is_marked(key));
}

#[test]
fn other_fields_are_kept(rt: HostRuntime) -> Result<(), Fail> {
    let mut yard = yard_of(&rt, 1)?;
    let key = admit(&rt, &mut yard, 7);
    write_other_fields(&rt, &mut yard, key);
    set_mark(&rt, &mut yard, key);
    Ok(())
}

// The number of a car that has left.
fn number_of(car: Car) -> u32 {
    car.number
}

// A place that a car has left is used again.
fn leave_and_come(rt: &(impl Abort + AllocGlobal), yard: &mut Yard) {
    let a = admit(rt, yard, 7);
    assert!(rt; yard.is_loose(a));
    assert!(rt; number_of(yard.take(a)) == 7);
    assert!(rt; !yard.is_loose(a) && yard.list_of(a).is_none() && yard.room() == 3);
    let b = admit(rt, yard, 8);
    assert!(rt; b.index() == a.index());
}

#[test]
fn place_is_used_again(rt: HostRuntime) -> Result<(), Fail> {
    let mut yard = yard_of(&rt, 1)?;
    leave_and_come(&rt, &mut yard);
    Ok(())
}
