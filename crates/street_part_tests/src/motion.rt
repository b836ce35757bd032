//! Motion with values reckoned by hand.

ghost use Rattle.std.specs.Prelude.{◌≡◌, ◌-◌, ◌<◌, ℕ, [], IfOk, OnOk, length, All};
ghost use Rattle.street_rule.specs.Prelude.{odds_of, IsReady, IsRoad};
ghost use Rattle.street_yard.specs.Prelude.{list_at, rear_at, AllAbove, IsLane};
ghost use Rattle.street_gap.specs.Prelude.{IsWithin};

use crate::nets;
use crate::nets::{link, node};
use std::alloc::Global;
use std::process::Abort;
use std::test::Fail;
use street_base::{Car, CarNo, CellNo, LinkIx, Plan, Size, Speed, Starved, Step};
use street_gap::Closures;
use street_net::Network;
use street_rule::{Dice, Leaver, Road, RoadLane, Watch, lane_pass, motion_pass};
use street_yard::{Key, ListId, Yard};

/// Two nodes and a link of 40 cells between them, whose limit is 5.
fn one_link(alloc: Global) -> Result<Network, Fail> {
    nets::network(alloc, &[node(1), node(2)], &[link(10, 1, 2, 40)], &[])
}

/// A vehicle stands with its front here, with this speed.
#[derive(Clone, Copy)]
struct Standing {
    cell: CellNo,
    speed: Speed,
}

/// The last cell that a vehicle of this size covers.
fn rear(standing: Standing, size: Size) -> CellNo
    ensures { result ≡ standing.cell - (size - 1) }
{
    let tail = size.cells() - 1;
    standing.cell.saturating_sub(CellNo::from(tail))
}

/// A vehicle of this size comes last on list 0, with its front below the rears of all others.
fn put(
    alloc: Global,
    yard: &mut Yard,
    number: CarNo,
    standing: Standing,
    size: Size,
) -> Result<Key, Starved>
    requires list { 0 < length yard.old.lists }
    requires lane { IsLane yard.old 0 40 }
    requires below { AllAbove (rear_at yard.old) standing.cell (list_at yard.old 0) }
    requires within { standing.cell < 40 }
    ensures list { OnOk result (length yard.new.lists ≡ length yard.old.lists) }
    ensures lane { OnOk result (IsLane yard.new 0 40) }
    ensures below { OnOk result ((cell : ℕ) → cell < standing.cell - (size - 1) → AllAbove (rear_at yard.new) cell (list_at yard.new 0)) }
{
    let plan = Box::new(
        alloc,
        Plan::from_vec(Vec::from_slice(alloc, &[LinkIx::new(0)])?),
    )?;
    yard.reserve(1)?;
    let key = yard.admit_reserved(Car {
        plan,
        number,
        cell: standing.cell,
        step: 0,
        at: 0,
        speed: standing.speed,
        size,
    });
    yard.push_back(ListId(0), key);
    Ok(key)
}

/// Where a vehicle of the lane stands, and its speed; nothing of one that has left.
fn seen(yard: &Yard, key: Key) -> Option<(CellNo, Speed)> {
    yard.list_of(key)?;
    Some((yard.cell(key), yard.speed(key)))
}

/// One closed stretch.
fn closed(rt: &(impl Abort + AllocGlobal), first: CellNo, last: CellNo) -> Result<Closures, Fail>
    ensures { IfOk result (λ c. IsWithin c 40) }
{
    assert!(rt; first <= last && last < 40);
    let mut closures = Closures::new(rt.alloc());
    closures.close(first, last)?;
    Ok(closures)
}

/// Three vehicles of a lane, the front first.
type Three = (Standing, Standing, Standing);

/// A vehicle of this size comes last on list 0, for which there is memory.
fn add(
    rt: &(impl Abort + AllocGlobal),
    yard: &mut Yard,
    number: CarNo,
    standing: Standing,
    size: Size,
) -> Key
    requires list { 0 < length yard.old.lists }
    requires lane { IsLane yard.old 0 40 }
    requires below { AllAbove (rear_at yard.old) standing.cell (list_at yard.old 0) }
    requires within { standing.cell < 40 }
    ensures list { length yard.new.lists ≡ length yard.old.lists }
    ensures lane { IsLane yard.new 0 40 }
    ensures below { (cell : ℕ) → cell < standing.cell - (size - 1) → AllAbove (rear_at yard.new) cell (list_at yard.new 0) }
{
    match put(rt.alloc(), yard, number, standing, size) {
        Ok(key) => key,
        Err(_) => panic!(rt; "no memory for vehicle {number}"),
    }
}

/// The keys of three vehicles, the front first.
type Keys = (Key, Key, Key);

/// How many cells each of the three covers: 1 to 4.
type Sizes = (u64, u64, u64);

/// A size of so many cells.
fn size_of(rt: &impl Abort, cells: u64) -> Size {
    match Size::new(cells) {
        Some(size) => size,
        None => panic!(rt; "no vehicle covers {cells} cells"),
    }
}

/// A yard in which list 0 is a lane with nobody on it.
fn empty(rt: &(impl Abort + AllocGlobal)) -> Yard
    ensures list { 0 < length result.lists }
    ensures nobody { list_at result 0 ≡ [] }
    ensures lane { IsLane result 0 40 }
{
    match Yard::new(rt.alloc(), 1) {
        Ok(yard) => yard,
        Err(_) => panic!(rt; "no memory for a yard"),
    }
}

/// A yard in which list 0 is a lane of three vehicles of these sizes, and their keys.
fn stand(rt: &(impl Abort + AllocGlobal), cars: Three, sizes: Sizes) -> (Yard, Keys)
    ensures list { 0 < length result.0.lists }
    ensures lane { IsLane result.0 0 40 }
{
    let (first, second, third) = cars;
    let (long, short) = (size_of(rt, sizes.0), size_of(rt, sizes.1));
    let (long_rear, short_rear) = (rear(first, long), rear(second, short));
    assert!(rt; first.cell < 40 && second.cell < long_rear && third.cell < short_rear);
    let mut yard = empty(rt);
    let front = add(rt, &mut yard, 0, first, long);
    let middle = add(rt, &mut yard, 1, second, short);
    let back = add(rt, &mut yard, 2, third, size_of(rt, sizes.2));
    (yard, (front, middle, back))
}

/// What happens to a lane: whether its exit is open, and where a detector stands.
#[derive(Clone, Copy)]
struct Scene {
    cars: Three,
    sizes: Sizes,
    exit: bool,
    watch: CellNo,
}

/// A lane after its motion: where the vehicles stand and their speeds, the speed of the first where it has left, and what
/// the detector noted: passes and speeds.
#[derive(PartialEq, Eq, Clone, Copy)]
struct Moved {
    cars: [Option<(CellNo, Speed)>; 3],
    left: Option<Speed>,
    noted: (u32, u32),
}

/// The motion of list 0, which is the lane of a link of 40 cells.
fn drive<'a>(
    rt: &impl Abort,
    network: &'a Network,
    closures: &'a Closures,
    yard: &mut Yard,
    exit: bool,
    dice: &mut Dice,
    watches: &mut [Watch],
) -> Option<Leaver>
    requires list { 0 < length yard.old.lists }
    requires lane { IsLane yard.old 0 40 }
    requires closed { IsWithin closures.now 40 }
    requires watches { All (IsReady 40) watches.old }
{
    let lane = RoadLane {
        list: ListId(0),
        closures,
    };
    assert!(rt; network.spec().links.as_slice().len() == 1);
    let road = Road::new(network, LinkIx::new(0), lane, None);
    assert!(rt; road.length() == 40);
    motion_pass(yard, &road, 0, 7, exit, dice, watches)
}

/// The lane of list 0 after its motion.
fn moved_lane(
    rt: &impl Abort,
    network: &Network,
    closures: &Closures,
    yard: &mut Yard,
    keys: Keys,
    dice: &mut Dice,
    scene: Scene,
) -> Moved
    requires list { 0 < length yard.old.lists }
    requires lane { IsLane yard.old 0 40 }
    requires closed { IsWithin closures.now 40 }
{
    assert!(rt; scene.watch < 40);
    let mut watches = [Watch {
        cell: scene.watch,
        passes: 0,
        speeds: 0,
    }];
    let leaver = drive(rt, network, closures, yard, scene.exit, dice, &mut watches);
    let (front, middle, back) = keys;
    let left = match leaver {
        Some(leaver) => {
            assert!(rt; leaver.key == front);
            Some(leaver.speed)
        }
        None => None,
    };
    Moved {
        cars: [seen(yard, front), seen(yard, middle), seen(yard, back)],
        left,
        noted: (watches[0].passes, watches[0].speeds),
    }
}

/// The lane after its motion.
fn move_once(
    rt: &(impl Abort + AllocGlobal),
    network: &Network,
    closures: &Closures,
    dice: &mut Dice,
    scene: Scene,
) -> Moved
    requires { IsWithin closures.now 40 }
{
    let (mut yard, keys) = stand(rt, scene.cars, scene.sizes);
    moved_lane(rt, network, closures, &mut yard, keys, dice, scene)
}

/// The lane moves so where these cells are closed and nobody dawdles.
fn check_moved(
    rt: &(impl Abort + AllocGlobal),
    network: &Network,
    first: CellNo,
    last: CellNo,
    scene: Scene,
    wanted: Moved,
) -> Result<(), Fail> {
    let closures = closed(rt, first, last)?;
    let mut dice = Dice::new(rt.alloc(), 0, 0, 0, 3)?;
    assert!(rt; move_once(rt, network, &closures, &mut dice, scene) == wanted);
    Ok(())
}

fn at(cell: CellNo, speed: Speed) -> Standing {
    Standing { cell, speed }
}

/// With a closed stretch far away, and with one ahead of the first vehicle.
fn check_old_cells(rt: &(impl Abort + AllocGlobal), network: &Network) -> Result<(), Fail> {
    let apart = Scene {
        cars: (at(10, 4), at(3, 2), at(0, 3)),
        sizes: (1, 1, 1),
        exit: true,
        watch: 10,
    };
    let free = Moved {
        cars: [Some((15, 5)), Some((6, 3)), Some((2, 2))],
        left: None,
        noted: (1, 5),
    };
    check_moved(rt, network, 39, 39, apart, free)?;
    let before_a_stretch = Scene { watch: 5, ..apart };
    let braked = Moved {
        cars: [Some((11, 1)), Some((6, 3)), Some((2, 2))],
        left: None,
        noted: (1, 3),
    };
    check_moved(rt, network, 12, 13, before_a_stretch, braked)
}

#[test]
fn vehicles_move_by_the_old_cells(rt: HostRuntime) -> Result<(), Fail> {
    let network = one_link(rt.alloc())?;
    check_old_cells(&rt, &network)
}

/// With a shut exit and with an open one, behind a closed stretch.
fn check_exit(rt: &(impl Abort + AllocGlobal), network: &Network) -> Result<(), Fail> {
    let shut = Scene {
        cars: (at(38, 4), at(30, 5), at(29, 0)),
        sizes: (1, 1, 1),
        exit: false,
        watch: 38,
    };
    let kept = Moved {
        cars: [Some((39, 1)), Some((35, 5)), Some((29, 0))],
        left: None,
        noted: (1, 1),
    };
    check_moved(rt, network, 5, 6, shut, kept)?;
    let open = Scene {
        exit: true,
        watch: 39,
        ..shut
    };
    let left = Moved {
        cars: [None, Some((35, 5)), Some((29, 0))],
        left: Some(5),
        noted: (1, 5),
    };
    check_moved(rt, network, 5, 6, open, left)
}

#[test]
fn an_open_exit_is_left_by(rt: HostRuntime) -> Result<(), Fail> {
    let network = one_link(rt.alloc())?;
    check_exit(&rt, &network)
}

/// Vehicles of 4, 2 and 1 cells, where these cells are closed: each stops for the rear of the one ahead.
fn check_rears(
    rt: &(impl Abort + AllocGlobal),
    network: &Network,
    first: CellNo,
    last: CellNo,
) -> Result<(), Fail> {
    let behind = Scene {
        cars: (at(10, 4), at(4, 2), at(0, 3)),
        sizes: (4, 2, 1),
        exit: true,
        watch: 5,
    };
    let moved = Moved {
        cars: [Some((15, 5)), Some((6, 2)), Some((2, 2))],
        left: None,
        noted: (1, 2),
    };
    check_moved(rt, network, first, last, behind, moved)
}

#[test]
fn vehicles_stop_for_rears(rt: HostRuntime) -> Result<(), Fail> {
    let network = one_link(rt.alloc())?;
    check_rears(&rt, &network, 39, 39)
}

/// The rear of the first lies over the begin of the stretch, and nearer than it.
#[test]
fn a_rear_may_lie_before_a_closed_stretch(rt: HostRuntime) -> Result<(), Fail> {
    let network = one_link(rt.alloc())?;
    check_rears(&rt, &network, 8, 12)
}

/// A vehicle of 4 cells leaves whole; who is behind it moves by where its rear was.
fn check_leaves_whole(rt: &(impl Abort + AllocGlobal), network: &Network) -> Result<(), Fail> {
    let leaving = Scene {
        cars: (at(38, 4), at(30, 5), at(20, 0)),
        sizes: (4, 3, 1),
        exit: true,
        watch: 38,
    };
    let left = Moved {
        cars: [None, Some((34, 4)), Some((21, 1))],
        left: Some(5),
        noted: (1, 5),
    };
    check_moved(rt, network, 5, 6, leaving, left)
}

#[test]
fn long_vehicles_leave_whole(rt: HostRuntime) -> Result<(), Fail> {
    let network = one_link(rt.alloc())?;
    check_leaves_whole(&rt, &network)
}

/// One step of a link of one lane: nobody changes lane, and all vehicles move.
fn drive_link(yard: &mut Yard, road: &Road<'_>, dice: &mut Dice, step: Step) -> Option<Leaver>
    requires lanes { length road.now.lanes ≡ 1 }
    requires road { IsRoad yard.old road.now }
    requires dice { dice.old ≡ odds_of road.now.network }
{
    let exit_is_open = true;
    lane_pass(yard, road, step, dice);
    motion_pass(yard, road, 0, step, exit_is_open, dice, &mut [])
}

/// A vehicle that stands alone in cell 0 is in cell 1 a step later.
fn check_drive_link<'a>(
    rt: &(impl Abort + AllocGlobal),
    network: &'a Network,
    closures: &'a Closures,
) -> Result<(), Fail>
    requires { IsWithin closures.now 40 }
{
    let mut yard = empty(rt);
    let first = Standing { cell: 0, speed: 0 };
    let key = add(rt, &mut yard, 0, first, size_of(rt, 1));
    let lane = RoadLane {
        list: ListId(0),
        closures,
    };
    let spec = network.spec();
    assert!(rt; spec.links.as_slice().len() == 1);
    assert!(rt; spec.seed == 0 && spec.dawdle == 0 && spec.change == 0);
    let mut dice = Dice::new(rt.alloc(), 0, 0, 0, 1)?;
    let road = Road::new(network, LinkIx::new(0), lane, None);
    assert!(rt; road.length() == 40);
    assert!(rt; drive_link(&mut yard, &road, &mut dice, 0).is_none());
    assert!(rt; seen(&yard, key) == Some((1, 1)));
    Ok(())
}

#[test]
fn a_link_of_one_lane_is_driven(rt: HostRuntime) -> Result<(), Fail> {
    let network = one_link(rt.alloc())?;
    let closures = closed(&rt, 39, 39)?;
    check_drive_link(&rt, &network, &closures)
}
