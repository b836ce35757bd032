//! How a network is cut into tiles, with nobody on them, and which tile owns a node. `tiles.rt` calls it at a load.
ghost use Rattle.std.specs.Prelude.{◌≡◌, ◌+◌, ◌*◌, ◌/◌, ◌<◌, ◌≤◌, ◌++◌, [], length, map, replicate, min, vec_capacity, None, IfOk, OnOk, All};
ghost use Rattle.std.specs.List.{range_with_len};
ghost use Rattle.street_base.specs.Prelude.{most_workers, most_links, loaded};
ghost use Rattle.street_lanes.specs.Prelude.{AllLanes, fresh};
ghost use Rattle.street_lanes.specs.Lanes.{IsOf};
ghost use Rattle.street_tile.specs.Prelude.{IsTileOf, IsIdle, TileStandsFor, AreTiles, AreNumbers, own_places, bare, MetersStand, AllMetersStand};
ghost use Rattle.street_node.specs.Prelude.{AtMostOnce};

use crate::hand_over::{Comers, HandOver};
use crate::lane_pairs::next_pairs;
use crate::tile::Tile;
use std::alloc::{AllocError, Global};
use street_base::{CarNo, CellNo, LaneNo, LinkIx, NodeIx, Place, RecordRow, Starved, Step};
use street_lanes::{Detectors, Lanes};
use street_net::{Network, slot};
use street_node::SignalPlan;

/// Adds the lanes of a link, which has so many, to a list.
///
/// # Errors
/// Memory was refused; some of them may be added.
fn add_lanes(list: &mut Vec<Place>, link: LinkIx, lanes: LaneNo) -> Result<(), AllocError>
    ensures { OnOk result (list.new.items
        ≡ list.old.items ++ map (λ k. record { link = link; lane = k }) (range_with_len 0 lanes)) }
{
    for lane in 0..lanes {
        list.push(Place { link, lane })?;
    }
    Ok(())
}

/// The lanes of the links that run to nodes at positions from `low` on, below `high`, link by link.
///
/// # Errors
/// Memory was refused.
fn own_lanes(
    alloc: Global,
    net: &Network,
    low: usize,
    high: usize,
) -> Result<Vec<Place>, AllocError>
    ensures { IfOk result (λ own. own.items ≡ own_places net.now low high) }
{
    let links = net.spec().links.as_slice();
    let mut own = Vec::new(alloc);
    for at in 0..links.len() {
        let link = LinkIx::new(at as u16);
        let node = net.end_of(link).position();
        if low <= node && node < high {
            add_lanes(&mut own, link, links[at].lanes as LaneNo)?;
        }
    }
    Ok(own)
}

/// For each lane of so many links, by its slot (`street_net::slot`): its number among these lanes, 0 where it is none of them.
///
/// # Errors
/// Memory was refused.
fn numbers_of(alloc: Global, links: usize, own: &[Place]) -> Result<Vec<usize>, AllocError>
    requires few { links ≤ most_links }
    requires inside { All (λ at. (at.link < links) × (at.lane < 2)) own.now }
    requires once { AtMostOnce own.now }
    ensures { IfOk result (λ numbers. AreNumbers links own.now numbers.items) }
{
    let mut numbers = vec![in alloc; 0; 2 * links]?;
    for n in 0..own.len() {
        let at = own[n];
        numbers[slot(at.link, at.lane)] = n;
    }
    Ok(numbers)
}

/// A list of so many entries, each `None`.
///
/// # Errors
/// Memory was refused.
pub(crate) fn nones<T: Drop>(alloc: Global, count: usize) -> Result<Vec<Option<T>>, AllocError>
    ensures { IfOk result (λ nones. nones.items ≡ replicate count None) }
{
    let mut nones = Vec::with_capacity(alloc, count)?;
    for _none in 0..count {
        nones.push(None)?;
    }
    Ok(nones)
}

/// For each of these lanes its detectors, none so far.
///
/// # Errors
/// Memory was refused.
fn detectors_of(alloc: Global, net: &Network, own: &[Place]) -> Result<Vec<Detectors>, AllocError>
    requires { AllLanes net.now own.now }
    ensures { IfOk result (λ detectors. detectors.items ≡ map (bare net.now) own.now) }
{
    let links = net.spec().links.as_slice();
    let mut detectors = Vec::with_capacity(alloc, own.len())?;
    for at in own {
        let length = links[at.link.position()].length as CellNo;
        detectors.push(Detectors::new(length))?;
    }
    Ok(detectors)
}

/// These lanes with nobody on them, and for each its detectors, none so far.
///
/// # Errors
/// Memory was refused.
fn fresh_lanes(
    alloc: Global,
    net: &Network,
    own: &[Place],
) -> Result<(Lanes, Vec<Detectors>), Starved>
    requires { AllLanes net.now own.now }
    ensures fresh { IfOk result (λ found. found.0 ≡ fresh net.now own.now found.0.room) }
    ensures of { IfOk result (λ found. IsOf net.now found.0) }
    ensures detectors { IfOk result (λ found. found.1.items ≡ map (bare net.now) own.now) }
{
    let lanes = Lanes::new(alloc, net, own)?;
    let detectors = detectors_of(alloc, net, own)?;
    Ok((lanes, detectors))
}

/// Two lists by slot, two slots for each of so many links (`street_net::slot`): the number of each of these lanes among them, 0
/// for any other lane; and the mouth of each lane, shut so far.
///
/// # Errors
/// Memory was refused.
fn slots_of(
    alloc: Global,
    links: usize,
    own: &[Place],
) -> Result<(Vec<usize>, Vec<bool>), AllocError>
    requires few { links ≤ most_links }
    requires inside { All (λ at. (at.link < links) × (at.lane < 2)) own.now }
    requires once { AtMostOnce own.now }
    ensures numbers { IfOk result (λ slots. AreNumbers links own.now slots.0.items) }
    ensures mouths { IfOk result (λ slots. length slots.1.items ≡ 2 * links) }
{
    let numbers = numbers_of(alloc, links, own)?;
    let mouths = vec![in alloc; false; 2 * links]?;
    Ok((numbers, mouths))
}

// Who is handed over, who comes to each lane, who arrived, and their rows.
type Moving = (Vec<HandOver>, Comers, Vec<CarNo>, Vec<RecordRow>);

/// The lists of who moves on a tile of so many lanes, with nobody in them: of those handed over, of those who come to each lane, of
/// those who arrived and of their rows. Each has room for one vehicle a lane, the most that a step needs.
///
/// # Errors
/// Memory was refused.
fn moving_of(alloc: Global, lanes: usize) -> Result<Moving, AllocError>
    ensures handed { IfOk result (λ moving. (moving.0.items ≡ []) × (lanes ≤ vec_capacity moving.0)) }
    ensures coming { IfOk result (λ moving. moving.1 ≡ replicate lanes None) }
    ensures arrived { IfOk result (λ moving. (moving.2.items ≡ []) × (lanes ≤ vec_capacity moving.2)) }
    ensures left { IfOk result (λ moving. lanes ≤ vec_capacity moving.3) }
{
    let handed = Vec::with_capacity(alloc, lanes)?;
    let coming = Comers::new(alloc, lanes)?;
    let arrived = Vec::with_capacity(alloc, lanes)?;
    let left = Vec::with_capacity(alloc, lanes)?;
    Ok((handed, coming, arrived, left))
}

// By slot, numbers and mouths; who moves; and for each node its signal plan, if it has one.
type Tables = ((Vec<usize>, Vec<bool>), Moving, Vec<Option<SignalPlan>>);

/// What a tile of so many nodes keeps beside its own lanes, in a network of so many links: by slot, of who moves, and for each
/// node no signal plan.
///
/// # Errors
/// Memory was refused.
fn tables_of(alloc: Global, links: usize, nodes: usize, own: &[Place]) -> Result<Tables, AllocError>
    requires few { links ≤ most_links }
    requires inside { All (λ at. (at.link < links) × (at.lane < 2)) own.now }
    requires once { AtMostOnce own.now }
    ensures numbers { IfOk result (λ tables. AreNumbers links own.now tables.0.0.items) }
    ensures mouths { IfOk result (λ tables. length tables.0.1.items ≡ 2 * links) }
    ensures handed { IfOk result (λ tables. (tables.1.0.items ≡ []) × (length own.now ≤ vec_capacity tables.1.0)) }
    ensures coming { IfOk result (λ tables. tables.1.1 ≡ replicate (length own.now) None) }
    ensures arrived { IfOk result (λ tables. (tables.1.2.items ≡ []) × (length own.now ≤ vec_capacity tables.1.2)) }
    ensures left { IfOk result (λ tables. length own.now ≤ vec_capacity tables.1.3) }
    ensures plans { IfOk result (λ tables. tables.2.items ≡ replicate nodes None) }
{
    let slots = slots_of(alloc, links, own)?;
    let moving = moving_of(alloc, own.len())?;
    let plans = nones(alloc, nodes)?;
    Ok((slots, moving, plans))
}

/// The position of the tile, among `count`, that owns a node: the inverse of [`Tile::cut`].
pub(crate) fn owner_of_node(net: &Network, count: usize, node: NodeIx) -> usize
    requires some { 0 < count }
    requires few { count ≤ length net.now.nodes }
    requires node { node < length net.now.nodes }
    ensures inside { result < count }
    ensures low { result * length net.now.nodes / count ≤ node }
    ensures high { node < (result + 1) * length net.now.nodes / count }
{
    if count == 1 {
        return 0;
    }
    let nodes = net.spec().nodes.as_slice().len();
    ((node.position() + 1) * count - 1) / nodes
}

impl Tile {
    /// The tile of the nodes at positions from `low` on, below `high`, with nobody on it.
    ///
    /// # Errors
    /// Memory was refused.
    fn of_nodes(alloc: Global, net: &Network, low: usize, high: usize) -> Result<Tile, Starved>
        requires order { low ≤ high }
        requires within { high ≤ length net.now.nodes }
        ensures tile { IfOk result (IsTileOf net.now) }
        ensures nodes { IfOk result (λ tile. (tile.low ≡ low) × (tile.high ≡ high)) }
        ensures idle { IfOk result IsIdle }
        ensures stands { IfOk result (λ tile. TileStandsFor tile (loaded net.now)) }
        ensures meters { IfOk result (λ tile. MetersStand tile (loaded net.now)) }
    {
        let links = net.spec().links.as_slice().len();
        let places = own_lanes(alloc, net, low, high)?;
        let (own, detectors) = fresh_lanes(alloc, net, &places)?;
        let tables = tables_of(alloc, links, high - low, &places)?;
        let ((numbers, mouths), (handed, coming, arrived, left), signals) = tables;
        let next_pairs = next_pairs(alloc, &places)?;
        Ok(Tile {
            low,
            high,
            links,
            own,
            numbers,
            next_pairs,
            clock: net.spec().start as Step,
            signals,
            mouths,
            handed,
            coming,
            arrived,
            left,
            has_meters: false,
            detectors,
        })
    }

    /// The tiles of a network for so many workers, at most one a node, with nobody on them. With `n` nodes, tile `i` of `k`
    /// has the nodes at positions from `i * n / k` on, below `(i + 1) * n / k`, both rounded down.
    ///
    /// # Errors
    /// Memory was refused.
    pub fn cut(alloc: Global, net: &Network, workers: usize) -> Result<Vec<Tile>, Starved>
        requires some { 1 ≤ workers }
        requires few { workers ≤ most_workers }
        ensures tiles { IfOk result (λ tiles. AreTiles net.now tiles.items) }
        ensures count { IfOk result (λ tiles. length tiles.items ≡ min workers (length net.now.nodes)) }
        ensures idle { IfOk result (λ tiles. All IsIdle tiles.items) }
        ensures stand { IfOk result (λ tiles. All (λ x. TileStandsFor x (loaded net.now)) tiles.items) }
        ensures meters { IfOk result (λ tiles. AllMetersStand tiles.items (loaded net.now)) }
    {
        let nodes = net.spec().nodes.as_slice().len();
        let count = workers.min(nodes);
        let mut tiles = Vec::with_capacity(alloc, count)?;
        for i in 0..count {
            let tile = Tile::of_nodes(alloc, net, i * nodes / count, (i + 1) * nodes / count)?;
            tiles.push(tile)?;
        }
        Ok(tiles)
    }
}
