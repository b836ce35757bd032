//! The turns from each lane, by the positions of their next links. `network.rt` makes the table, and looks turns up in it.
//!
//! Source: turns of TRANSIMS.
ghost use Rattle.std.specs.Prelude.{◌≡◌, ◌+◌, ◌*◌, ◌<◌, ◌≤◌, length, map, true, None, IfOk};
ghost use Rattle.std.specs.List.Sorted.{IsNonDecreasingBy};
ghost use Rattle.street_base.specs.Prelude.{network_fault, joins, most_turns};
ghost use Rattle.street_net.specs.Prelude.{ids_of_links, seen_turn, list_number, turn_rank, turns_at, IsStart, AreStarts, IsTurnTable, FindsTurn};

use crate::keys::find_link;
use indexmap::IndexSet;
use std::alloc::{AllocError, Global};
use street_base::{LaneNo, LinkIx, NetSpec, Turn, TurnSpec};

/// How many lists of turns a link has: one for each lane that a link may have.
pub(crate) const LISTS: usize = 2;

/// More than any position of a next link.
const NEXTS: usize = 65_536;

/// The turns from each lane, by the positions of their next links; those of a lane stand side by side.
#[derive(Drop)]
pub(crate) struct TurnTable {
    /// Where each lane's list starts, and at last where all end.
    starts: Vec<u16>,
    turns: Vec<Turn>,
}

/// The number of the list of the turns from a lane: each link has two lists, in the order of the links, one a lane.
pub(crate) fn list_of(link: LinkIx, lane: LaneNo) -> usize
    ensures value { result ≡ 2 * link + lane }
    ensures within { result ≤ 2 * 65535 + 255 }
{
    LISTS * usize::from(link.as_u16()) + usize::from(lane)
}

impl TurnTable {
    /// The table of the turns of a load without faults. `links` are the identifiers of all links.
    ///
    /// # Errors
    ///
    /// Memory was refused.
    pub(crate) fn build(
        alloc: Global,
        spec: &NetSpec,
        links: &IndexSet<u64>,
    ) -> Result<TurnTable, AllocError>
        requires faultless { network_fault spec.now ≡ None }
        requires listed { links.now.keys ≡ ids_of_links spec.now.links }
        ensures { IfOk result (λ table. IsTurnTable spec.now table.starts.items table.turns.items) }
    {
        let mut turns = turns_by_position(alloc, spec, links)?;
        turns.sort_unstable_by_key(rank_of);
        let lists = LISTS * spec.links.as_slice().len();
        let starts = starts_of(alloc, &turns, lists + 1)?;
        Ok(TurnTable { starts, turns })
    }

    /// The turns of the list with a number (see [`list_of`]), in the order of their next links.
    pub(crate) fn list(&self, list: usize) -> &[Turn]
        requires there { list + 1 < length self.now.starts.items }
        requires cut { AreStarts self.now.starts.items self.now.turns.items }
        ensures { result.now ≡ turns_at self.now.starts.items self.now.turns.items list }
    {
        let start = usize::from(self.starts[list]);
        let end = usize::from(self.starts[list + 1]);
        &self.turns[start..end]
    }
}

/// All turns by the positions of their links, in the order of the load. `links` are the identifiers of all links.
///
/// # Errors
///
/// Memory was refused.
fn turns_by_position(
    alloc: Global,
    spec: &NetSpec,
    links: &IndexSet<u64>,
) -> Result<Vec<Turn>, AllocError>
    requires faultless { network_fault spec.now ≡ None }
    requires listed { links.now.keys ≡ ids_of_links spec.now.links }
    ensures { IfOk result (λ turns. turns.items ≡ map (seen_turn spec.now) spec.now.turns) }
{
    let listed = spec.turns.as_slice();
    let mut turns = Vec::with_capacity(alloc, listed.len())?;
    for turn in listed {
        turns.push(by_position(spec, links, turn))?;
    }
    Ok(turns)
}

/// A turn of the load by the positions of its links. `links` are the identifiers of all links.
fn by_position(spec: &NetSpec, links: &IndexSet<u64>, turn: &TurnSpec) -> Turn
    requires faultless { network_fault spec.now ≡ None }
    requires joins { joins spec.now turn.now ≡ true }
    requires listed { links.now.keys ≡ ids_of_links spec.now.links }
    ensures { result ≡ seen_turn spec.now turn.now }
{
    let link = find_link(spec, links, turn.link).unwrap();
    let next = find_link(spec, links, turn.next).unwrap();
    Turn {
        link: LinkIx::new(link as u16),
        lane: turn.lane as u8,
        next: LinkIx::new(next as u16),
        next_lane: turn.next_lane as u8,
    }
}

/// The number by which the turns are sorted: first by their lists, then by their next links.
fn rank_of(turn: &Turn) -> usize
    ensures { result ≡ turn_rank turn.now }
{
    list_of(turn.link, turn.lane) * NEXTS + usize::from(turn.next.as_u16())
}

/// For each of so many lists, where it starts among turns in the order of their lists.
///
/// # Errors
///
/// Memory was refused.
fn starts_of(alloc: Global, turns: &[Turn], lists: usize) -> Result<Vec<u16>, AllocError>
    requires few { length turns.now ≤ most_turns }
    requires rising { IsNonDecreasingBy list_number turns.now }
    ensures one_each { IfOk result (λ starts. length starts.items ≡ lists) }
    ensures cut { IfOk result (λ starts. AreStarts starts.items turns.now) }
{
    let mut starts = Vec::with_capacity(alloc, lists)?;
    for list in 0..lists {
        starts.push(start_of(turns, list) as u16)?;
    }
    Ok(starts)
}

/// Where a list starts among turns in the order of their lists: how many turns stand in lists before it.
fn start_of(turns: &[Turn], list: usize) -> usize
    requires { IsNonDecreasingBy list_number turns.now }
    ensures { IsStart turns.now list result }
{
    turns.partition_point(|turn| list_of(turn.link, turn.lane) < list)
}

/// The turn to a next link, among turns in the order of their next links, if one leads there.
pub(crate) fn turn_to(turns: &[Turn], next: LinkIx) -> Option<Turn>
    requires { IsNonDecreasingBy (λ t. t.next) turns.now }
    ensures { FindsTurn turns.now next result }
{
    let position = next.position();
    match turns.binary_search_by_key(&position, |turn| turn.next.position()) {
        Ok(at) => Some(turns[at]),
        Err(_) => None,
    }
}
