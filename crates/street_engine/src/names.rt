//! Lanes and cells that a command names, by a link's identifier and untested numbers, as places and cells of the network. The
//! commands that name a lane or a cell call it.
ghost use Rattle.std.specs.Prelude.{◌≡◌, ℕ, ◌≤◌, ◌<◌, None, Some, length, IfOk, IfErr, OnOk};
ghost use Rattle.street_base.specs.declared.refusal.Refusal.{Refusal};
ghost use Rattle.street_base.specs.Prelude.{link_at, Traffic, named_lane as lane_named, closure_refusal};
ghost use Rattle.street_lanes.specs.Prelude.{IsLane};
ghost use Rattle.street_engine.specs.Prelude.{PassesLane, RefusesLane};

use street_base::{CellNo, LaneNo, Place, Refusal};
use street_net::Network;

/// Cells of a lane from the first to the last.
#[derive(Clone, Copy)]
pub(crate) struct Cells {
    /// The lane.
    pub(crate) at: Place,
    /// The first cell.
    pub(crate) first: CellNo,
    /// The last cell, in the lane and not before the first.
    pub(crate) last: CellNo,
}

/// The lane of a number on the link with an identifier.
///
/// # Errors
/// `NoLink`, or else `NoLane`.
pub(crate) fn named_lane(net: &Network, link: u64, lane: u64) -> Result<Place, Refusal>
    ensures place { IfOk result (λ at. at ≡ lane_named net.now link lane) }
    ensures there { IfOk result (λ at. IsLane net.now at) }
    ensures passed { OnOk result (PassesLane net.now link lane) }
    ensures refused { IfErr result (RefusesLane net.now link lane) }
{
    let Some(position) = net.link_of(link) else {
        return Err(Refusal::NoLink);
    };
    if lane >= u64::from(net.lanes_of(position)) {
        return Err(Refusal::NoLane);
    }
    Ok(Place {
        link: position,
        lane: lane_number(net, lane),
    })
}

/// A lane's number in its own type, which has room for it: some link has such a lane.
pub(crate) fn lane_number(net: &Network, lane: u64) -> LaneNo
    requires { (link : ℕ) × (lane < (link_at net.now link).lanes) }
    ensures { result ≡ lane }
{
    let _faultless = net.spec();
    lane as LaneNo
}

/// The cells of a lane from the first to the last. The lane is named as for [`named_lane`].
///
/// # Errors
/// `NoLink`, or else `NoLane`, or else `BadRange` where the first is above the last, or the last is not in the lane.
pub(crate) fn named_cells(
    net: &Network,
    link: u64,
    lane: u64,
    first: u64,
    last: u64,
) -> Result<Cells, Refusal>
    ensures place { IfOk result (λ cells. cells.at ≡ lane_named net.now link lane) }
    ensures there { IfOk result (λ cells. IsLane net.now cells.at) }
    ensures first { IfOk result (λ cells. cells.first ≡ first) }
    ensures last { IfOk result (λ cells. cells.last ≡ last) }
    ensures order { OnOk result (first ≤ last) }
    ensures within { IfOk result (λ cells. last < (link_at net.now cells.at.link).length) }
    ensures passed { OnOk result ((m : Traffic) → m.network ≡ net.now → closure_refusal link lane first last m ≡ None) }
    ensures refused { IfErr result (λ refusal. (m : Traffic) → m.network ≡ net.now
        → closure_refusal link lane first last m ≡ Some refusal) }
{
    let at = named_lane(net, link, lane)?;
    let length = u64::from(net.length_of(at.link));
    if first > last || last >= length {
        return Err(Refusal::BadRange);
    }
    Ok(Cells {
        at,
        first: first as CellNo,
        last: last as CellNo,
    })
}
