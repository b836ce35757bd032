//! Which lanes run to a node. The lanes to a node stand in the order of its releases. `network.rt` makes the table once;
//! releases, and the slots of all tiles, go by it.
ghost use Rattle.std.specs.Prelude.{◌≡◌, ◌+◌, ◌*◌, ◌<◌, ◌++◌, [], length, map, slice_index_or, Vec, EachIndex, None, IfOk, OnOk};
ghost use Rattle.std.specs.List.{range_with_len};
ghost use Rattle.std.specs.declared.alloc.Global.{Global};
ghost use Rattle.street_base.specs.Prelude.{network_fault};
ghost use Rattle.street_net.specs.Prelude.{AreBriefs, AreInLanes};

use crate::briefs::Brief;
use std::alloc::{AllocError, Global};
use street_base::{LaneNo, LinkIx, NetSpec, Place};

/// The position of a lane's entry in a list that has two entries for each link, one a lane, in the order of the links: also a
/// link of one lane takes two.
pub fn slot(link: LinkIx, lane: LaneNo) -> usize
    requires { 2 * link + lane < 18446744073709551616 }
    ensures { result ≡ 2 * link + lane }
{
    2 * link.position() + usize::from(lane)
}

/// For each node, in the order of the load, the lanes that run to it, in the order of release: by the position of the link,
/// then by the lane. `briefs` are those of all links.
///
/// # Errors
///
/// Memory was refused.
pub(crate) fn lanes_by_end(
    alloc: Global,
    spec: &NetSpec,
    briefs: &[Brief],
) -> Result<Vec<Vec<Place>>, AllocError>
    requires faultless { network_fault spec.now ≡ None }
    requires briefs { AreBriefs spec.now briefs.now }
    ensures { IfOk result (λ lists. AreInLanes spec.now lists.items) }
{
    let mut lists = no_lanes(alloc, spec.nodes.as_slice().len())?;
    for (at, brief) in briefs.iter().enumerate() {
        let end = brief.end.position();
        add_lanes(&mut lists[end], LinkIx::new(at as u16), brief.lanes)?;
    }
    Ok(lists)
}

/// So many empty lists, to be filled with the lanes that run to each node.
///
/// # Errors
///
/// Memory was refused.
fn no_lanes(alloc: Global, count: usize) -> Result<Vec<Vec<Place>>, AllocError>
    ensures count { IfOk result (λ lists. length lists.items ≡ count) }
    ensures empty { IfOk result (λ lists. EachIndex lists.items (λ k. (d : Vec Place Global) → (slice_index_or lists.items k d).items ≡ [])) }
{
    let mut lists = Vec::with_capacity(alloc, count)?;
    for _listed in 0..count {
        lists.push(Vec::new(alloc))?;
    }
    Ok(lists)
}

/// Adds the lanes of a link, `lanes` of them from 0 on, to the end of a list.
///
/// # Errors
///
/// Memory was refused; lanes added till then stay.
fn add_lanes(list: &mut Vec<Place>, link: LinkIx, lanes: LaneNo) -> Result<(), AllocError>
    ensures { OnOk result (list.new.items
        ≡ list.old.items ++ map (λ k. record { link = link; lane = k }) (range_with_len 0 lanes)) }
{
    for lane in 0..lanes {
        list.push(Place { link, lane })?;
    }
    Ok(())
}
