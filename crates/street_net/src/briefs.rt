//! What a step asks of a link, in a table of its own. `network.rt` makes them, and answers by them what motion and lane changes
//! ask of a link.
ghost use Rattle.std.specs.Prelude.{◌≡◌, None, IfOk};
ghost use Rattle.street_base.specs.Prelude.{network_fault};
ghost use Rattle.street_net.specs.Prelude.{ids_of_nodes, AreBriefs};

use crate::keys::find_node;
use indexmap::IndexSet;
use std::alloc::{AllocError, Global};
use street_base::{CellNo, LaneNo, NetSpec, NodeIx, Speed};

/// What a step asks of a link.
#[derive(Clone, Copy)]
pub(crate) struct Brief {
    pub(crate) length: CellNo,
    /// The node that it runs to.
    pub(crate) end: NodeIx,
    pub(crate) lanes: LaneNo,
    pub(crate) limit: Speed,
}

// A step asks of every link: the table of the most links fits a nearer cache, where their `LinkSpec`s do not.
const _: () = prove!(size_of::<Brief>() == 8);

/// For each link, in the order of the load, what a step asks of it. `nodes` are the identifiers of the nodes, in their order.
///
/// # Errors
///
/// Memory was refused.
pub(crate) fn briefs_of_links(
    alloc: Global,
    spec: &NetSpec,
    nodes: &IndexSet<u64>,
) -> Result<Vec<Brief>, AllocError>
    requires faultless { network_fault spec.now ≡ None }
    requires listed { nodes.now.keys ≡ ids_of_nodes spec.now.nodes }
    ensures { IfOk result (λ briefs. AreBriefs spec.now briefs.items) }
{
    let links = spec.links.as_slice();
    let mut briefs = Vec::with_capacity(alloc, links.len())?;
    for link in links {
        let end = find_node(spec, nodes, link.to).unwrap();
        briefs.push(Brief {
            length: link.length as CellNo,
            end: NodeIx::new(end as u16),
            lanes: link.lanes as LaneNo,
            limit: link.limit as Speed,
        })?;
    }
    Ok(briefs)
}
