//! The parts of a load, each read once. `network.rt` calls them, one after another.
ghost use Rattle.std.specs.Prelude.{◌≡◌, None, IfOk, IfErr, OnOk};
ghost use Rattle.street_base.specs.Prelude.{in_part, nodes_fault, links_fault, turns_fault, values_fault};
ghost use Rattle.street_base.specs.declared.refusal.Part.TheVariants.{Nodes, Links, Turns, Values};
ghost use Rattle.street_net.specs.Prelude.{ids_of_nodes, ids_of_links, TellsFault};

use crate::entries::{is_bad_link, is_bad_node, is_bad_turn};
use crate::faults::NetFault;
use crate::keys::turn_key;
use indexmap::IndexSet;
use std::alloc::Global;
use street_base::{
    LAST_CLOCK, MOST_CHANGE, MOST_DAWDLE, MOST_LINKS, MOST_NODES, MOST_TURNS, MOST_ZONE, NetSpec,
    Part,
};

/// Checks the nodes of a load, and answers their identifiers, in their order.
///
/// # Errors
///
/// `Bad` with the first fault among the nodes. `Starved` where memory was refused.
pub(crate) fn read_nodes(alloc: Global, spec: &NetSpec) -> Result<IndexSet<u64>, NetFault>
    ensures keys { IfOk result (λ ids. ids.keys ≡ ids_of_nodes spec.now.nodes) }
    ensures faultless { OnOk result (nodes_fault spec.now ≡ None) }
    ensures fault { IfErr result (TellsFault (in_part Nodes (nodes_fault spec.now))) }
{
    let nodes = spec.nodes.as_slice();
    if nodes.is_empty() {
        return Err(NetFault::Bad {
            part: Part::Nodes,
            at: 0,
        });
    }
    let mut ids = IndexSet::with_capacity(alloc, nodes.len().min(MOST_NODES))?;
    for (at, node) in nodes.iter().enumerate() {
        if is_bad_node(spec, &ids, at, node) {
            return Err(NetFault::Bad {
                part: Part::Nodes,
                at: at as u64,
            });
        }
        ids.insert(node.id)?;
    }
    Ok(ids)
}

/// Checks the links of a load, and answers their identifiers, in their order. `nodes` are the identifiers of all nodes.
///
/// # Errors
///
/// `Bad` with the first fault among the links. `Starved` where memory was refused.
pub(crate) fn read_links(
    alloc: Global,
    spec: &NetSpec,
    nodes: &IndexSet<u64>,
) -> Result<IndexSet<u64>, NetFault>
    requires { nodes.now.keys ≡ ids_of_nodes spec.now.nodes }
    ensures keys { IfOk result (λ ids. ids.keys ≡ ids_of_links spec.now.links) }
    ensures faultless { OnOk result (links_fault spec.now ≡ None) }
    ensures fault { IfErr result (TellsFault (in_part Links (links_fault spec.now))) }
{
    let links = spec.links.as_slice();
    let mut ids = IndexSet::with_capacity(alloc, links.len().min(MOST_LINKS))?;
    for (at, link) in links.iter().enumerate() {
        if is_bad_link(spec, nodes, &ids, at, link) {
            return Err(NetFault::Bad {
                part: Part::Links,
                at: at as u64,
            });
        }
        ids.insert(link.id)?;
    }
    Ok(ids)
}

/// Checks the turns of a load. `links` are the identifiers of all links.
///
/// # Errors
///
/// `Bad` with the first fault among the turns. `Starved` where memory was refused.
pub(crate) fn read_turns(
    alloc: Global,
    spec: &NetSpec,
    links: &IndexSet<u64>,
) -> Result<(), NetFault>
    requires { links.now.keys ≡ ids_of_links spec.now.links }
    ensures faultless { OnOk result (turns_fault spec.now ≡ None) }
    ensures fault { IfErr result (TellsFault (in_part Turns (turns_fault spec.now))) }
{
    let turns = spec.turns.as_slice();
    let mut seen = IndexSet::with_capacity(alloc, turns.len().min(MOST_TURNS))?;
    for (at, turn) in turns.iter().enumerate() {
        if is_bad_turn(spec, links, &seen, at, turn) {
            return Err(NetFault::Bad {
                part: Part::Turns,
                at: at as u64,
            });
        }
        seen.insert(turn_key(turn))?;
    }
    Ok(())
}

/// Checks the values of a load: zone, dawdle, change and start.
///
/// # Errors
///
/// `Bad` with the first fault among the values.
pub(crate) fn read_values(spec: &NetSpec) -> Result<(), NetFault>
    ensures faultless { OnOk result (values_fault spec.now ≡ None) }
    ensures fault { IfErr result (TellsFault (in_part Values (values_fault spec.now))) }
{
    match values_fault(spec) {
        Some(at) => Err(NetFault::Bad {
            part: Part::Values,
            at,
        }),
        None => Ok(()),
    }
}

/// The position of the first bad value of a load: zone is 0, dawdle 1, change 2, start 3. `None` where all are in their ranges.
fn values_fault(spec: &NetSpec) -> Option<u64>
    ensures { result ≡ values_fault spec.now }
{
    if spec.zone > MOST_ZONE {
        Some(0)
    } else if spec.dawdle > MOST_DAWDLE {
        Some(1)
    } else if spec.change > MOST_CHANGE {
        Some(2)
    } else if spec.start > u64::from(LAST_CLOCK) {
        Some(3)
    } else {
        None
    }
}
