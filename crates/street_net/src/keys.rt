//! Look-ups of entries by their keys. `network.rt` and `entries.rt` call them.
ghost use Rattle.std.specs.Prelude.{◌≡◌, ◌==◌, take, option_copied};
ghost use Rattle.std.specs.List.{list_any};
ghost use Rattle.street_base.specs.Prelude.{node_of, link_of, is_same_turn, link_with};
ghost use Rattle.street_net.specs.Prelude.{ids_of_nodes, ids_of_links, turn_key, keys_of_turns};

use indexmap::IndexSet;
use street_base::{LinkSpec, NetSpec, TurnSpec};

/// What tells a turn from others: its link, its lane and its next link.
pub(crate) type TurnKey = (u64, u64, u64);

/// What tells a turn from others: the identifier of its link, its lane, and the identifier of its next link.
pub(crate) fn turn_key(turn: &TurnSpec) -> TurnKey
    ensures { result ≡ turn_key turn.now }
{
    (turn.link, turn.lane, turn.next)
}

/// The position in the load of the node with an identifier, if one has it. `ids` are the identifiers of all nodes, in their
/// order.
pub(crate) fn find_node(spec: &NetSpec, ids: &IndexSet<u64>, id: u64) -> Option<usize>
    requires { ids.now.keys ≡ ids_of_nodes spec.now.nodes }
    ensures { result ≡ node_of spec.now id }
{
    ids.get_index_of(&id)
}

/// The position in the load of the link with an identifier, if one has it. `ids` are the identifiers of all links, in their
/// order.
pub(crate) fn find_link(spec: &NetSpec, ids: &IndexSet<u64>, id: u64) -> Option<usize>
    requires { ids.now.keys ≡ ids_of_links spec.now.links }
    ensures { result ≡ link_of spec.now id }
{
    ids.get_index_of(&id)
}

/// The link with an identifier, as it was loaded, if one has it. `ids` are the identifiers of all links, in their order.
pub(crate) fn link_with<'a>(spec: &'a NetSpec, ids: &IndexSet<u64>, id: u64) -> Option<&'a LinkSpec>
    requires { ids.now.keys ≡ ids_of_links spec.now.links }
    ensures { option_copied result ≡ link_with spec.now id }
{
    let position = find_link(spec, ids, id)?;
    spec.links.as_slice().get(position)
}

/// Whether a node before the position `at` of the load has the identifier `id`. `seen` are the identifiers of the nodes before
/// it.
pub(crate) fn is_repeated_node(spec: &NetSpec, seen: &IndexSet<u64>, at: usize, id: u64) -> bool
    requires { seen.now.keys ≡ ids_of_nodes (take at spec.now.nodes) }
    ensures { result ≡ list_any (λ node. node.id == id) (take at spec.now.nodes) }
{
    seen.contains(&id)
}

/// Whether a link before the position `at` of the load has the identifier `id`. `seen` are the identifiers of the links before
/// it.
pub(crate) fn is_repeated_link(spec: &NetSpec, seen: &IndexSet<u64>, at: usize, id: u64) -> bool
    requires { seen.now.keys ≡ ids_of_links (take at spec.now.links) }
    ensures { result ≡ list_any (λ link. link.id == id) (take at spec.now.links) }
{
    seen.contains(&id)
}

/// Whether a turn before the position `at` of the load leads from the same lane to the same next link. `seen` are the keys of
/// the turns before it.
pub(crate) fn is_repeated_turn(
    spec: &NetSpec,
    seen: &IndexSet<TurnKey>,
    at: usize,
    turn: &TurnSpec,
) -> bool
    requires { seen.now.keys ≡ keys_of_turns (take at spec.now.turns) }
    ensures { result ≡ list_any (is_same_turn turn.now) (take at spec.now.turns) }
{
    seen.contains(&turn_key(turn))
}
