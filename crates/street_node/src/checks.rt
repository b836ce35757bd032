//! Which part of a signal plan for a node is bad, if one is. The node is told by its identifier. `plan.rt` calls it before it
//! makes a plan.
ghost use Rattle.std.specs.Prelude.{◌≡◌, ◌*◌, ◌≤◌, None, length, sum_by};
ghost use Rattle.std.specs.List.{list_all};
ghost use Rattle.street_base.specs.Prelude.{most_phases, most_duration, first_bad, is_turn_to, is_bad_phase, signal_fault};

use street_base::{
    GreenSpec, LaneNo, MOST_DURATION, MOST_GREENS, MOST_LANES, MOST_PHASES, PhaseSpec,
};
use street_net::Network;

/// Whether this, with its links by identifiers, is a turn of the network, and the link that it leaves runs to the node with the
/// identifier `node`.
fn is_turn_to(net: &Network, node: u64, green: &GreenSpec) -> bool
    ensures { result ≡ is_turn_to net.now node green.now }
{
    let links = net.spec().links.as_slice();
    let Some(link) = net.link_of(green.link) else {
        return false;
    };
    let Some(next) = net.link_of(green.next) else {
        return false;
    };
    if green.lane >= MOST_LANES {
        return false;
    }
    if !net.serves(link, green.lane as LaneNo, next) {
        return false;
    }
    links[link.position()].to == node
}

/// Whether all these are turns of the network, and the links that they leave run to the node with the identifier `node`.
fn are_turns_to(net: &Network, node: u64, greens: &[GreenSpec]) -> bool
    ensures { result ≡ list_all (is_turn_to net.now node) greens.now }
{
    for green in greens {
        if !is_turn_to(net, node, green) {
            return false;
        }
    }
    true
}

/// Whether the phase at the position `at` of a plan for the node with the identifier `node` is bad: `at` is past the most
/// phases, its duration is out of range, it has too many green turns, or one of them is no turn to the node.
fn is_bad_phase(net: &Network, node: u64, at: usize, phase: &PhaseSpec) -> bool
    ensures { result ≡ is_bad_phase net.now node at phase.now }
{
    let greens = phase.greens.as_slice();
    let lasts = 1 <= phase.duration && phase.duration <= MOST_DURATION;
    at >= MOST_PHASES || !lasts || greens.len() > MOST_GREENS || !are_turns_to(net, node, greens)
}

/// The position of the first bad phase of a plan for the node with the identifier `node`, if one is bad.
fn phases_fault(net: &Network, node: u64, phases: &[PhaseSpec]) -> Option<u64>
    ensures { result ≡ first_bad (is_bad_phase net.now node) phases.now }
{
    for (at, phase) in phases.iter().enumerate() {
        if is_bad_phase(net, node, at, phase) {
            return Some(at as u64);
        }
    }
    None
}

/// How long phases last together, in steps. None of them is bad, so that the sum is small. `net` and `node` are for the
/// contract alone.
pub(crate) fn cycle_of(net: &Network, node: u64, phases: &[PhaseSpec]) -> u64
    requires { first_bad (is_bad_phase net.now node) phases.now ≡ None }
    ensures cycle { result ≡ sum_by (λ p. p.duration) phases.now }
    ensures small { result ≤ most_duration * length phases.now }
    ensures few { length phases.now ≤ most_phases }
{
    let mut cycle = 0;
    for phase in phases {
        cycle += phase.duration;
    }
    cycle
}

/// The first fault of a signal plan for the node with the identifier `node`, if it has one: the position of a bad phase, or the
/// number of phases for a bad offset, which is not below the cycle; both are in steps. A plan of no phases is bad at 0.
pub(crate) fn signal_fault(
    net: &Network,
    node: u64,
    offset: u64,
    phases: &[PhaseSpec],
) -> Option<u64>
    ensures { result ≡ signal_fault net.now node offset phases.now }
{
    if phases.is_empty() {
        return Some(0);
    }
    if let Some(at) = phases_fault(net, node, phases) {
        return Some(at);
    }
    if offset < cycle_of(net, node, phases) {
        None
    } else {
        Some(phases.len() as u64)
    }
}
