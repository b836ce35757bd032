//! Signal plans with fixed times: how one is made of the phases of a command, and which turns it shows green. A `signal`
//! command has it made, and motion asks it.
ghost use Rattle.std.specs.Prelude.{◌≡◌, ◌<◌, true, length, map, None, Some, IfOk, IfErr, OnOk};
ghost use Rattle.std.specs.List.{list_all};
ghost use Rattle.street_base.specs.declared.names.Place.{Place};
ghost use Rattle.street_base.specs.Prelude.{network_fault, signal_fault, first_bad, is_bad_phase, is_turn_to, plan_of, green_of, position_of, is_green, cycle};
ghost use Rattle.street_node.specs.Prelude.{ShowsAs, TellsSignalFault, node_id, green_seen, shown, AreSamePhases};

use crate::checks::{cycle_of, signal_fault};
use crate::faults::SignalFault;
use crate::phase::{GreenTurn, KeptPhase};
use std::alloc::{AllocError, Global};
use std::marker::Model;
use street_base::{GreenSpec, LaneNo, LinkIx, NodeIx, PhaseSpec, Step, Turn};
use street_net::Network;

/// The signal plan of a node: phases one after another, again and again. All times are in steps; the time in the cycle in step s
/// is `(s + offset) % cycle`.
#[derive(Drop)]
pub struct SignalPlan {
    offset: Step,
    cycle: Step,
    phases: Vec<KeptPhase>,
}

impl Model for SignalPlan {
    ghost use Rattle.street_base.specs.Prelude.{SignalPlan as Plan};

    ghost Value = { Plan };

    ghost use Rattle.street_node.specs.Prelude.{plan_seen, IsCycle};

    ghost view = { λ p. plan_seen p.offset p.phases.items };

    ghost invariant = { λ p. IsCycle p.offset p.cycle p.phases.items };
}

impl SignalPlan {
    /// Checks a plan for a node, and makes it where nothing is bad. `offset` and the durations of the phases are in steps: in
    /// step s the time in the cycle is `(s + offset) % cycle`.
    ///
    /// # Errors
    ///
    /// `Bad` with the position of the first bad phase, or with the number of phases for a bad offset; a plan of no phases is bad
    /// at 0. `Starved` where nothing is bad and memory was refused.
    pub fn build(
        alloc: Global,
        net: &Network,
        node: NodeIx,
        offset: u64,
        phases: &[PhaseSpec],
    ) -> Result<SignalPlan, SignalFault>
        requires { node < length net.now.nodes }
        ensures plan { IfOk result (λ plan. ShowsAs plan (plan_of net.now offset phases.now)) }
        ensures faultless { OnOk result (signal_fault net.now (node_id net.now node) offset phases.now ≡ None) }
        ensures fault { IfErr result (TellsSignalFault (signal_fault net.now (node_id net.now node) offset phases.now)) }
    {
        let id = net.spec().nodes.as_slice()[node.position()].id;
        if let Some(at) = signal_fault(net, id, offset, phases) {
            return Err(SignalFault::Bad { at });
        }
        let cycle = cycle_of(net, id, phases);
        let phases = kept_phases(alloc, net, id, phases)?;
        Ok(SignalPlan {
            offset: offset as Step,
            cycle: cycle as Step,
            phases,
        })
    }

    /// How long all phases last together, in steps.
    pub fn cycle(&self) -> Step
        ensures { result ≡ cycle self.now }
    {
        self.cycle
    }

    /// Whether a turn is green in a step: the phase of that step shows it green.
    pub fn is_green(&self, turn: &Turn, step: Step) -> bool
        ensures { let place : Place = record { link = turn.now.link; lane = turn.now.lane } in
            result ≡ is_green (Some self.now) place turn.now.next step }
    {
        let time = (u64::from(step) + u64::from(self.offset)) % u64::from(self.cycle);
        phase_shows(&self.phases, time, turn)
    }
}

/// Whether the phase at a time of the cycle, in steps, shows a turn green; no turn is green past the last phase.
fn phase_shows(phases: &[KeptPhase], time: u64, turn: &Turn) -> bool
    ensures { let place : Place = record { link = turn.now.link; lane = turn.now.lane } in
        result ≡ shown place turn.now.next phases.now time }
{
    let mut rest = time;
    for phase in phases {
        let duration = u64::from(phase.duration());
        if rest < duration {
            return phase.shows(turn);
        }
        rest -= duration;
    }
    false
}

/// These phases, as they are kept. None is bad for the node with the identifier `node`, which is for the contract alone.
///
/// # Errors
///
/// Memory was refused.
fn kept_phases(
    alloc: Global,
    net: &Network,
    node: u64,
    phases: &[PhaseSpec],
) -> Result<Vec<KeptPhase>, AllocError>
    requires good { first_bad (is_bad_phase net.now node) phases.now ≡ None }
    requires faultless { network_fault net.now ≡ None }
    ensures count { IfOk result (λ kept. length kept.items ≡ length phases.now) }
    ensures same { IfOk result (λ kept. AreSamePhases net.now phases.now kept.items) }
{
    let mut kept = Vec::with_capacity(alloc, phases.len())?;
    for phase in phases {
        let greens = green_turns(alloc, net, node, phase.greens.as_slice())?;
        kept.push(KeptPhase::new(phase.duration as Step, greens))?;
    }
    Ok(kept)
}

/// The green turns of a phase, with their links by position in place of identifier, in the order of the command. Each is a turn to the node with the identifier `node`, which is for the
/// contract alone.
///
/// # Errors
///
/// Memory was refused.
fn green_turns(
    alloc: Global,
    net: &Network,
    node: u64,
    greens: &[GreenSpec],
) -> Result<Vec<GreenTurn>, AllocError>
    requires good { list_all (is_turn_to net.now node) greens.now ≡ true }
    requires faultless { network_fault net.now ≡ None }
    ensures { IfOk result (λ turns. map green_seen turns.items ≡ map (green_of net.now) greens.now) }
{
    let mut turns = Vec::with_capacity(alloc, greens.len())?;
    for green in greens {
        turns.push(GreenTurn {
            link: position_of(net, green.link),
            next: position_of(net, green.next),
            lane: green.lane as LaneNo,
        })?;
    }
    Ok(turns)
}

/// The position of the link with an identifier; 0 where there is none, which a signal plan without a fault never
/// names.
fn position_of(net: &Network, id: u64) -> LinkIx
    ensures { result ≡ position_of net.now id }
{
    net.link_of(id).unwrap_or(LinkIx::new(0))
}
