//! Signal plans: what is green, and first faults.

use crate::nets;
use crate::nets::{link, node};
use std::alloc::{AllocError, Global};
use std::process::Abort;
use std::test::Fail;
use street_base::{GreenSpec, LinkIx, Listing, PhaseSpec, Step, Turn};
use street_net::Network;
use street_node::{SignalFault, SignalPlan};

/// Nodes 1 to 3, links 10 and 20 one after the other, and the turn between them.
fn two_links(alloc: Global) -> Result<Network, Fail> {
    let nodes = [node(1), node(2), node(3)];
    let links = [link(10, 1, 2, 10), link(20, 2, 3, 10)];
    nets::network(alloc, &nodes, &links, &[nets::turn(10, 20)])
}

/// The turn of that network, as a command names it.
const ON: GreenSpec = GreenSpec {
    link: 10,
    lane: 0,
    next: 20,
};

/// The duration of a phase, and its greens.
type Phase<'a> = (u64, &'a [GreenSpec]);

/// One phase.
fn phase_of(alloc: Global, phase: Phase<'_>) -> Result<PhaseSpec, AllocError> {
    let (duration, greens) = phase;
    Ok(PhaseSpec {
        duration,
        greens: Listing::from_vec(Vec::from_slice(alloc, greens)?),
    })
}

/// The phases of a plan.
fn phases_of(alloc: Global, phases: &[Phase<'_>]) -> Result<Vec<PhaseSpec>, AllocError> {
    let mut all = Vec::new(alloc);
    for phase in phases {
        all.push(phase_of(alloc, *phase)?)?;
    }
    Ok(all)
}

/// What becomes of a plan for a node by its identifier.
type Outcome = Result<SignalPlan, SignalFault>;

/// A plan for a node by its identifier, on a network.
fn plan_on(
    alloc: Global,
    net: &Network,
    node: u64,
    offset: u64,
    phases: &[PhaseSpec],
) -> Result<Outcome, Fail> {
    match net.node_of(node) {
        Some(node) => Ok(SignalPlan::build(alloc, net, node, offset, phases)),
        None => Err(Fail::from("the node is there")),
    }
}

/// A plan for a node by its identifier, on that network.
fn plan_of(alloc: Global, node: u64, offset: u64, phases: &[PhaseSpec]) -> Result<Outcome, Fail> {
    let net = two_links(alloc)?;
    plan_on(alloc, &net, node, offset, phases)
}

/// A plan of these phases.
fn plan(alloc: Global, node: u64, offset: u64, phases: &[Phase<'_>]) -> Result<Outcome, Fail> {
    let phases = phases_of(alloc, phases)?;
    plan_of(alloc, node, offset, phases.as_slice())
}

/// The turn of that network by the positions of its links.
fn turn() -> Turn {
    Turn {
        link: LinkIx::new(0),
        lane: 0,
        next: LinkIx::new(1),
        next_lane: 0,
    }
}

/// Whether the turn is green in each of these steps.
fn check_greens(rt: &impl Abort, plan: &SignalPlan, greens: &[(Step, bool)]) {
    for (step, is_green) in greens {
        assert!(rt;
            plan.is_green(&turn(), *step) == *is_green,
            "in step {step}"
        );
    }
}

#[test]
fn all_red(rt: HostRuntime) -> Result<(), Fail> {
    let plan = plan(rt.alloc(), 2, 0, &[(10, &[])])??;
    assert!(rt; plan.cycle() == 10);
    check_greens(&rt, &plan, &[(4, false), (1_000_000_000, false)]);
    Ok(())
}

#[test]
fn green_by_phase(rt: HostRuntime) -> Result<(), Fail> {
    let plan = plan(rt.alloc(), 2, 0, &[(5, &[]), (5, &[ON, ON])])??;
    check_greens(&rt, &plan, &[(4, false), (5, true), (9, true), (10, false)]);
    Ok(())
}

#[test]
fn green_by_offset(rt: HostRuntime) -> Result<(), Fail> {
    let plan = plan(rt.alloc(), 2, 1, &[(5, &[]), (5, &[ON, ON])])??;
    check_greens(&rt, &plan, &[(4, true), (9, false)]);
    Ok(())
}

/// Where a plan is bad.
fn fault_at(alloc: Global, node: u64, offset: u64, phases: &[Phase<'_>]) -> Result<u64, Fail> {
    match plan(alloc, node, offset, phases)?.err() {
        Some(SignalFault::Bad { at }) => Ok(at),
        _ => Err(Fail::from("no fault is told")),
    }
}

#[test]
fn finds_first_faults(rt: HostRuntime) -> Result<(), Fail> {
    let cases: [(u64, u64, &[Phase<'static>], u64); 4] = [
        (2, 0, &[], 0),
        (2, 0, &[(600, &[ON]), (601, &[])], 1),
        (3, 0, &[(1, &[ON])], 0),
        (2, 7, &[(3, &[]), (4, &[ON])], 2),
    ];
    for (node, offset, phases, at) in cases {
        assert!(rt; fault_at(rt.alloc(), node, offset, phases)? == at);
    }
    Ok(())
}
