//! The signal plan of a node, looked up where it is asked for. Motion looks its plan up once for each lane.
ghost use Rattle.std.specs.Prelude.{◌≡◌, ◌<◌, length, None, slice_index_or, option_copied};

use crate::plan::SignalPlan;
use std::marker::Model;

/// The signal plan of one of some nodes, if that has one: their plans, and its position among them. It is looked up where it is
/// asked for: of most lanes a step asks nothing. Contracts see the plan.
#[derive(Drop)]
pub struct Signal<'a> {
    plans: &'a [Option<SignalPlan>],
    node: usize,
}

impl<'a> Model for Signal<'a> {
    ghost use Rattle.std.specs.Prelude.{◌<◌, length, Option, None, slice_index_or};
    ghost use Rattle.street_base.specs.Prelude.{SignalPlan as Plan};

    ghost Value = { Option Plan };

    ghost view = { λ s. slice_index_or s.plans.now s.node None };

    ghost invariant = { λ s. s.node < length s.plans.now };
}

impl<'a> Signal<'a> {
    /// The signal of the node at the position `node` among those whose plans these are.
    pub fn new(plans: &'a [Option<SignalPlan>], node: usize) -> Signal<'a>
        requires { node < length plans.now }
        ensures { result ≡ slice_index_or plans.now node None }
    {
        Signal { plans, node }
    }

    /// The node's plan, if it has one; a node without one shows every turn green.
    pub fn plan(&self) -> Option<&'a SignalPlan>
        ensures { option_copied result ≡ self.now }
    {
        self.plans[self.node].as_ref()
    }
}
