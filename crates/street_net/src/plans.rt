//! Plans: the first bad entry, and the links by their positions. An entry is good if it is a link, and the first or one to
//! which a lane of the link before has a turn. An `enter` calls them.
ghost use Rattle.std.specs.Prelude.{◌≡◌, ◌-◌, ◌<◌, ◌≤◌, None, Some, length, IfOk, IfErr, OnOk, MatchOption, slice_index};
ghost use Rattle.street_base.specs.Prelude.{most_plan, link_of, serves, plan_fault, plan_links};
ghost use Rattle.street_net.specs.Prelude.{TellsRefusal, plan_refusal, has_turn, TellsEntry};

use crate::faults::PlanFault;
use crate::network::Network;
use std::alloc::{AllocError, Global};
use street_base::{LinkIx, MOST_PLAN, Plan};

impl Network {
    /// Whether some lane of a link has a turn to a next link, both by their positions.
    fn leads_to(&self, link: LinkIx, next: LinkIx) -> bool
        requires { link < length self.now.links }
        ensures { result ≡ has_turn self.now link next }
    {
        (0..self.lanes_of(link)).any(|lane| self.serves(link, lane, next))
    }

    /// The link of the entry at the position `at` of a plan, if the entry is good: it is a link to which a lane of the link
    /// before has a turn, and not past the most links of a plan. `before` is the link of the entry before it.
    fn later_link(&self, plan: &[u64], at: usize, before: LinkIx) -> Option<LinkIx>
        requires later { 0 < at }
        requires within { at < length plan.now }
        requires before { link_of self.now (slice_index plan.now (at - 1)) ≡ Some before }
        requires is_link { before < length self.now.links }
        ensures entry { TellsEntry self.now plan.now at result }
        ensures link { MatchOption result Unit (λ link. link_of self.now (slice_index plan.now at) ≡ Some link) }
        ensures is_link { MatchOption result Unit (λ link. link < length self.now.links) }
    {
        if at >= MOST_PLAN {
            return None;
        }
        let link = self.link_of(plan[at])?;
        self.leads_to(before, link).then_some(link)
    }

    /// The first link of a plan that has no bad entry, or else the position of the first bad one; an empty plan is bad at 0.
    /// Takes no memory.
    fn first_link(&self, plan: &[u64]) -> Result<LinkIx, u64>
        ensures link { IfOk result (λ link. link_of self.now (slice_index plan.now 0) ≡ Some link) }
        ensures is_link { IfOk result (λ link. link < length self.now.links) }
        ensures some { OnOk result (0 < length plan.now) }
        ensures faultless { OnOk result (plan_fault self.now plan.now ≡ None) }
        ensures fault { IfErr result (λ at. plan_fault self.now plan.now ≡ Some at) }
    {
        let Some(id) = plan.first() else {
            return Err(0);
        };
        let Some(first) = self.link_of(*id) else {
            return Err(0);
        };
        let mut before = first;
        for at in 1..plan.len() {
            match self.later_link(plan, at, before) {
                Some(link) => before = link,
                None => return Err(at as u64),
            }
        }
        Ok(first)
    }

    /// Why a plan of identifiers is refused to a vehicle that enters on a lane of the plan's first link, or `None` where it is
    /// not: `Bad` with the position of the first bad entry, else `Lane` where the first link has no such lane. Looks at 1,024
    /// entries at most, and takes no memory.
    pub fn plan_refusal(&self, plan: &[u64], lane: u64) -> Option<PlanFault>
        ensures { result ≡ plan_refusal self.now plan.now lane }
    {
        match self.first_link(plan) {
            Ok(first) if lane < u64::from(self.lanes_of(first)) => None,
            Ok(_) => Some(PlanFault::Lane),
            Err(at) => Some(PlanFault::Bad { at }),
        }
    }

    /// The links of a plan of identifiers that has no bad entry, by their positions. Takes memory for the plan's length.
    ///
    /// # Errors
    ///
    /// Memory was refused.
    pub fn links_of(&self, alloc: Global, plan: &[u64]) -> Result<Plan, AllocError>
        requires { plan_fault self.now plan.now ≡ None }
        ensures links { IfOk result (λ links. links ≡ plan_links self.now plan.now) }
        ensures some { IfOk result (λ links. 0 < length links) }
        ensures short { IfOk result (λ links. length links ≤ most_plan) }
    {
        let mut links = Vec::with_capacity(alloc, plan.len())?;
        for id in plan {
            if let Some(link) = self.link_of(*id) {
                links.push(link)?;
            }
        }
        Ok(Plan::from_vec(links))
    }

    /// The links of a plan of identifiers, by their positions, for a vehicle that enters on a lane of the first. Takes memory
    /// for the plan's length.
    ///
    /// # Errors
    ///
    /// What [`Network::plan_refusal`] tells; else `Starved` where memory was refused.
    pub fn check_plan(&self, alloc: Global, plan: &[u64], lane: u64) -> Result<Plan, PlanFault>
        ensures links { IfOk result (λ links. links ≡ plan_links self.now plan.now) }
        ensures some { IfOk result (λ links. 0 < length links) }
        ensures faultless { OnOk result (plan_refusal self.now plan.now lane ≡ None) }
        ensures fault { IfErr result (TellsRefusal (plan_refusal self.now plan.now lane)) }
    {
        match self.plan_refusal(plan, lane) {
            Some(fault) => Err(fault),
            None => Ok(self.links_of(alloc, plan)?),
        }
    }
}
