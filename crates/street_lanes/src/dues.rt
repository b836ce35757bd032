//! From which step on the first who wait on some lanes may depart, so that departures pass over lanes on which nobody does yet.
//! `lanes.rt` keeps it for each 64 lanes; who comes to wait, departs or is taken out makes it unknown there.
ghost use Rattle.std.specs.Prelude.{◌≡◌, ℕ, ◌*◌, ◌/◌, ◌^◌, ◌<◌, ◌≤◌, length, slice_index_or, slice_set, true};
ghost use Rattle.street_lanes.specs.Prelude.{lane_of, StaysAt, IsFirstDue, AreDue};

use crate::lanes::Lanes;
use crate::lists::waiting_list;
use street_base::Step;
use street_yard::{ListKind, Yard};

/// For so many lanes together one step is kept.
const GROUP: usize = 64;

/// The step kept of a group, 0 where none is kept.
fn due_of(due: &Vec<Step>, group: usize) -> Step
    ensures { result ≡ slice_index_or due.now.items group 0 }
{
    match due.get(group) {
        Some(step) => *step,
        None => 0,
    }
}

/// Writes the step of a group, where there is such a group.
fn set_due(due: &mut Vec<Step>, group: usize, step: Step)
    ensures { due.new.items ≡ slice_set due.old.items group step }
{
    if group < due.len() {
        due[group] = step;
    }
}

/// Nothing is known any more of the lanes of this one's group.
pub(crate) fn forget(due: &mut Vec<Step>, lane: usize)
    ensures { due.new.items ≡ slice_set due.old.items (lane / 64) 0 }
{
    set_due(due, lane / GROUP, 0);
}

/// The least depart of the first who wait on the lanes from `first` on, before `end`; the greatest step where nobody waits.
fn least_depart(yard: &Yard, first: usize, end: usize) -> Step
    requires few { end < 2 ^ 32 }
    requires lists { 3 * end ≤ length yard.now.lists }
    ensures { (n : ℕ) → first ≤ n → n < end → IsFirstDue yard.now n result }
{
    let mut least = Step::MAX;
    for n in first..end {
        if let Some(key) = yard.list_front(waiting_list(n)) {
            least = least.min(yard.step(key));
        }
    }
    least
}

/// The step of each group whose step has come by the clock is found anew.
fn find_dues(yard: &Yard, due: &mut Vec<Step>, lanes: usize, clock: Step)
    requires few { lanes < 2 ^ 32 }
    requires lists { 3 * lanes ≤ length yard.now.lists }
    ensures { AreDue yard.now lanes due.old.items → AreDue yard.now lanes due.new.items }
{
    for group in 0..lanes / GROUP + 1 {
        if due_of(due, group) <= clock {
            let first = GROUP * group;
            let end = lanes.min(first + GROUP);
            let least = least_depart(yard, first, end);
            set_due(due, group, least);
        }
    }
}

/// The first lane of the next group.
fn group_end(lane: usize) -> usize
    requires { lane < 2 ^ 32 }
    ensures later { lane < result }
    ensures same { (k : ℕ) → lane ≤ k → k < result → k / 64 ≡ lane / 64 }
{
    lane / GROUP * GROUP + GROUP
}

impl Lanes {
    /// Whether it is known of a lane, by its number on the tile, and of those of its group that nobody departs by the clock.
    fn is_quiet(&self, lane: usize, clock: Step) -> bool
        ensures { result ≡ true → (k : ℕ) → k / 64 ≡ lane / 64 → k < length self.now.lanes → StaysAt clock (lane_of self.now k) }
    {
        if due_of(&self.due, lane / GROUP) > clock {
            return true;
        }
        false
    }

    /// The first lane from `lane` on, by its number on the tile, on which somebody waits who may depart by the clock, as far as is
    /// known; the count of lanes where there is none. On the lanes before it nobody departs.
    #[inline]
    pub fn next_to_depart(&self, lane: usize, clock: Step) -> usize
        requires { lane ≤ length self.now.lanes }
        ensures not_before { lane ≤ result }
        ensures within { result ≤ length self.now.lanes }
        ensures passed { (k : ℕ) → lane ≤ k → k < result → StaysAt clock (lane_of self.now k) }
    {
        let mut n = self.next_filled(ListKind::Waiting, lane);
        while n < self.len() {
            if !self.is_quiet(n, clock) {
                return n;
            }
            let end = group_end(n).min(self.len());
            n = self.next_filled(ListKind::Waiting, end);
        }
        n
    }

    /// Finds anew who may depart next, on lanes of which it was not known or has come by the clock. Contracts see nothing of it:
    /// departures look at fewer lanes then. Takes no memory.
    pub fn look_ahead(&mut self, clock: Step)
        ensures { self.new ≡ self.old }
    {
        find_dues(&self.yard, &mut self.due, self.extents.len(), clock);
    }
}
