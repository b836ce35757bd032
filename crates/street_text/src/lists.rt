//! The values in the lists of a command: numbers, and rows of numbers, as those of a node, a link or a phase.
//! `members.rt` calls this for each member of a command that is a list, and `commands.rt` prints by `members.rt`.
ghost use Rattle.std.specs.Prelude.{◌≡◌, IfOk};
ghost use Rattle.serde_json.specs.Data.{Data, array};
ghost use Rattle.serde_json.specs.View.{view};
ghost use Rattle.street_text.specs.ReplyLines.{items_from, number_data, node_data, link_data, turn_data, green_data, phase_data};

use serde_json::{Value, json};
use std::alloc::{AllocError, Global};
use street_base::{GreenSpec, LinkSpec, NodeSpec, PhaseSpec, TurnSpec};

/// What stands in a list of a command: a number; of a node, a link, a turn or a green turn the list of its fields, in the
/// order in which its type has them; of a phase its duration and the list of its green turns.
pub trait Printed {
    ghost prints: { Self → Data };

    /// Its JSON value.
    ///
    /// # Errors
    ///
    /// `AllocError` where there was no memory for it.
    fn to_value(&self, alloc: Global) -> Result<Value, AllocError>
        ensures { IfOk result (λ v. view v ≡ prints self.now) };
}

/// The JSON list of these entries, in order.
///
/// # Errors
///
/// `AllocError` where there was no memory for it.
#[tactic(auto, using(crate::proofs::Items::one_more_item, crate::proofs::Items::before_end))]
pub fn list_value<T: Printed>(alloc: Global, list: &[T]) -> Result<Value, AllocError>
    ensures { IfOk result (λ v. view v ≡ array (items_from T.prints list.now)) }
{
    let mut items = Vec::new(alloc);
    for entry in list {
        items.push(entry.to_value(alloc)?)?;
    }
    Ok(Value::Array(items))
}

/// The number itself.
impl Printed for u64 {
    ghost prints = { number_data };

    /// A JSON number.
    fn to_value(&self, _alloc: Global) -> Result<Value, AllocError> {
        Ok(Value::from(*self))
    }
}

/// [id, residence, capacity].
impl Printed for NodeSpec {
    ghost prints = { node_data };

    /// A JSON list of its fields, in this order.
    fn to_value(&self, alloc: Global) -> Result<Value, AllocError> {
        list_value(alloc, &[self.id, self.residence, self.capacity])
    }
}

/// [id, from, to, lanes, length, limit]: nodes by identifier, the length in cells, the limit in cells a step.
impl Printed for LinkSpec {
    ghost prints = { link_data };

    /// A JSON list of its fields, in this order.
    fn to_value(&self, alloc: Global) -> Result<Value, AllocError> {
        list_value(
            alloc,
            &[
                self.id,
                self.from,
                self.to,
                self.lanes,
                self.length,
                self.limit,
            ],
        )
    }
}

/// [link, lane, next, next_lane]: links by identifier, lanes by number.
impl Printed for TurnSpec {
    ghost prints = { turn_data };

    /// A JSON list of its fields, in this order.
    fn to_value(&self, alloc: Global) -> Result<Value, AllocError> {
        list_value(alloc, &[self.link, self.lane, self.next, self.next_lane])
    }
}

/// [link, lane, next]: links by identifier, the lane by number.
impl Printed for GreenSpec {
    ghost prints = { green_data };

    /// A JSON list of its fields, in this order.
    fn to_value(&self, alloc: Global) -> Result<Value, AllocError> {
        list_value(alloc, &[self.link, self.lane, self.next])
    }
}

/// [duration, greens]: steps, and the list of green turns.
impl Printed for PhaseSpec {
    ghost prints = { phase_data };

    /// A JSON list of its fields, in this order.
    fn to_value(&self, alloc: Global) -> Result<Value, AllocError> {
        let greens = list_value(alloc, self.greens.as_slice())?;
        json!(in alloc; [self.duration, greens])
    }
}
