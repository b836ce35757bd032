//! From a JSON value to the numbers, rows and lists that stand in it. `line_commands.rt` and `lookup.rt` read by it.
ghost use Rattle.std.specs.Prelude.{◌≡◌, Option};
ghost use Rattle.serde_json.specs.Data.{Data};
ghost use Rattle.serde_json.specs.View.{view};
ghost use Rattle.street_text.specs.LineCommands.{number_in, list_in, row_in, node_in, link_in, turn_in, green_in, phase_in, field, number_or, or_fault, Gives};

use crate::fault::LineFault;
use serde_json::Value;
use std::alloc::Global;
use street_base::{GreenSpec, LinkSpec, Listing, NodeSpec, PhaseSpec, TurnSpec};

/// What stands at a place of a value.
pub(crate) trait FromValue {
    ghost entry: { Data → Option Self };

    /// What the value says.
    ///
    /// # Errors
    ///
    /// `BadCommand` where it is of another kind; `Starved` where there was no memory for its lists.
    fn of_value(alloc: Global, value: &Value) -> Result<Self, LineFault>
        ensures { Gives result (or_fault LineFault.BadCommand (entry (view value.now))) };
}

/// A whole number below 2^64.
impl FromValue for u64 {
    ghost entry = { number_in };

    /// The number that the value is. Takes no memory.
    fn of_value(_alloc: Global, value: &Value) -> Result<u64, LineFault> {
        value.as_u64().ok_or(LineFault::BadCommand)
    }
}

/// A list of such entries.
impl<T: FromValue + Drop> FromValue for Listing<T> {
    ghost entry = { list_in T.entry };

    /// The list whose entries the value has, in order.
    fn of_value(alloc: Global, value: &Value) -> Result<Listing<T>, LineFault> {
        let list = value.as_array().ok_or(LineFault::BadCommand)?;
        // As long as it will be: a journal keeps it.
        let Ok(mut found) = Vec::with_capacity(alloc, list.len()) else {
            return Err(LineFault::Starved);
        };
        for item in list {
            let entry = T::of_value(alloc, item)?;
            if found.push(entry).is_err() {
                return Err(LineFault::Starved);
            }
        }
        Ok(Listing::from_vec(found))
    }
}

/// The numbers of a list that has exactly `N`, each below 2^64; none for any other value.
#[tactic(auto, unfolding(crate::specs::LineCommands::row_in))]
fn row<const N: usize>(value: &Value) -> Option<[u64; N]>
    ensures { result ≡ row_in N (view value.now) }
{
    let list = value.as_array()?;
    if list.len() != N {
        return None;
    }
    let mut row = [0u64; N];
    for (i, item) in list.iter().enumerate() {
        row[i] = item.as_u64()?;
    }
    Some(row)
}

/// [id, residence, capacity].
#[tactic(auto, unfolding(crate::specs::LineCommands::node_in))]
impl FromValue for NodeSpec {
    ghost entry = { node_in };

    /// The node of a list of these three numbers. Takes no memory.
    fn of_value(_alloc: Global, value: &Value) -> Result<NodeSpec, LineFault> {
        let [id, residence, capacity] = row::<3>(value).ok_or(LineFault::BadCommand)?;
        Ok(NodeSpec {
            id,
            residence,
            capacity,
        })
    }
}

/// [id, from, to, lanes, length, limit]: nodes by identifier, the length in cells, the limit in cells a step.
#[tactic(auto, unfolding(crate::specs::LineCommands::link_in))]
impl FromValue for LinkSpec {
    ghost entry = { link_in };

    /// The link of a list of these six numbers. Takes no memory.
    fn of_value(_alloc: Global, value: &Value) -> Result<LinkSpec, LineFault> {
        let [id, from, to, lanes, length, limit] = row::<6>(value).ok_or(LineFault::BadCommand)?;
        Ok(LinkSpec {
            id,
            from,
            to,
            lanes,
            length,
            limit,
        })
    }
}

/// [link, lane, next, next_lane]: links by identifier, lanes by number.
#[tactic(auto, unfolding(crate::specs::LineCommands::turn_in))]
impl FromValue for TurnSpec {
    ghost entry = { turn_in };

    /// The turn of a list of these four numbers. Takes no memory.
    fn of_value(_alloc: Global, value: &Value) -> Result<TurnSpec, LineFault> {
        let [link, lane, next, next_lane] = row::<4>(value).ok_or(LineFault::BadCommand)?;
        Ok(TurnSpec {
            link,
            lane,
            next,
            next_lane,
        })
    }
}

/// [link, lane, next]: links by identifier, the lane by number.
#[tactic(auto, unfolding(crate::specs::LineCommands::green_in))]
impl FromValue for GreenSpec {
    ghost entry = { green_in };

    /// The green turn of a list of these three numbers. Takes no memory.
    fn of_value(_alloc: Global, value: &Value) -> Result<GreenSpec, LineFault> {
        let [link, lane, next] = row::<3>(value).ok_or(LineFault::BadCommand)?;
        Ok(GreenSpec { link, lane, next })
    }
}

/// [duration, greens]: steps, and the list of green turns.
#[tactic(auto, unfolding(crate::specs::LineCommands::phase_in))]
impl FromValue for PhaseSpec {
    ghost entry = { phase_in };

    /// The phase of a list of these two.
    fn of_value(alloc: Global, value: &Value) -> Result<PhaseSpec, LineFault> {
        let list = value.as_array().ok_or(LineFault::BadCommand)?;
        if list.len() != 2 {
            return Err(LineFault::BadCommand);
        }
        let duration = list[0].as_u64().ok_or(LineFault::BadCommand)?;
        let greens = Listing::of_value(alloc, &list[1])?;
        Ok(PhaseSpec { duration, greens })
    }
}

/// What stands in the field of this name of a JSON object.
///
/// # Errors
///
/// `BadCommand` where there is no such field, or anything else stands in it; `Starved` where there was no memory for its lists.
pub(crate) fn field_of<T: FromValue>(
    alloc: Global,
    value: &Value,
    name: &str,
) -> Result<T, LineFault>
    ensures { Gives result (or_fault LineFault.BadCommand (field T.entry name.now (view value.now))) }
{
    let found = value.get(name).ok_or(LineFault::BadCommand)?;
    T::of_value(alloc, found)
}

/// The number that stands in the field of this name of a JSON object, below 2^64, and `absent` where there is no such field.
///
/// # Errors
///
/// `BadCommand` where anything else stands in it.
pub(crate) fn number_or(value: &Value, name: &str, absent: u64) -> Result<u64, LineFault>
    ensures { Gives result (or_fault LineFault.BadCommand (number_or absent name.now (view value.now))) }
{
    match value.get(name) {
        Some(found) => found.as_u64().ok_or(LineFault::BadCommand),
        None => Ok(absent),
    }
}
