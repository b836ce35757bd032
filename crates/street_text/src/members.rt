//! The objects of a command, printed. `commands.rt` prints by it.
ghost use Rattle.std.specs.Prelude.{◌≡◌, IfOk, OnOk};
ghost use Rattle.serde_json.specs.View.{view, members_view};
ghost use Rattle.street_text.specs.Members.{is_absent, member_data, put_member, object_of};

use crate::lists::{Printed, list_value};
use serde_json::{Map, Value, json, put};
use std::alloc::{AllocError, Global};
use street_base::{LinkSpec, NodeSpec, PhaseSpec, TurnSpec};

/// What stands under a key of an object.
#[derive(Clone, Copy)]
pub enum Member<'a> {
    /// A number.
    Number(u64),
    /// A text.
    Text(&'a str),
    /// A list of numbers.
    Numbers(&'a [u64]),
    /// Nodes of a network.
    Nodes(&'a [NodeSpec]),
    /// Links of a network.
    Links(&'a [LinkSpec]),
    /// Turns of a network.
    Turns(&'a [TurnSpec]),
    /// Phases of a signal.
    Phases(&'a [PhaseSpec]),
    /// A number, or nothing: then there is no such key.
    Optional(Option<u64>),
}

impl Member<'_> {
    /// Whether it is a number that is not there, so that the object has no such key.
    fn is_absent(&self) -> bool
        ensures { result ≡ is_absent self.now }
    {
        matches!(self, Member::Optional(None))
    }

    /// Its JSON value; null for a number that is absent.
    fn to_value(&self, alloc: Global) -> Result<Value, AllocError>
        ensures { IfOk result (λ v. view v ≡ member_data self.now) }
    {
        match self {
            Member::Number(number) => Ok(Value::from(*number)),
            Member::Text(text) => json!(in alloc; *text),
            Member::Numbers(list) => list_value(alloc, list),
            Member::Nodes(list) => list_value(alloc, list),
            Member::Links(list) => list_value(alloc, list),
            Member::Turns(list) => list_value(alloc, list),
            Member::Phases(list) => list_value(alloc, list),
            Member::Optional(Some(number)) => Ok(Value::from(*number)),
            Member::Optional(None) => Ok(Value::Null),
        }
    }
}

/// Puts the JSON value of a member under its key into an object, if it is not absent.
///
/// # Errors
///
/// `AllocError` where there was no memory for it.
fn put_member(
    found: &mut Map<String, Value>,
    alloc: Global,
    key: &str,
    member: &Member<'_>,
) -> Result<(), AllocError>
    ensures { OnOk result (members_view found.new.entries
        ≡ put_member key.now member.now (members_view found.old.entries)) }
{
    if member.is_absent() {
        return Ok(());
    }
    put(found, alloc, key, member.to_value(alloc)?)
}

/// The JSON object of these members, each that is not absent under its key.
///
/// # Errors
///
/// `AllocError` where there was no memory for it.
pub fn object_value(alloc: Global, members: &[(&str, Member<'_>)]) -> Result<Value, AllocError>
    ensures { IfOk result (λ v. view v ≡ object_of members.now) }
{
    let mut found = Map::new(alloc);
    for (key, member) in members {
        put_member(&mut found, alloc, key, member)?;
    }
    Ok(Value::Object(found))
}
