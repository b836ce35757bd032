//! The objects of a reply, printed straight into bytes. `replies.rt` and `errors.rt` print by it.
ghost use Rattle.std.specs.Prelude.{◌≡◌, IfOk, OnOk};
ghost use Rattle.serde_json.specs.Data.{object};
ghost use Rattle.street_text.specs.Tokens.{tokens_of, Adds, field_data, field_tokens, is_left_out, members_of};
ghost use Rattle.street_text.specs.ReplyLines.{line_of};

use crate::rows::{Row, write_list};
use json::Writer;
use std::alloc::{AllocError, Global};
use street_base::{BufferEntry, CellEntry, MeterRow, RunningRow, Starved, Stretch, WaitingEntry};

/// What stands under a key of a reply.
#[derive(Clone, Copy)]
pub enum Field<'a> {
    /// A number.
    Number(u64),
    /// A text.
    Text(&'a str),
    /// Whether something is so.
    Flag(bool),
    /// A list of numbers.
    Numbers(&'a [u64]),
    /// The running row of a detector.
    Running(&'a RunningRow),
    /// The rows of a detector.
    Rows(&'a [MeterRow]),
    /// Who is in a buffer.
    Buffer(&'a [BufferEntry]),
    /// Who is in the cells of a lane.
    Cells(&'a [CellEntry]),
    /// Stretches of a lane.
    Stretches(&'a [Stretch]),
    /// Who waits for a lane.
    Waiting(&'a [WaitingEntry]),
    /// A number, or nothing: then there is no such key.
    Optional(Option<u64>),
}

impl Field<'_> {
    /// Whether it is a number that is not there, so that the object has no such key.
    fn is_left_out(&self) -> bool
        ensures { result ≡ is_left_out self.now }
    {
        matches!(self, Field::Optional(None))
    }

    /// Writes the JSON value of the field behind what `out` has. For an optional number that is not there, which callers leave out,
    /// it would be null.
    fn write(&self, out: &mut Writer) -> Result<(), AllocError>
        ensures { OnOk result (Adds (tokens_of (field_data self.now)) out.old out.new) }
    {
        match self {
            Field::Number(number) => number.write(out),
            Field::Text(text) => out.string(text),
            Field::Flag(holds) => out.boolean(*holds),
            Field::Numbers(list) => write_list(list, out),
            Field::Running(row) => row.write(out),
            Field::Rows(list) => write_list(list, out),
            Field::Buffer(list) => write_list(list, out),
            Field::Cells(list) => write_list(list, out),
            Field::Stretches(list) => write_list(list, out),
            Field::Waiting(list) => write_list(list, out),
            Field::Optional(Some(number)) => number.write(out),
            Field::Optional(None) => out.null(),
        }
    }
}

/// Writes a field under its key behind what `out` has, if it is not left out.
fn write_field(key: &str, field: &Field<'_>, out: &mut Writer) -> Result<(), AllocError>
    ensures { OnOk result (Adds (field_tokens key.now field.now) out.old out.new) }
{
    if field.is_left_out() {
        return Ok(());
    }
    out.key(key)?;
    field.write(out)
}

/// Writes the JSON object of these fields, in their order, without those that are left out, behind what `out` has.
fn write_object(fields: &[(&str, Field<'_>)], out: &mut Writer) -> Result<(), AllocError>
    ensures { OnOk result (Adds (tokens_of (object (members_of fields.now))) out.old out.new) }
{
    out.begin_object()?;
    for (key, field) in fields {
        write_field(key, field, out)?;
    }
    out.end_object()
}

/// The line of the JSON object of these fields, in their order, without those that are left out, with its LF.
///
/// # Errors
///
/// `Starved` where there was no memory for it.
pub fn object_line(alloc: Global, fields: &[(&str, Field<'_>)]) -> Result<Vec<u8>, Starved>
    ensures { IfOk result (λ text. text.items ≡ line_of (object (members_of fields.now))) }
{
    let mut out = Writer::new(Vec::with_capacity(alloc, 128)?);
    write_object(fields, &mut out)?;
    let mut text = out.into_inner();
    text.push(b'\n')?;
    Ok(text)
}
