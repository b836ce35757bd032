//! The lines of errors that have no place. `street_line` prints a want of memory and a full desk by it.
ghost use Rattle.std.specs.Prelude.{◌≡◌, IfOk};
ghost use Rattle.street_text.specs.ReplyLines.{line_of, error_data};

use crate::fields::{Field, object_line};
use std::alloc::Global;
use street_base::Starved;

/// The line of an error of this number and name that has no place: one JSON object, and LF.
///
/// # Errors
///
/// `Starved` where there was no memory for it.
pub fn error_text(alloc: Global, number: u64, name: &str) -> Result<Vec<u8>, Starved>
    ensures { IfOk result (λ text. text.items ≡ line_of (error_data number name.now)) }
{
    object_line(
        alloc,
        &[
            ("error", Field::Number(number)),
            ("name", Field::Text(name)),
        ],
    )
}
