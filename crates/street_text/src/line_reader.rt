//! Reading line after line. The handlers of lines of `street_line`, and tapes, keep one.
ghost use Rattle.std.specs.Prelude.{◌≡◌, Ok, IfSome};
ghost use Rattle.street_text.specs.LineCommands.{command_or_fault, reading, value_of, Gives};

use crate::fault::LineFault;
use crate::flat::FlatLine;
use crate::line_commands::read_command;
use crate::number_commands::of_numbers;
use json::Scratch;
use std::alloc::Global;
use street_base::Command;

/// The most bytes of a line that is tried as a flat line first. A longer one is read by a JSON value alone, so that the
/// memory which is kept from one line to the next stays small.
const LONGEST_FLAT_LINE: usize = 4096;

/// Reads line after line, and keeps memory from one to the next.
#[derive(Drop)]
pub struct LineReader {
    /// None where there was no memory for it: each line is then read as if none came before it.
    scratch: Option<Box<Scratch>>,
}

/// The command of a line of numbers, texts and lists of numbers; none where it has none, where anything else stands in it, and
/// where memory was refused.
fn flat_command(alloc: Global, scratch: &mut Scratch, line: &[u8]) -> Option<Command>
    ensures { IfSome result (λ command. command_or_fault (value_of line.now) ≡ Ok command) }
{
    let flat = FlatLine::of_bytes(alloc, scratch, line)?;
    let name = flat.text("cmd")?;
    match of_numbers(alloc, name, &flat, true) {
        Ok(command) => Some(command),
        Err(_) => None,
    }
}

impl LineReader {
    /// Has read nothing yet. What it keeps is on the heap, and is made in a frame of its own: a run needs little stack.
    #[inline(never)]
    pub fn new(alloc: Global) -> LineReader {
        LineReader {
            scratch: Box::new(alloc, Scratch::new(alloc)).ok(),
        }
    }

    /// What [`read_command`] gives of a line, sooner where the line has numbers, texts and lists of numbers alone.
    ///
    /// # Errors
    ///
    /// Those of [`read_command`].
    #[tactic(auto, unfolding(crate::specs::LineCommands::reading))]
    pub fn read(&mut self, alloc: Global, line: &[u8]) -> Result<Command, LineFault>
        ensures { Gives result (reading line.now) }
    {
        if line.len() <= LONGEST_FLAT_LINE
            && let Some(scratch) = &mut self.scratch
            && let Some(command) = flat_command(alloc, scratch, line)
        {
            return Ok(command);
        }
        read_command(alloc, line)
    }
}
