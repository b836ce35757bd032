//! Lines and replies, made once more where memory was refused.

use crate::calls::Stop;
use std::alloc::Global;
use street_base::{Command, Reply};
use street_text::{LineFault, LineReader, reply_text};

/// The command of a line.
pub(crate) fn read(alloc: Global, line: &str) -> Result<Command, Stop> {
    match read_once(alloc, line) {
        Err(Stop::OutOfMemory) => read_once(alloc, line),
        read => read,
    }
}

fn read_once(alloc: Global, line: &str) -> Result<Command, Stop> {
    match LineReader::new(alloc).read(alloc, line.as_bytes()) {
        Ok(command) => Ok(command),
        Err(LineFault::Starved) => Err(Stop::OutOfMemory),
        Err(_) => Err(Stop::Wrong("no command")),
    }
}

/// The line of a reply.
pub(crate) fn text_of(alloc: Global, reply: &Reply) -> Result<Vec<u8>, Stop> {
    if let Ok(text) = reply_text(alloc, reply) {
        return Ok(text);
    }
    match reply_text(alloc, reply) {
        Ok(text) => Ok(text),
        Err(_starved) => Err(Stop::OutOfMemory),
    }
}

/// The text of lines, which are ASCII; of other bytes none.
pub(crate) fn as_text(lines: &[u8]) -> &str {
    str::from_utf8(lines).unwrap_or("")
}

/// Whether a line of reply is this, and its end.
pub(crate) fn is_line(text: &[u8], want: &str) -> bool {
    match text.split_last() {
        Some((last, rest)) => *last == b'\n' && rest == want.as_bytes(),
        None => false,
    }
}
