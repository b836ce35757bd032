//! The tape of the vehicle that arrives, in both versions, and parts of it.

use crate::replays::{ARRIVES, ARRIVES_OUTPUT};
use std::alloc::{AllocError, Global};

/// The first line of its tape of version 1.
pub(super) static OLD_HEAD: &str = "{\"tape\":1}\n";

/// The first line of its tape of version 2, with four calls.
pub(super) static HEAD: &str = "{\"calls\":4,\"tape\":2}\n";

/// The lines of its calls, which both versions have.
pub(super) fn calls() -> &'static [u8] {
    match ARRIVES.strip_prefix(OLD_HEAD) {
        Some(calls) => calls.as_bytes(),
        None => b"",
    }
}

/// Its tape with this first line.
pub(super) fn arrives_after(alloc: Global, head: &str) -> Result<Vec<u8>, AllocError> {
    let mut tape = Vec::from_slice(alloc, head.as_bytes())?;
    tape.extend_from_slice(calls())?;
    Ok(tape)
}

/// So many first bytes of a text.
pub(super) fn first(text: &[u8], bytes: usize) -> &[u8] {
    text.get(..bytes).unwrap_or(text)
}

/// How many lines end in a text.
pub(super) fn lines_in(text: &[u8]) -> usize {
    text.iter().filter(|byte| **byte == b'\n').count()
}

/// So many first lines of a text.
pub(super) fn first_lines(text: &[u8], lines: usize) -> &[u8] {
    let mut left = lines;
    for (at, byte) in text.iter().enumerate() {
        if left == 0 {
            return first(text, at);
        }
        if *byte == b'\n' {
            left -= 1;
        }
    }
    text
}

/// The replies to so many first lines of its tape.
pub(super) fn replies_to(lines: usize) -> &'static [u8] {
    first_lines(ARRIVES_OUTPUT.as_bytes(), lines.saturating_sub(1))
}
