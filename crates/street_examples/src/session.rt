//! A session: lines, and the replies that are wanted.
ghost use Rattle.std.specs.Prelude.{◌≡◌, ◌∷◌, ◌++◌, ◌≤◌, [], length, OnOk};

use std::alloc::{AllocError, Global};

/// What is sent to a program with nothing loaded, and what it is to answer.
#[derive(Drop)]
pub struct Session {
    pub name: String,
    /// Each line with its LF.
    pub lines: Vec<u8>,
    /// Each reply with its LF.
    pub replies: Vec<u8>,
}

impl Session {
    /// A session of no lines.
    pub fn new(alloc: Global, name: String) -> Session
        ensures name { result.name ≡ name }
        ensures lines { result.lines.items ≡ [] }
        ensures replies { result.replies.items ≡ [] }
    {
        Session {
            name,
            lines: Vec::new(alloc),
            replies: Vec::new(alloc),
        }
    }

    /// Puts a line, and an LF, behind those that are sent.
    pub fn send(&mut self, line: &str) -> Result<(), AllocError>
        ensures lines { OnOk result (self.new.lines.items ≡ self.old.lines.items ++ line.now ++ 10 ∷ []) }
        ensures name { self.new.name ≡ self.old.name }
        ensures replies { self.new.replies ≡ self.old.replies }
    {
        push_line(&mut self.lines, line)
    }

    /// Puts a reply, and an LF, behind those that are wanted.
    pub fn want(&mut self, reply: &str) -> Result<(), AllocError>
        ensures replies { OnOk result (self.new.replies.items ≡ self.old.replies.items ++ reply.now ++ 10 ∷ []) }
        ensures name { self.new.name ≡ self.old.name }
        ensures lines { self.new.lines ≡ self.old.lines }
    {
        push_line(&mut self.replies, reply)
    }
}

fn push_line(text: &mut Vec<u8>, line: &str) -> Result<(), AllocError>
    ensures { OnOk result (text.new.items ≡ text.old.items ++ line.now ++ 10 ∷ []) }
{
    text.extend_from_slice(line.as_bytes())?;
    text.push(b'\n')?;
    Ok(())
}

/// How many lines two texts begin with alike.
pub fn same_lines(first: &[u8], second: &[u8]) -> usize
    ensures { result ≤ length first.now }
{
    first
        .iter()
        .zip(second)
        .take_while(|(a, b)| a == b)
        .filter(|(a, _)| **a == b'\n')
        .count()
}
