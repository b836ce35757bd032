//! The sessions of a document.
//!
//! The blocks `session` of a chapter are one session, line after line: what stands behind `> ` is sent, and the other lines
//! are the replies. A row of a table with two objects is a session of its own: a line, and its reply.

use crate::session::Session;
use std::alloc::{AllocError, Global};
use std::mem;

/// A document, as far as it was read.
#[derive(Drop)]
struct PartialDocument<'a> {
    alloc: Global,
    name: &'a str,
    chapter: Session,
    is_in_block: bool,
    chapters: Vec<Session>,
    rows: Vec<Session>,
}

impl PartialDocument<'_> {
    /// Takes a line more.
    fn take(&mut self, line: &str) -> Result<(), AllocError> {
        if self.is_in_block {
            self.is_in_block = line != "```";
            if self.is_in_block {
                push_line(&mut self.chapter, line)?;
            }
        } else if let Some(title) = line.strip_prefix("## ") {
            self.begin_chapter(title)?;
        } else if let Some((sent, reply)) = row(line) {
            self.add_row(sent, reply)?;
        } else {
            self.is_in_block = line == "```session";
        }
        Ok(())
    }

    /// Ends the chapter, and begins the next.
    fn begin_chapter(&mut self, title: &str) -> Result<(), AllocError> {
        let name = format!(in self.alloc; "{}, {title}", self.name)?;
        let next = Session::new(self.alloc, name);
        push_any(mem::replace(&mut self.chapter, next), &mut self.chapters)
    }

    /// A session of a line and its reply.
    fn add_row(&mut self, sent: &str, reply: &str) -> Result<(), AllocError> {
        let number = self.rows.len() + 1;
        let name = format!(in self.alloc; "{}, row {number}", self.name)?;
        let mut alone = Session::new(self.alloc, name);
        alone.send(sent)?;
        alone.want(reply)?;
        self.rows.push(alone)?;
        Ok(())
    }

    /// The sessions of the chapters, and then those of the rows.
    fn end(self) -> Result<Vec<Session>, AllocError> {
        let PartialDocument {
            chapter,
            chapters: mut sessions,
            mut rows,
            ..
        } = self;
        push_any(chapter, &mut sessions)?;
        sessions.append(&mut rows)?;
        Ok(sessions)
    }
}

/// The sessions of a document, those of the chapters first, each under the document's name.
///
/// # Errors
///
/// An error where memory was refused.
pub fn sessions_of(alloc: Global, name: &str, text: &str) -> Result<Vec<Session>, AllocError> {
    let first = format!(in alloc; "{name}, before the chapters")?;
    let mut reading = PartialDocument {
        alloc,
        name,
        chapter: Session::new(alloc, first),
        is_in_block: false,
        chapters: Vec::new(alloc),
        rows: Vec::new(alloc),
    };
    for line in text.lines() {
        reading.take(line)?;
    }
    reading.end()
}

/// Puts a session behind the others, if it has any lines.
fn push_any(session: Session, sessions: &mut Vec<Session>) -> Result<(), AllocError> {
    if !session.lines.is_empty() || !session.replies.is_empty() {
        sessions.push(session)?;
    }
    Ok(())
}

/// A line of a block: one that is sent, or a reply.
fn push_line(session: &mut Session, line: &str) -> Result<(), AllocError> {
    match line.strip_prefix("> ") {
        Some(sent) => session.send(sent),
        None => session.want(line),
    }
}

/// The two texts of a row ``| `{..}` | `{..}` |``.
fn row(line: &str) -> Option<(&str, &str)> {
    let cells = line.strip_prefix("| `")?.strip_suffix("` |")?;
    cells
        .split_once("` | `")
        .filter(|(sent, _)| sent.starts_with('{'))
}
