//! The sessions of a folder: the lines of each stand in `NAME.jsonl`, and its replies in `NAME.out`.

use crate::session::Session;
use std::{fs, io};

/// The sessions of a folder, in the order of their names.
///
/// # Errors
///
/// An error where memory was refused, or where the folder or one of its files could not be read.
pub fn sessions_of(rt: &HostRuntime, folder: &str) -> io::Result<Vec<Session>> {
    let names = names(rt, folder)?;
    let mut sessions = Vec::new(rt.alloc());
    for name in &names {
        sessions.push(session(rt, folder, name)?)?;
    }
    Ok(sessions)
}

/// The session of this name.
fn session(rt: &HostRuntime, folder: &str, name: &str) -> io::Result<Session> {
    let lines = read(rt, folder, name, "jsonl")?;
    let replies = read(rt, folder, name, "out")?;
    Ok(Session {
        name: format!(in rt.alloc(); "{folder}/{name}")?,
        lines,
        replies,
    })
}

/// What stands in a file of a folder.
fn read(rt: &HostRuntime, folder: &str, name: &str, extension: &str) -> io::Result<Vec<u8>> {
    let path = format!(in rt.alloc(); "{folder}/{name}.{extension}")?;
    fs::read(rt, path.as_str())
}

/// The names of a folder's sessions, in their order.
fn names(rt: &HostRuntime, folder: &str) -> io::Result<Vec<String>> {
    let mut names = Vec::new(rt.alloc());
    for entry in fs::read_dir(rt, folder)? {
        if let Some(name) = entry?.file_name().strip_suffix(".jsonl") {
            names.push(String::from_str(rt.alloc(), name)?)?;
        }
    }
    names.sort()?;
    Ok(names)
}
