//! Standard streams that are closed when the program starts: the next file that is opened would else stand for one of them.
//! Runs that open files call it first.

use crate::one_file::{ERROR, INPUT, OUTPUT};
use std::fs;
use std::fs::{File, OpenOptions};
use std::rt::Files;

/// What takes the places of standard input, standard output and standard error where these are closed, as long as it lives.
#[derive(Drop)]
pub(crate) struct Held {
    input: Option<File>,
    output: Option<File>,
    error: Option<File>,
}

/// Takes the places of the standard streams that are closed. As with those, each read and each write of them fails.
pub(crate) fn hold_streams<R: Files<File = File>>(rt: &R) -> Held {
    let input = if is_open(rt, INPUT) {
        None
    } else {
        OpenOptions::new().write(true).open(rt, "/dev/null").ok()
    };
    let output = hold(rt, OUTPUT);
    let error = hold_error(rt);
    Held {
        input,
        output,
        error,
    }
}

/// Takes the place of standard error where that is closed.
pub(crate) fn hold_error<R: Files<File = File>>(rt: &R) -> Option<File> {
    hold(rt, ERROR)
}

/// Takes the place of the stream of this name where it is closed, by what can not be written.
fn hold<R: Files<File = File>>(rt: &R, name: &str) -> Option<File> {
    if is_open(rt, name) {
        None
    } else {
        File::open(rt, "/dev/null").ok()
    }
}

/// Whether the stream of this name is open.
fn is_open<R: Files<File = File>>(rt: &R, name: &str) -> bool {
    fs::metadata(rt, name).is_ok()
}
