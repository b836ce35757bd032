//! Tapes upgraded over streams in memory.

use crate::memory_streams::FailingWriter;
use crate::replays::runs::{Ran, replayed, upgraded};
use crate::replays::texts::{HEAD, arrives_after};
use crate::replays::{ARRIVES, ARRIVES_OUTPUT, BAD_ENTRIES, NO_TAPES, begun_with};
use std::alloc::Global;
use std::process::Abort;
use std::test::Fail;
use street_stream::{Counted, Tally};
use street_tape::{TapeFault, upgrade};

/// The tally of an upgrade of a tape, and what was written.
fn upgraded_whole(alloc: Global, tape: &[u8]) -> (Option<Tally>, Vec<u8>) {
    let mut reader = Counted::new(tape);
    let mut writer = Counted::new(Vec::new(alloc));
    let tally = upgrade(alloc, &mut reader, &mut writer).ok();
    (tally, writer.into_inner())
}

/// The first line is another, and the others stay; an upgrade of that is the same text.
#[test]
fn the_first_line_alone_changes(rt: HostRuntime) -> Result<(), Fail> {
    let wanted = arrives_after(rt.alloc(), HEAD)?;
    let tally = Tally {
        lines: 5,
        calls: 4,
        replies: 0,
        bytes: wanted.len() as u128,
    };
    let (told, written) = upgraded_whole(rt.alloc(), ARRIVES.as_bytes());
    assert_eq!(rt; written.as_slice(), wanted.as_slice());
    assert_eq!(rt; told, Some(tally));
    let (told, written) = upgraded_whole(rt.alloc(), wanted.as_slice());
    assert_eq!(rt; written.as_slice(), wanted.as_slice());
    assert_eq!(rt; told, Some(tally));
    Ok(())
}

#[test]
fn it_replays_as_before(rt: HostRuntime) -> Result<(), Fail> {
    let alloc = rt.alloc();
    let tape = arrives_after(alloc, HEAD)?;
    let ran = replayed(
        &rt,
        alloc,
        tape.as_slice(),
        7,
        FailingWriter::all(alloc),
        1000,
    );
    assert_eq!(rt; ran.fault, None);
    assert_eq!(rt; ran.taken.as_slice(), ARRIVES_OUTPUT.as_bytes());
    Ok(())
}

#[test]
fn a_tape_of_no_calls_is_upgraded(rt: HostRuntime) {
    let (told, written) = upgraded_whole(rt.alloc(), b"{\"tape\":1}");
    assert_eq!(rt;
        written.as_slice(),
        b"{\"calls\":0,\"tape\":2}\n".as_slice()
    );
    assert_eq!(rt;
        told,
        Some(Tally {
            lines: 1,
            calls: 0,
            replies: 0,
            bytes: 21,
        })
    );
}

/// Keys in any order, spaces and other keys do not stay.
#[test]
fn lines_are_written_anew(rt: HostRuntime) {
    let text = concat!(
        " {\"x\":[],\"tape\":1}\r\n",
        r#"{"session":2, "outcome":3, "command":{"steps":5,"cmd":"advance"}, "note":null}"#,
    );
    let wanted = concat!(
        "{\"calls\":1,\"tape\":2}\n",
        r#"{"command":{"cmd":"advance","steps":5},"outcome":3,"session":2}"#,
        "\n",
    );
    let (_, written) = upgraded_whole(rt.alloc(), text.as_bytes());
    assert_eq!(rt; written.as_slice(), wanted.as_bytes());
}

/// The fault was told, and nothing was written.
fn check_nothing(rt: &impl Abort, ran: &Ran, fault: TapeFault, name: &str) {
    assert_eq!(rt; ran.fault, Some(fault), "at {name}");
    assert_eq!(rt; ran.taken.len(), 0, "at {name}");
}

#[test]
fn what_is_no_tape_is_not_upgraded(rt: HostRuntime) {
    let alloc = rt.alloc();
    for text in &NO_TAPES {
        let ran = upgraded(alloc, text.as_bytes(), 3, FailingWriter::all(alloc), 1000);
        check_nothing(&rt, &ran, TapeFault::NotTape, text);
    }
}

/// The last two bad entries of a replay are bad for the machine alone.
#[test]
fn a_bad_entry_is_not_upgraded(rt: HostRuntime) -> Result<(), Fail> {
    let alloc = rt.alloc();
    for line in BAD_ENTRIES.iter().take(13) {
        let text = begun_with(alloc, line.as_bytes())?;
        let ran = upgraded(alloc, text.as_slice(), 100, FailingWriter::all(alloc), 1000);
        check_nothing(&rt, &ran, TapeFault::BadEntry { line: 4 }, line);
    }
    for line in BAD_ENTRIES.iter().skip(13) {
        let text = begun_with(alloc, line.as_bytes())?;
        let ran = upgraded(alloc, text.as_slice(), 100, FailingWriter::all(alloc), 1000);
        assert_eq!(rt; ran.fault, None, "at {line}");
    }
    Ok(())
}
