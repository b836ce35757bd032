//! Tapes replayed over streams in memory. What is wanted was worked out by hand from the form of a tape and the rules of motion.

mod cuts;
mod faults;
mod runs;
mod sizes;
mod texts;
mod upgrades;

use crate::memory_streams::FailingWriter;
use crate::replays::runs::{Ran, replayed};
use std::alloc::{AllocError, Global};
use std::process::Abort;
use std::test::Fail;
use std::thread::Threads;
use street_base::{Command, Reply, Whereabouts};
use street_engine::{Engine, Unwatched};
use street_stream::{Counted, Tally};
use street_tape::{TapeFault, replay};

/// One vehicle that drives along one link and arrives: its tape.
static ARRIVES: &str = concat!(
    r#"{"tape":1}"#,
    "\n",
    r#"{"command":{"change":0,"cmd":"load","dawdle":0,"links":[[10,1,2,1,10,5],[20,2,3,1,10,5]],"nodes":[[1,1,2],[2,1,2],[3,1,2]],"seed":0,"start":0,"turns":[[10,0,20,0]],"zone":0},"outcome":"whole","session":0}"#,
    "\n",
    r#"{"command":{"cmd":"enter","depart":0,"lane":0,"plan":[10]},"outcome":"whole","session":0}"#,
    "\n",
    r#"{"command":{"cmd":"advance","steps":5},"outcome":"whole","session":0}"#,
    "\n",
    r#"{"command":{"car":0,"cmd":"vehicle"},"outcome":"whole","session":0}"#,
    "\n",
);

/// Its replies.
static ARRIVES_OUTPUT: &str = concat!(
    r#"{"links":2,"nodes":3,"turns":1}"#,
    "\n",
    r#"{"car":0}"#,
    "\n",
    r#"{"clock":5}"#,
    "\n",
    r#"{"car":0,"state":"arrived","step":4}"#,
    "\n",
);

/// The tally of the replay of a tape, what was written, and whether vehicle 0 of the engine has ended then.
fn replayed_whole<R: Threads + Sync>(
    rt: &R,
    alloc: Global,
    tape: &[u8],
) -> (Option<Tally>, Vec<u8>, bool) {
    let mut reader = Counted::new(tape);
    let mut writer = Counted::new(Vec::new(alloc));
    let mut engine = Engine::new(alloc, 1, Unwatched::new());
    let tally = replay(rt, alloc, &mut reader, &mut engine, &mut writer).ok();
    let (reply, _) = engine.apply(rt, &Command::Vehicle { car: 0 });
    let has_ended = matches!(
        &reply,
        Reply::Vehicle {
            whereabouts: Whereabouts::Ended(_),
            ..
        }
    );
    (tally, writer.into_inner(), has_ended)
}

#[test]
fn a_session_is_replayed(rt: HostRuntime) {
    let (tally, written, has_ended) = replayed_whole(&rt, rt.alloc(), ARRIVES.as_bytes());
    assert_eq!(rt; written.as_slice(), ARRIVES_OUTPUT.as_bytes());
    assert_eq!(rt;
        tally,
        Some(Tally {
            lines: 5,
            calls: 4,
            replies: 4,
            bytes: ARRIVES_OUTPUT.len() as u128,
        })
    );
    assert!(rt; has_ended);
}

/// Calls of each outcome, of several sessions, with keys in any order, and no LF at the end.
static OUTCOMES: &str = concat!(
    r#" {"x":[],"tape":1}"#,
    "\r\n",
    r#"{"command":{"cmd":"load","nodes":[[1,1,2],[2,1,2]],"links":[[10,1,2,1,10,5]],"turns":[],"zone":0,"dawdle":0,"change":0,"seed":0},"outcome":"whole","session":7}"#,
    "\n",
    r#"{"session":1,"outcome":"whole","command":{"cmd":"enter","plan":[10],"lane":0,"depart":0}}"#,
    "\n",
    r#"{"session":0,"outcome":"starved","command":{"cmd":"enter","plan":[10],"lane":0,"depart":0}}"#,
    "\n",
    r#"{"session":2,"outcome":3,"command":{"cmd":"advance","steps":5},"note":null}"#,
    "\n",
    r#"{"session":1,"outcome":"whole","command":{"cmd":"vehicle","car":0}}"#,
    "\n",
    r#"{"session":1,"outcome":"starved","command":{"cmd":"vehicle","car":9}}"#,
    "\n",
    r#"{"session":1,"outcome":"whole","command":{"cmd":"vehicle","car":1}}"#,
    "\n",
    r#"{"session":1,"outcome":"whole","command":{"cmd":"advance","steps":10001}}"#,
);

static OUTCOMES_OUTPUT: &str = concat!(
    r#"{"links":1,"nodes":2,"turns":0}"#,
    "\n",
    r#"{"car":0}"#,
    "\n",
    r#"{"starved":true}"#,
    "\n",
    r#"{"clock":3,"short":3}"#,
    "\n",
    r#"{"car":0,"cell":3,"lane":0,"link":10,"plan":[10],"speed":2,"state":"cell"}"#,
    "\n",
    r#"{"starved":true}"#,
    "\n",
    r#"{"error":10,"name":"NoVehicle"}"#,
    "\n",
    r#"{"error":14,"name":"BadCount"}"#,
    "\n",
);

/// All calls were replayed, and their replies are written and flushed.
fn check_outcomes(rt: &impl Abort, ran: &Ran) {
    assert_eq!(rt; ran.fault, None);
    assert_eq!(rt; ran.taken.as_slice(), OUTCOMES_OUTPUT.as_bytes());
    assert_eq!(rt; ran.flushed, OUTCOMES_OUTPUT.len());
    let want = Tally {
        lines: 9,
        calls: 8,
        replies: 8,
        bytes: OUTCOMES_OUTPUT.len() as u128,
    };
    assert_eq!(rt; ran.tally, Some(want));
}

#[test]
fn each_outcome_is_replayed(rt: HostRuntime) {
    let alloc = rt.alloc();
    let tape = OUTCOMES.as_bytes();
    let ran = replayed(&rt, alloc, tape, 4096, FailingWriter::all(alloc), 100);
    check_outcomes(&rt, &ran);
}

/// First lines that are not those of a tape.
static NO_TAPES: [&str; 10] = [
    "",
    "\n",
    " \t\r\n{\"tape\":1}\n",
    "x",
    "[1]\n",
    "{\"tape\":2}\n",
    "{\"calls\":\"1\",\"tape\":2}\n",
    "{\"calls\":1,\"tape\":3}\n",
    "{\"tape\":\"1\"}\n",
    "{\"command\":{\"cmd\":\"count\"},\"outcome\":\"whole\",\"session\":0}\n",
];

/// The fault of a replay of this text in such pieces, and how many bytes were written.
fn fault_of<R: Threads + Sync>(
    rt: &R,
    alloc: Global,
    text: &[u8],
    piece: usize,
) -> (Option<TapeFault>, usize) {
    let ran = replayed(rt, alloc, text, piece, FailingWriter::all(alloc), 1000);
    (ran.fault, ran.taken.len())
}

/// This text, read in such pieces, is no tape, and nothing is written.
fn check_no_tape(rt: &(impl Threads + Abort + AllocGlobal + Sync), text: &str, piece: usize) {
    assert_eq!(rt;
        fault_of(rt, rt.alloc(), text.as_bytes(), piece),
        (Some(TapeFault::NotTape), 0),
        "at {text}"
    );
}

#[test]
fn what_is_no_tape_is_told(rt: HostRuntime) {
    for text in &NO_TAPES {
        check_no_tape(&rt, text, 1);
        check_no_tape(&rt, text, 4096);
    }
}

/// So many spaces, and a first line.
fn long_line(alloc: Global, spaces: usize) -> Result<Vec<u8>, AllocError> {
    let mut long = vec![in alloc; b' '; spaces]?;
    long.extend_from_slice(b"{\"tape\":1}\n")?;
    Ok(long)
}

#[test]
fn a_first_line_has_at_most_2_097_152_bytes(rt: HostRuntime) -> Result<(), Fail> {
    let longest = long_line(rt.alloc(), 2_097_152 - 10)?;
    assert_eq!(rt;
        fault_of(&rt, rt.alloc(), longest.as_slice(), 4096),
        (None, 0)
    );
    let longer = long_line(rt.alloc(), 2_097_153 - 10)?;
    assert_eq!(rt;
        fault_of(&rt, rt.alloc(), longer.as_slice(), 4096),
        (Some(TapeFault::NotTape), 0)
    );
    Ok(())
}

/// What a tape begins with, and the replies to it.
static BEGIN: &str = concat!(
    r#"{"tape":1}"#,
    "\n",
    r#"{"command":{"cmd":"load","nodes":[[1,1,2],[2,1,2]],"links":[[10,1,2,1,10,5]],"turns":[],"zone":0,"dawdle":0,"change":0,"seed":0,"start":999999990},"outcome":"whole","session":0}"#,
    "\n",
    r#"{"command":{"cmd":"enter","plan":[10],"lane":0,"depart":0},"outcome":"whole","session":0}"#,
    "\n",
);

static BEGIN_OUTPUT: &str = "{\"links\":1,\"nodes\":2,\"turns\":0}\n{\"car\":0}\n";

/// Fourth lines that cannot be replayed.
static BAD_ENTRIES: [&str; 15] = [
    "\n",
    " \t\r\n",
    "x",
    "{\"tape\":1}\n",
    r#"{"cmd":"vehicle","car":0}"#,
    r#"{"command":{"cmd":"vehicle","car":0},"outcome":"whole"}"#,
    r#"{"command":{"cmd":"vehicle","car":0},"session":0}"#,
    r#"{"command":{"cmd":"vehicle"},"outcome":"whole","session":0}"#,
    r#"{"command":{"cmd":"vehicle","car":0},"outcome":"full","session":0}"#,
    r#"{"command":{"cmd":"vehicle","car":0},"outcome":1,"session":0}"#,
    r#"{"command":{"cmd":"advance","steps":5},"outcome":0,"session":0}"#,
    r#"{"command":{"cmd":"advance","steps":5},"outcome":5,"session":0}"#,
    r#"{"command":{"cmd":"advance","steps":5},"outcome":6,"session":0}"#,
    r#"{"command":{"cmd":"advance","steps":11},"outcome":1,"session":0}"#,
    r#"{"command":{"cmd":"advance","steps":10001},"outcome":1,"session":0}"#,
];

/// That beginning with a line after it.
fn begun_with(alloc: Global, line: &[u8]) -> Result<Vec<u8>, AllocError> {
    let mut text = Vec::from_slice(alloc, BEGIN.as_bytes())?;
    text.extend_from_slice(line)?;
    Ok(text)
}

#[test]
fn a_bad_entry_is_told_by_its_line(rt: HostRuntime) -> Result<(), Fail> {
    let alloc = rt.alloc();
    for line in &BAD_ENTRIES {
        let text = begun_with(alloc, line.as_bytes())?;
        let ran = replayed(
            &rt,
            alloc,
            text.as_slice(),
            100,
            FailingWriter::all(alloc),
            1000,
        );
        check_bad(&rt, &ran, 4, BEGIN_OUTPUT, line);
    }
    Ok(())
}

#[test]
fn a_short_first_call_is_bad(rt: HostRuntime) {
    let alloc = rt.alloc();
    let text =
        "{\"tape\":1}\n{\"command\":{\"cmd\":\"advance\",\"steps\":5},\"outcome\":1,\"session\":0}\n";
    let ran = replayed(
        &rt,
        alloc,
        text.as_bytes(),
        4096,
        FailingWriter::all(alloc),
        1000,
    );
    check_bad(&rt, &ran, 2, "", text);
}

#[test]
fn a_line_that_is_too_long_is_bad(rt: HostRuntime) -> Result<(), Fail> {
    let alloc = rt.alloc();
    let text = begun_with(alloc, vec![in alloc; b' '; 2_097_153]?.as_slice())?;
    let ran = replayed(
        &rt,
        alloc,
        text.as_slice(),
        4096,
        FailingWriter::all(alloc),
        1000,
    );
    check_bad(&rt, &ran, 4, BEGIN_OUTPUT, "a long line");
    Ok(())
}

/// The line of this number was bad, and exactly these replies were written.
fn check_bad(rt: &impl Abort, ran: &Ran, line: u128, output: &str, name: &str) {
    assert_eq!(rt; ran.fault, Some(TapeFault::BadEntry { line }), "at {name}");
    assert_eq!(rt; ran.taken.as_slice(), output.as_bytes(), "at {name}");
}
