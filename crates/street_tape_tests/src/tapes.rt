//! Tapes written and read. What is wanted was worked out by hand from the form of a tape.
ghost use Rattle.std.specs.Prelude.{◌≡◌};

mod writes;

use std::alloc::Global;
use std::process::Abort;
use std::sync::Wait;
use std::test::Fail;
use std::thread::Threads;
use street_base::{Command, Outcome};
use street_desk::{Desk, Entry, Journal, Pass};
use street_engine::{Engine, Unwatched};
use street_stream::Counted;
use street_tape::{Stop, Tape, TapeHead, entry_text, head_text, read_entry, read_head, write_tape};
use street_text::{LineFault, read_command};

/// One vehicle that drives along one link and arrives.
static LINES: [&str; 4] = [
    r#"{"cmd":"load","nodes":[[1,1,2],[2,1,2],[3,1,2]],"links":[[10,1,2,1,10,5],[20,2,3,1,10,5]],"turns":[[10,0,20,0]],"zone":0,"dawdle":0,"change":0,"seed":0}"#,
    r#"{"cmd":"enter","plan":[10],"lane":0,"depart":0}"#,
    r#"{"cmd":"advance","steps":5}"#,
    r#"{"cmd":"vehicle","car":0}"#,
];

/// Its tape.
static TAPE: &str = concat!(
    r#"{"calls":4,"tape":2}"#,
    "\n",
    r#"{"command":{"change":0,"cmd":"load","dawdle":0,"links":[[10,1,2,1,10,5],[20,2,3,1,10,5]],"nodes":[[1,1,2],[2,1,2],[3,1,2]],"seed":0,"start":0,"turns":[[10,0,20,0]],"zone":0},"outcome":"whole","session":0}"#,
    "\n",
    r#"{"command":{"cmd":"enter","depart":0,"lane":0,"plan":[10]},"outcome":"whole","session":0}"#,
    "\n",
    r#"{"command":{"cmd":"advance","steps":5},"outcome":"whole","session":0}"#,
    "\n",
    r#"{"command":{"car":0,"cmd":"vehicle"},"outcome":"whole","session":0}"#,
    "\n",
);

/// Calls the command of a line.
fn call<R: Threads + Wait + Abort + AllocGlobal + Sync>(
    rt: &R,
    desk: &Desk<Unwatched>,
    pass: &mut Pass<Unwatched>,
    line: &str,
)
    requires { pass.old.desk ≡ desk.now }
    ensures { pass.new.desk ≡ desk.now }
{
    let Ok(command) = read_command(rt.alloc(), line.as_bytes()) else {
        panic!(rt; "no command: {line}")
    };
    assert!(rt; desk.call(rt, pass, command).is_ok(), "no place: {line}");
}

/// The journal of the four lines.
fn journal_of<R: Threads + Wait + Abort + AllocGlobal + Sync>(rt: &R) -> Journal {
    let engine = Engine::new(rt.alloc(), 1, Unwatched::new());
    let Ok((desk, mut pass)) = Desk::start(rt.alloc(), engine, 4, 1) else {
        panic!(rt; "no desk")
    };
    call(rt, &desk, &mut pass, LINES[0]);
    call(rt, &desk, &mut pass, LINES[1]);
    call(rt, &desk, &mut pass, LINES[2]);
    call(rt, &desk, &mut pass, LINES[3]);
    match desk.finish(pass) {
        Ok((_, journal)) => journal,
        Err(torn) => panic!(rt; "torn at {}", torn.word),
    }
}

/// How many bytes the tape of a journal has, and what was written.
fn taped(alloc: Global, journal: &Journal) -> (Option<u128>, Vec<u8>) {
    let mut writer = Counted::new(Vec::new(alloc));
    let bytes = write_tape(alloc, journal, &mut writer).ok();
    (bytes, writer.into_inner())
}

#[test]
fn a_journal_has_its_tape(rt: HostRuntime) {
    let journal = journal_of(&rt);
    let (bytes, written) = taped(rt.alloc(), &journal);
    assert_eq!(rt; written.as_slice(), TAPE.as_bytes());
    assert_eq!(rt; bytes, Some(TAPE.len() as u128));
}

/// The outcomes of a call, and its line with each.
const OUTCOMES: [(Outcome, &str); 3] = [
    (
        Outcome::Whole,
        "{\"command\":{\"cmd\":\"advance\",\"steps\":9},\"outcome\":\"whole\",\"session\":3}\n",
    ),
    (
        Outcome::Starved,
        "{\"command\":{\"cmd\":\"advance\",\"steps\":9},\"outcome\":\"starved\",\"session\":3}\n",
    ),
    (
        Outcome::Short(4),
        "{\"command\":{\"cmd\":\"advance\",\"steps\":9},\"outcome\":4,\"session\":3}\n",
    ),
];

/// The session, the steps and the outcome of a line of an advance.
fn advance_in(alloc: Global, line: &str) -> Option<(u64, u64, Outcome)> {
    let Ok(entry) = read_entry(alloc, line.as_bytes(), true) else {
        return None;
    };
    match entry.command {
        Command::Advance { steps } => Some((entry.session, steps, entry.outcome)),
        _ => None,
    }
}

#[test]
fn each_outcome_has_its_line(rt: HostRuntime) -> Result<(), Fail> {
    assert_eq!(rt;
        head_text(rt.alloc(), 12)?.as_slice(),
        b"{\"calls\":12,\"tape\":2}\n".as_slice()
    );
    for (outcome, line) in OUTCOMES {
        let entry = Entry {
            session: 3,
            command: Command::Advance { steps: 9 },
            outcome,
        };
        assert_eq!(rt; entry_text(rt.alloc(), &entry)?.as_slice(), line.as_bytes());
        assert_eq!(rt; advance_in(rt.alloc(), line), Some((3, 9, outcome)));
    }
    Ok(())
}

/// Lines that are no calls, and why.
static BAD_LINES: [(&str, LineFault); 18] = [
    ("", LineFault::NotJson),
    (" \t\r", LineFault::NotJson),
    ("x", LineFault::NotJson),
    ("[]", LineFault::BadCommand),
    (r#"{"tape":1}"#, LineFault::BadCommand),
    (r#"{"cmd":"count"}"#, LineFault::BadCommand),
    (
        r#"{"command":{"cmd":"count"},"outcome":"whole"}"#,
        LineFault::BadCommand,
    ),
    (
        r#"{"command":{"cmd":"count"},"session":0}"#,
        LineFault::BadCommand,
    ),
    (r#"{"outcome":"whole","session":0}"#, LineFault::BadCommand),
    (
        r#"{"command":{"cmd":"counts"},"outcome":"whole","session":0}"#,
        LineFault::BadCommand,
    ),
    (
        r#"{"command":{"cmd":"count"},"outcome":"Whole","session":0}"#,
        LineFault::BadCommand,
    ),
    (
        r#"{"command":{"cmd":"count"},"outcome":1.5,"session":0}"#,
        LineFault::BadCommand,
    ),
    (
        r#"{"command":{"cmd":"count"},"outcome":"whole","session":-1}"#,
        LineFault::BadCommand,
    ),
    (
        r#"{"command":[],"outcome":"whole","session":0}"#,
        LineFault::BadCommand,
    ),
    (
        r#"{"command":{"cmd":"count"},"outcome":1,"session":0}"#,
        LineFault::BadCommand,
    ),
    (
        r#"{"command":{"cmd":"advance","steps":5},"outcome":0,"session":0}"#,
        LineFault::BadCommand,
    ),
    (
        r#"{"command":{"cmd":"advance","steps":5},"outcome":5,"session":0}"#,
        LineFault::BadCommand,
    ),
    (
        r#"{"command":{"cmd":"enter","depart":0,"lane":0,"plan":[10],"size":"x"},"outcome":"whole","session":0}"#,
        LineFault::BadCommand,
    ),
];

#[test]
fn bad_lines_have_their_faults(rt: HostRuntime) {
    for (line, want) in &BAD_LINES {
        match read_entry(rt.alloc(), line.as_bytes(), true) {
            Ok(_) => panic!(rt; "a call: {line}"),
            Err(fault) => assert_eq!(rt; fault, *want, "at {line}"),
        }
    }
}

/// First lines, and what they tell.
#[test]
fn first_lines_tell_their_version(rt: HostRuntime) {
    for (line, want) in [
        (r#"{"tape":1}"#, Ok(TapeHead::Version1)),
        (r#"{"calls":"x","tape":1}"#, Ok(TapeHead::Version1)),
        (
            r#" {"x":[],"tape":2,"calls":7}"#,
            Ok(TapeHead::Version2 { calls: 7 }),
        ),
        (r#"{"tape":2}"#, Err(LineFault::BadCommand)),
        (r#"{"calls":"7","tape":2}"#, Err(LineFault::BadCommand)),
        (r#"{"calls":-7,"tape":2}"#, Err(LineFault::BadCommand)),
        (r#"{"calls":7,"tape":3}"#, Err(LineFault::BadCommand)),
        (r#"{"calls":7,"tape":0}"#, Err(LineFault::BadCommand)),
        (r#"{"tape":1.0}"#, Err(LineFault::BadCommand)),
        (r#"{"tape":"1"}"#, Err(LineFault::BadCommand)),
        (r#"{"Tape":1}"#, Err(LineFault::BadCommand)),
        ("[1]", Err(LineFault::BadCommand)),
        ("", Err(LineFault::NotJson)),
    ] {
        assert_eq!(rt; read_head(rt.alloc(), line.as_bytes()), want, "at {line}");
    }
}

#[test]
fn a_line_may_have_2_097_152_bytes(rt: HostRuntime) -> Result<(), Fail> {
    let mut line = Vec::from_slice(rt.alloc(), br#"{"tape":1}"#)?;
    line.extend_from_slice(vec![in rt.alloc(); b' '; 2_097_152 - 10]?.as_slice())?;
    assert_eq!(rt;
        read_head(rt.alloc(), line.as_slice()),
        Ok(TapeHead::Version1)
    );
    line.push(b' ')?;
    assert_eq!(rt;
        read_head(rt.alloc(), line.as_slice()),
        Err(LineFault::LineTooLong)
    );
    Ok(())
}

/// A vehicle of three cells enters; its line on a tape, and what stands there where the size is no number.
static LONG_VEHICLE: &str =
    r#"{"command":{"cmd":"enter","depart":0,"lane":0,"plan":[10],"size":3},"outcome":"whole","session":0}"#;

static NO_SIZE: &str =
    r#"{"command":{"cmd":"enter","depart":0,"lane":0,"plan":[10],"size":"x"},"outcome":"whole","session":0}"#;

/// The size of the vehicle that a line of a tape has enter.
fn size_in(alloc: Global, line: &str, sized: bool) -> Option<u64> {
    let Ok(entry) = read_entry(alloc, line.as_bytes(), sized) else {
        return None;
    };
    match entry.command {
        Command::Enter { size, .. } => Some(size),
        _ => None,
    }
}

#[test]
fn sizes_are_read_or_not(rt: HostRuntime) {
    let alloc = rt.alloc();
    assert_eq!(rt; size_in(alloc, LONG_VEHICLE, true), Some(3));
    assert_eq!(rt; size_in(alloc, LONG_VEHICLE, false), Some(1));
    assert_eq!(rt; size_in(alloc, NO_SIZE, true), None);
    assert_eq!(rt; size_in(alloc, NO_SIZE, false), Some(1));
}

#[test]
fn a_size_is_told(rt: HostRuntime) -> Result<(), Fail> {
    let alloc = rt.alloc();
    let Ok(entry) = read_entry(alloc, LONG_VEHICLE.as_bytes(), true) else {
        panic!(&rt; "no call")
    };
    let text = entry_text(alloc, &entry)?;
    assert_eq!(rt;
        text.as_slice().strip_suffix(b"\n"),
        Some(LONG_VEHICLE.as_bytes())
    );
    Ok(())
}

/// What is told of these lines, one after another, and whether the tape may end after each.
fn check_lines(rt: &(impl Abort + AllocGlobal), lines: &[(&str, Result<bool, Stop>, bool)]) {
    let mut tape = Tape::new();
    for (line, want, ends) in lines {
        let told = tape.take(rt.alloc(), line.as_bytes());
        assert_eq!(rt; told.map(|call| call.is_some()), *want, "at {line}");
        assert_eq!(rt; tape.may_end(), *ends, "after {line}");
    }
}

#[test]
fn calls_are_counted(rt: HostRuntime) {
    let count = r#"{"command":{"cmd":"count"},"outcome":"whole","session":0}"#;
    check_lines(
        &rt,
        &[
            (count, Err(Stop::NotTape), false),
            (r#"{"calls":2,"tape":2}"#, Ok(false), false),
            (count, Ok(true), false),
            ("{}", Err(Stop::BadEntry), false),
            (count, Ok(true), true),
            (count, Err(Stop::BadEntry), true),
        ],
    );
    check_lines(
        &rt,
        &[
            (r#"{"tape":1}"#, Ok(false), true),
            (count, Ok(true), true),
            ("", Err(Stop::BadEntry), true),
            (count, Ok(true), true),
        ],
    );
}
