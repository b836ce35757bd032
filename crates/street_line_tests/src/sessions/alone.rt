//! Whole sessions over bytes in memory, each alone at its desk. What is wanted was worked out by hand from the rules of lines and of motion.

use std::alloc::{AllocError, Global};
use std::process::Abort;
use std::sync::Wait;
use std::test::Fail;
use std::thread::Threads;
use street_desk::Desk;
use street_engine::{Engine, Unwatched};
use street_line::{Counted, DeskSession, run_alone};

/// One link of 10 cells that vehicles leave at its end, and a link after it.
const TEN_CELLS: &str =
    r#"{"cmd":"load","nodes":[[1,1,2],[2,1,2],[3,1,2]],"links":[[10,1,2,1,10,5],[20,2,3,1,10,5]],"turns":[[10,0,20,0]],"zone":0,"dawdle":0,"change":0,"seed":0}
"#;

const ELEVEN_CELLS: &str =
    r#"{"cmd":"load","nodes":[[1,1,2],[2,1,2],[3,1,2]],"links":[[10,1,2,1,11,5],[20,2,3,1,10,5]],"turns":[[10,0,20,0]],"zone":0,"dawdle":0,"change":0,"seed":0}
"#;

const ONE_CELL: &str =
    r#"{"cmd":"load","nodes":[[1,1,2],[2,1,2],[3,1,2]],"links":[[10,1,2,1,1,5],[20,2,3,1,10,5]],"turns":[[10,0,20,0]],"zone":0,"dawdle":0,"change":0,"seed":0}
"#;

/// The link of 10 cells, a step before the last clock.
const NEAR_THE_END: &str =
    r#"{"cmd":"load","nodes":[[1,1,2],[2,1,2],[3,1,2]],"links":[[10,1,2,1,10,5],[20,2,3,1,10,5]],"turns":[[10,0,20,0]],"zone":0,"dawdle":0,"change":0,"seed":0,"start":999999999}
"#;

const LOADED: &str = r#"{"links":2,"nodes":3,"turns":1}
"#;

const NOT_LOADED: &str = r#"{"error":1,"name":"NotLoaded"}
"#;

/// Puts a part behind a text, so many times.
fn push_times(text: &mut Vec<u8>, part: &[u8], times: u32) -> Result<(), AllocError> {
    for _ in 0..times {
        text.extend_from_slice(part)?;
    }
    Ok(())
}

/// The text of these parts, each so many times.
fn text_of(alloc: Global, parts: &[(&[u8], u32)]) -> Result<Vec<u8>, AllocError> {
    let mut text = Vec::new(alloc);
    for (part, times) in parts {
        push_times(&mut text, part, *times)?;
    }
    Ok(text)
}

/// What is written to these lines where nothing is loaded at first, unless a fault ends them.
fn replies<R: Threads + Wait + Abort + AllocGlobal + Sync>(
    rt: &R,
    session: &[u8],
) -> Option<Vec<u8>> {
    let engine = Engine::new(rt.alloc(), 1, Unwatched::new());
    let Ok((desk, pass)) = Desk::start(rt.alloc(), engine, 100, 1) else {
        panic!(rt; "no desk")
    };
    let mut own = DeskSession::new(rt, &desk, pass);
    let mut reader = Counted::new(session);
    let mut writer = Counted::new(Vec::new(rt.alloc()));
    match run_alone(rt.alloc(), &mut own, &mut reader, &mut writer) {
        Ok(_) => Some(writer.into_inner()),
        Err(_) => None,
    }
}

/// Whether no fault ended a session, and exactly these bytes were written.
fn is_written(output: Option<&Vec<u8>>, want: &[u8]) -> bool {
    match output {
        Some(output) => output.as_slice() == want,
        None => false,
    }
}

/// A session of these parts is answered by those.
fn check_session(
    rt: &(impl Threads + Abort + Wait + AllocGlobal + Sync),
    name: &str,
    parts: &[(&[u8], u32)],
    want: &[(&[u8], u32)],
) -> Result<(), Fail> {
    let session = text_of(rt.alloc(), parts)?;
    let want = text_of(rt.alloc(), want)?;
    let output = replies(rt, session.as_slice());
    assert!(rt; is_written(output.as_ref(), want.as_slice()), "at {name}");
    Ok(())
}

/// A load and the lines after it, and what is answered to those.
struct Session {
    name: &'static str,
    load: &'static str,
    lines: &'static str,
    replies: &'static str,
}

static SESSIONS: [Session; 9] = [
    Session {
        name: "arrives in step 4",
        load: TEN_CELLS,
        lines: r#"{"cmd":"enter","plan":[10],"lane":0,"depart":0}
{"cmd":"advance","steps":5}
{"cmd":"vehicle","car":0}
"#,
        replies: r#"{"car":0}
{"clock":5}
{"car":0,"state":"arrived","step":4}
"#,
    },
    Session {
        name: "step by step",
        load: TEN_CELLS,
        lines: r#"{"cmd":"enter","plan":[10],"lane":0,"depart":0}
{"cmd":"advance","steps":1}
{"cmd":"vehicle","car":0}
{"cmd":"advance","steps":1}
{"cmd":"vehicle","car":0}
{"cmd":"advance","steps":1}
{"cmd":"vehicle","car":0}
{"cmd":"advance","steps":1}
{"cmd":"vehicle","car":0}
{"cmd":"advance","steps":1}
{"cmd":"vehicle","car":0}
"#,
        replies: r#"{"car":0}
{"clock":1}
{"car":0,"cell":0,"lane":0,"link":10,"plan":[10],"speed":0,"state":"cell"}
{"clock":2}
{"car":0,"cell":1,"lane":0,"link":10,"plan":[10],"speed":1,"state":"cell"}
{"clock":3}
{"car":0,"cell":3,"lane":0,"link":10,"plan":[10],"speed":2,"state":"cell"}
{"clock":4}
{"car":0,"cell":6,"lane":0,"link":10,"plan":[10],"speed":3,"state":"cell"}
{"clock":5}
{"car":0,"state":"arrived","step":4}
"#,
    },
    Session {
        name: "one cell more, one step more",
        load: ELEVEN_CELLS,
        lines: r#"{"cmd":"enter","plan":[10],"lane":0,"depart":0}
{"cmd":"advance","steps":5}
{"cmd":"vehicle","car":0}
{"cmd":"advance","steps":1}
{"cmd":"vehicle","car":0}
"#,
        replies: r#"{"car":0}
{"clock":5}
{"car":0,"cell":10,"lane":0,"link":10,"plan":[10],"speed":4,"state":"cell"}
{"clock":6}
{"car":0,"state":"arrived","step":5}
"#,
    },
    Session {
        name: "a link of one cell",
        load: ONE_CELL,
        lines: r#"{"cmd":"enter","plan":[10],"lane":0,"depart":0}
{"cmd":"advance","steps":1}
{"cmd":"vehicle","car":0}
{"cmd":"advance","steps":1}
{"cmd":"vehicle","car":0}
"#,
        replies: r#"{"car":0}
{"clock":1}
{"car":0,"cell":0,"lane":0,"link":10,"plan":[10],"speed":0,"state":"cell"}
{"clock":2}
{"car":0,"state":"arrived","step":1}
"#,
    },
    Session {
        name: "no steps, and too many",
        load: TEN_CELLS,
        lines: r#"{"cmd":"advance","steps":0}
{"cmd":"advance","steps":10001}
"#,
        replies: r#"{"clock":0}
{"error":14,"name":"BadCount"}
"#,
    },
    Session {
        name: "through a buffer to the next link",
        load: TEN_CELLS,
        lines: r#"{"cmd":"enter","plan":[10,20],"lane":0,"depart":0}
{"cmd":"advance","steps":5}
{"cmd":"vehicle","car":0}
{"cmd":"advance","steps":1}
{"cmd":"vehicle","car":0}
{"cmd":"count"}
"#,
        replies: r#"{"car":0}
{"clock":5}
{"car":0,"lane":0,"link":10,"plan":[10,20],"ready":5,"speed":4,"state":"buffer"}
{"clock":6}
{"car":0,"cell":0,"lane":0,"link":20,"plan":[20],"speed":4,"state":"cell"}
{"admitted":1,"arrived":0,"buffers":0,"cells":1,"clock":6,"taken":0,"waiting":0}
"#,
    },
    Session {
        name: "red, closed, and taken out",
        load: TEN_CELLS,
        lines: r#"{"cmd":"signal","node":2,"offset":0,"phases":[[10,[]]]}
{"cmd":"close","link":20,"lane":0,"first":3,"last":5}
{"cmd":"reopen","link":20,"lane":0,"first":4,"last":9}
{"cmd":"lane","link":20,"lane":0}
{"cmd":"enter","plan":[10,20],"lane":0,"depart":0}
{"cmd":"advance","steps":6}
{"cmd":"lane","link":10,"lane":0}
{"cmd":"takeout","car":0}
{"cmd":"vehicle","car":0}
{"cmd":"takeout","car":0}
"#,
        replies: r#"{"cycle":10}
{"closed":3}
{"closed":1}
{"buffer":[],"cells":[],"closed":[[3,3]],"waiting":[]}
{"car":0}
{"clock":6}
{"buffer":[],"cells":[[0,9,0]],"closed":[],"waiting":[]}
{"taken":0}
{"car":0,"state":"taken","step":6}
{"error":11,"name":"Gone"}
"#,
    },
    Session {
        name: "a detector counts who passes",
        load: TEN_CELLS,
        lines: r#"{"cmd":"meter","link":10,"lane":0,"cell":3,"period":2}
{"cmd":"enter","plan":[10],"lane":0,"depart":0}
{"cmd":"advance","steps":5}
{"cmd":"read","meter":0}
{"cmd":"read","meter":1}
"#,
        replies: r#"{"meter":0}
{"car":0}
{"clock":5}
{"now":[4,1,0,0,0],"rows":[[0,0,0,0],[2,1,3,1]]}
{"error":12,"name":"NoMeter"}
"#,
    },
    Session {
        name: "up to the last clock",
        load: NEAR_THE_END,
        lines: r#"{"cmd":"advance","steps":2}
{"cmd":"advance","steps":1}
{"cmd":"advance","steps":0}
{"cmd":"advance","steps":1}
"#,
        replies: r#"{"error":15,"name":"ClockEnd"}
{"clock":1000000000}
{"clock":1000000000}
{"error":15,"name":"ClockEnd"}
"#,
    },
];

#[test]
fn sessions(rt: HostRuntime) -> Result<(), Fail> {
    for session in &SESSIONS {
        check_session(
            &rt,
            session.name,
            &[(session.load.as_bytes(), 1), (session.lines.as_bytes(), 1)],
            &[(LOADED.as_bytes(), 1), (session.replies.as_bytes(), 1)],
        )?;
    }
    Ok(())
}

/// Every command but a load, before any load.
#[test]
fn nothing_loaded(rt: HostRuntime) -> Result<(), Fail> {
    let session = r#"{"cmd":"count"}
{"cmd":"enter","plan":[10],"lane":0,"depart":0}
{"cmd":"advance","steps":1}
{"cmd":"vehicle","car":0}
{"cmd":"signal","node":1,"offset":0,"phases":[]}
{"cmd":"close","link":1,"lane":0,"first":0,"last":0}
{"cmd":"reopen","link":1,"lane":0,"first":0,"last":0}
{"cmd":"takeout","car":0}
{"cmd":"meter","link":1,"lane":0,"cell":0,"period":1}
{"cmd":"read","meter":0}
{"cmd":"lane","link":1,"lane":0}"#;
    check_session(
        &rt,
        "nothing loaded",
        &[(session.as_bytes(), 1)],
        &[(NOT_LOADED.as_bytes(), 11)],
    )
}

#[test]
fn empty_input(rt: HostRuntime) -> Result<(), Fail> {
    check_session(&rt, "no bytes", &[], &[])
}

/// A line that is too long, no UTF-8, no object, of a negative number; an unknown field; a last line with no line end.
#[test]
fn line_after_line(rt: HostRuntime) -> Result<(), Fail> {
    let rest = r#"
[]
{"cmd":"advance","steps":-1}
{"cmd":"count","x":[1]}
{"cmd":"count"}"#;
    let want = r#"{"error":22,"name":"LineTooLong"}
{"error":20,"name":"NotJson"}
{"error":21,"name":"BadCommand"}
{"error":21,"name":"BadCommand"}
"#;
    check_session(
        &rt,
        "line after line",
        &[(b"x", 1_048_577), (b"\n\xff", 1), (rest.as_bytes(), 1)],
        &[(want.as_bytes(), 1), (NOT_LOADED.as_bytes(), 2)],
    )
}

/// Lists as deep as the parser reads and deeper, and the longest line that is read.
#[test]
fn deep_and_long(rt: HostRuntime) -> Result<(), Fail> {
    let want = r#"{"error":21,"name":"BadCommand"}
{"error":20,"name":"NotJson"}
"#;
    check_session(
        &rt,
        "deep and long",
        &[
            (b"[", 100),
            (b"]", 100),
            (b"\n", 1),
            (b"[", 1_000),
            (b"]", 1_000),
            (b"\n", 1),
            (b" ", 1_048_561),
            (br#"{"cmd":"count"}"#, 1),
        ],
        &[(want.as_bytes(), 1), (NOT_LOADED.as_bytes(), 1)],
    )
}
