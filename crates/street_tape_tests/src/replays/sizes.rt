//! A vehicle of three cells on tapes of both versions, with as many calls as the first line tells, fewer and more.

use crate::memory_streams::FailingWriter;
use crate::replays::runs::{Ran, replayed, upgraded};
use std::alloc::{AllocError, Global};
use std::process::Abort;
use std::test::Fail;
use street_tape::TapeFault;

/// A network is loaded, and a vehicle of three cells enters.
static CALLS: &str = concat!(
    r#"{"command":{"change":0,"cmd":"load","dawdle":0,"links":[[10,1,2,1,10,5],[20,2,3,1,10,5]],"nodes":[[1,1,2],[2,1,2],[3,1,2]],"seed":0,"start":0,"turns":[[10,0,20,0]],"zone":0},"outcome":"whole","session":0}"#,
    "\n",
    r#"{"command":{"cmd":"enter","depart":0,"lane":0,"plan":[10],"size":3},"outcome":"whole","session":0}"#,
    "\n",
);

/// The same calls of a vehicle of one cell.
static SHORT_CALLS: &str = concat!(
    r#"{"command":{"change":0,"cmd":"load","dawdle":0,"links":[[10,1,2,1,10,5],[20,2,3,1,10,5]],"nodes":[[1,1,2],[2,1,2],[3,1,2]],"seed":0,"start":0,"turns":[[10,0,20,0]],"zone":0},"outcome":"whole","session":0}"#,
    "\n",
    r#"{"command":{"cmd":"enter","depart":0,"lane":0,"plan":[10]},"outcome":"whole","session":0}"#,
    "\n",
);

/// The vehicle is asked for.
static ASKED: &str = r#"{"command":{"car":0,"cmd":"vehicle"},"outcome":"whole","session":0}"#;

static LOADED: &str = "{\"links\":2,\"nodes\":3,\"turns\":1}\n";

static ENTERED: &str = "{\"links\":2,\"nodes\":3,\"turns\":1}\n{\"car\":0}\n";

static SHORT_WAITS: &str = concat!(
    "{\"links\":2,\"nodes\":3,\"turns\":1}\n{\"car\":0}\n",
    r#"{"car":0,"depart":0,"lane":0,"link":10,"plan":[10],"state":"waiting"}"#,
    "\n",
);

static LONG_WAITS: &str = concat!(
    "{\"links\":2,\"nodes\":3,\"turns\":1}\n{\"car\":0}\n",
    r#"{"car":0,"depart":0,"lane":0,"link":10,"plan":[10],"size":3,"state":"waiting"}"#,
    "\n",
);

/// These texts, one behind the other.
fn joined(alloc: Global, parts: &[&str]) -> Result<Vec<u8>, AllocError> {
    let mut text = Vec::new(alloc);
    for part in parts {
        text.extend_from_slice(part.as_bytes())?;
    }
    Ok(text)
}

/// Exactly this was written, and this fault told.
fn check_ran(rt: &impl Abort, ran: &Ran, fault: Option<TapeFault>, output: &str) {
    assert_eq!(rt; ran.fault, fault);
    assert_eq!(rt; ran.taken.as_slice(), output.as_bytes());
}

#[test]
fn in_version_1_a_vehicle_has_one_cell(rt: HostRuntime) -> Result<(), Fail> {
    let alloc = rt.alloc();
    let tape = joined(alloc, &["{\"tape\":1}\n", CALLS, ASKED])?;
    let ran = replayed(
        &rt,
        alloc,
        tape.as_slice(),
        50,
        FailingWriter::all(alloc),
        1000,
    );
    check_ran(&rt, &ran, None, SHORT_WAITS);
    Ok(())
}

#[test]
fn in_version_2_it_has_its_size(rt: HostRuntime) -> Result<(), Fail> {
    let alloc = rt.alloc();
    let tape = joined(alloc, &["{\"calls\":3,\"tape\":2}\n", CALLS, ASKED])?;
    let ran = replayed(
        &rt,
        alloc,
        tape.as_slice(),
        50,
        FailingWriter::all(alloc),
        1000,
    );
    check_ran(&rt, &ran, None, LONG_WAITS);
    Ok(())
}

/// Two calls after a first line that tells three, and one.
#[test]
fn missing_calls_and_calls_too_many_are_bad(rt: HostRuntime) -> Result<(), Fail> {
    let alloc = rt.alloc();
    let tape = joined(alloc, &["{\"calls\":3,\"tape\":2}\n", CALLS])?;
    let ran = replayed(
        &rt,
        alloc,
        tape.as_slice(),
        50,
        FailingWriter::all(alloc),
        1000,
    );
    check_ran(&rt, &ran, Some(TapeFault::BadEntry { line: 4 }), ENTERED);
    let tape = joined(alloc, &["{\"calls\":1,\"tape\":2}\n", CALLS])?;
    let ran = replayed(
        &rt,
        alloc,
        tape.as_slice(),
        50,
        FailingWriter::all(alloc),
        1000,
    );
    check_ran(&rt, &ran, Some(TapeFault::BadEntry { line: 3 }), LOADED);
    Ok(())
}

/// So an upgrade tells them, and writes nothing.
#[test]
fn an_upgrade_counts_calls(rt: HostRuntime) -> Result<(), Fail> {
    let alloc = rt.alloc();
    let tape = joined(alloc, &["{\"calls\":3,\"tape\":2}\n", CALLS])?;
    let ran = upgraded(alloc, tape.as_slice(), 50, FailingWriter::all(alloc), 1000);
    check_ran(&rt, &ran, Some(TapeFault::BadEntry { line: 4 }), "");
    let tape = joined(alloc, &["{\"calls\":1,\"tape\":2}\n", CALLS])?;
    let ran = upgraded(alloc, tape.as_slice(), 50, FailingWriter::all(alloc), 1000);
    check_ran(&rt, &ran, Some(TapeFault::BadEntry { line: 3 }), "");
    Ok(())
}

/// What this tape is upgraded to.
fn check_upgrade(rt: &(impl Abort + AllocGlobal), head: &str, calls: &str) -> Result<(), Fail> {
    let alloc = rt.alloc();
    let tape = joined(alloc, &[head, CALLS])?;
    let ran = upgraded(alloc, tape.as_slice(), 50, FailingWriter::all(alloc), 1000);
    assert_eq!(rt; ran.fault, None);
    let wanted = joined(alloc, &["{\"calls\":2,\"tape\":2}\n", calls])?;
    assert_eq!(rt; ran.taken.as_slice(), wanted.as_slice());
    Ok(())
}

/// No size of version 1 is kept.
#[test]
fn an_upgrade_keeps_only_sizes_that_were_read(rt: HostRuntime) -> Result<(), Fail> {
    check_upgrade(&rt, "{\"tape\":1}\n", SHORT_CALLS)?;
    check_upgrade(&rt, "{\"calls\":2,\"tape\":2}\n", CALLS)
}
