//! What is written of the steps of advances, by one caller and by workers that stay; what is wanted was worked out by hand.

use crate::scenes::{enter, one_link};
use crate::teams::begin;
use std::alloc::{AllocError, Global};
use std::io::Write;
use std::sync::Wait;
use std::test::Fail;
use std::thread::Threads;
use street_base::{Command, LAST_CLOCK};
use street_engine::{Engine, Unwatched};
use street_record::RecordWriter;

/// The blocks of six steps, a head or a row on each line: a vehicle comes into cell 0 of a link of ten cells, drives 1, 2 and 3 cells,
/// and leaves with 4 in the fifth step.
const SIX_STEPS: [[u32; 4]; 11] = [
    [1, 1, 0, 0],
    [0, 0, 0, 0],
    [2, 1, 0, 0],
    [0, 0, 1, 1],
    [3, 1, 0, 0],
    [0, 0, 3, 2],
    [4, 1, 0, 0],
    [0, 0, 6, 3],
    [5, 1, 1, 0],
    [0, 0, 4_294_967_295, 4],
    [6, 0, 1, 0],
];

/// Has an engine serve these commands, by its caller or by workers that stay, and a writer told of their steps.
fn serve<R: Threads + Wait + Sync, W: Write + Drop>(
    rt: &R,
    engine: &mut Engine<Unwatched>,
    told: RecordWriter<W>,
    stay: bool,
    commands: &[Command],
) -> RecordWriter<W> {
    let mut writer = told;
    for command in commands {
        let (_, _, next) = if stay {
            engine.apply_recording_by_team(rt, writer, command)
        } else {
            engine.apply_recording(rt, writer, command)
        };
        writer = next;
    }
    writer.write_out();
    writer
}

/// What is written while an engine serves advances of 1 and 5 steps, and, between them, one past the last clock and a count.
fn record<R: Threads + Wait + Sync + AllocGlobal>(
    rt: &R,
    stay: bool,
) -> Result<Vec<u8>, AllocError> {
    let mut bytes = Vec::new(rt.alloc());
    let mut engine = Engine::new(rt.alloc(), 1, Unwatched::new());
    engine.apply(rt, &one_link(rt.alloc(), 10)?);
    engine.apply(rt, &enter(rt.alloc(), &[10], 0)?);
    let commands = [
        Command::Advance { steps: 1 },
        Command::Advance {
            steps: u64::from(LAST_CLOCK) + 1,
        },
        Command::Count,
        Command::Advance { steps: 5 },
    ];
    let writer = RecordWriter::new(rt.alloc(), &mut bytes)?;
    let _ = serve(rt, &mut engine, writer, stay, &commands);
    Ok(bytes)
}

/// These numbers, least byte first.
fn bytes_of(alloc: Global, lines: &[[u32; 4]]) -> Result<Vec<u8>, AllocError> {
    let mut bytes = Vec::new(alloc);
    for [first, second, third, fourth] in lines {
        bytes.extend_from_slice(&first.to_le_bytes())?;
        bytes.extend_from_slice(&second.to_le_bytes())?;
        bytes.extend_from_slice(&third.to_le_bytes())?;
        bytes.extend_from_slice(&fourth.to_le_bytes())?;
    }
    Ok(bytes)
}

#[test]
fn each_step_has_its_block(rt: HostRuntime) -> Result<(), Fail> {
    let wanted = bytes_of(rt.alloc(), &SIX_STEPS)?;
    assert!(rt; record(&rt, false)?.as_slice() == wanted.as_slice());
    assert!(rt; record(&rt, true)?.as_slice() == wanted.as_slice());
    Ok(())
}

/// What is written of three advances of eight vehicles that drive around a ring, by so many workers, who share every step: threads that
/// stay for it, or that are started for each of its parts.
fn record_shared<R: Threads + Wait + Sync + AllocGlobal>(
    rt: &R,
    workers: u32,
    stay: bool,
) -> Result<Vec<u8>, AllocError> {
    let gate = Unwatched {
        from: 0,
        processors: 4,
    };
    let mut engine = Engine::new(rt.alloc(), workers.clamp(1, 64), gate);
    for command in begin(rt.alloc())?.as_slice() {
        let _answer = engine.apply(rt, command);
    }
    let commands = [
        Command::Advance { steps: 1 },
        Command::Advance { steps: 2 },
        Command::Advance { steps: 60 },
    ];
    let mut bytes = Vec::new(rt.alloc());
    let writer = RecordWriter::new(rt.alloc(), &mut bytes)?;
    let _ = serve(rt, &mut engine, writer, stay, &commands);
    Ok(bytes)
}

#[test]
fn steps_that_are_shared_have_the_same_blocks(rt: HostRuntime) -> Result<(), Fail> {
    let wanted = record_shared(&rt, 1, false)?;
    assert!(rt; wanted.len() > 63 * 16, "no rows in {} bytes", wanted.len());
    for workers in [2, 3, 4, 64] {
        for stay in [false, true] {
            let got = record_shared(&rt, workers, stay)?;
            assert!(rt; got.as_slice() == wanted.as_slice(), "{workers} workers");
        }
    }
    Ok(())
}
