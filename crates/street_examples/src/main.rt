//! The sessions of documents and of folders of examples: each is served by 1, 2, 3 and 64 workers in turn, as the program
//! serves it and then with every step shared, on threads, and its replies are compared with those that stand beside it.
//!
//! Each word of the command line is a document `NAME.md`, or a folder whose files `NAME.jsonl` and `NAME.out` are the lines
//! and the replies of a session. The status is 1 where a session is answered otherwise.
#![tactic(auto)]

ghost use Rattle.std.specs.Prelude.{◌≤◌};
ghost use Rattle.street_base.specs.Prelude.{most_workers};

mod document;
mod engine_answers;
mod folder;
mod session;

use engine_answers::answers;
use session::{Session, same_lines};
use std::process::ExitCode;
use std::thread::Threads;
use std::{env, fs, io};
use street_engine::Unwatched;

fn main(rt: HostRuntime) -> ExitCode {
    let agree = match named_sessions(&rt) {
        Ok(sessions) => report(&rt, sessions.as_slice()),
        Err(error) => Err(error),
    };
    match agree {
        Ok(true) => ExitCode::SUCCESS,
        Ok(false) => ExitCode::FAILURE,
        Err(error) => {
            // Where standard error fails too, the status alone tells the fault.
            let _ = eprintln!(rt; "street_examples: {error}");
            ExitCode::FAILURE
        }
    }
}

/// The sessions that the words of the command line name, in their order.
fn named_sessions(rt: &HostRuntime) -> io::Result<Vec<Session>> {
    let words: Vec<String> = env::args(rt)?.collect(rt.alloc())?;
    let mut sessions = Vec::new(rt.alloc());
    for word in words.iter().skip(1) {
        let mut found = if word.ends_with(".md") {
            let text = fs::read_to_string(rt, word)?;
            document::sessions_of(rt.alloc(), word, text.as_str())?
        } else {
            folder::sessions_of(rt, word)?
        };
        sessions.append(&mut found)?;
    }
    Ok(sessions)
}

/// How many workers serve each session in turn.
const WORKERS: [u32; 4] = [1, 2, 3, 64];

/// Where a session is answered otherwise than it should be.
struct Difference {
    /// How many workers served it.
    workers: u32,
    /// Whether they shared every step.
    shared: bool,
    /// How many replies agree before the first that does not.
    same: usize,
}

/// How many replies agree before the first that does not, if one does not. Each step is shared among the workers, or only
/// those that the program shares.
fn same_before<R: Threads + Sync + AllocGlobal>(
    rt: &R,
    session: &Session,
    workers: u32,
    shared: bool,
) -> io::Result<Option<usize>>
    requires { (1 ≤ workers) × (workers ≤ most_workers) }
{
    let gate = if shared {
        Unwatched {
            from: 0,
            processors: 1,
        }
    } else {
        Unwatched::new()
    };
    let answered = answers(rt, rt.alloc(), workers, gate, session.lines.as_slice())?;
    if answered == session.replies {
        return Ok(None);
    }
    Ok(Some(same_lines(answered.as_slice(), session.replies.as_slice())))
}

/// Serves a session by each number of workers.
fn first_difference<R: Threads + Sync + AllocGlobal>(
    rt: &R,
    session: &Session,
) -> io::Result<Option<Difference>> {
    for workers in WORKERS {
        for shared in [false, true] {
            if let Some(same) = same_before(rt, session, workers, shared)? {
                return Ok(Some(Difference {
                    workers,
                    shared,
                    same,
                }));
            }
        }
    }
    Ok(None)
}

/// Serves each session, and tells whether it agrees, and at the end how many do. Whether all do.
fn report<R: Threads + Sync + Print + AllocGlobal>(
    rt: &R,
    sessions: &[Session],
) -> io::Result<bool> {
    let mut agreeing: usize = 0;
    for session in sessions {
        match first_difference(rt, session)? {
            None => {
                agreeing = agreeing.saturating_add(1);
                println!(rt; "{}: agrees", session.name)?;
            }
            Some(
                Difference {
                    workers,
                    shared,
                    same,
                },
            ) => {
                let how = if shared { ", on threads" } else { "" };
                println!(rt;
                    "{}: differs after {same} replies, served by {workers}{how}",
                    session.name
                )?;
            }
        }
    }
    println!(rt; "{agreeing} of {} sessions agree", sessions.len())?;
    Ok(agreeing == sessions.len())
}
