//! Scripts: files of commands, each served as a session on a thread of its own. `street_runs` opens the scripts of the command
//! line and has them answered.
ghost use Rattle.std.specs.Prelude.{◌≡◌, ◌↔◌, ◌⊎◌, ◌<◌, ◌≤◌, ℕ, [], All, IfSome, IsNone, IsSome, length, slice_index_or};
ghost use Rattle.street_base.specs.Prelude.{most_reads};
ghost use Rattle.street_desk.specs.Passes.{DeskView};
ghost use Rattle.street_stream.specs.Streams.{IsFresh};
ghost use Rattle.street_stream.specs.declared.tally.FaultKind.TheVariants as kinds;
ghost use Rattle.street_line.specs.declared.script.Script.{Script};
ghost use Rattle.street_line.specs.Scripts.{IsRun, ReaderServed, IsCausedInMemory, in_memory as memory_kind};

use crate::session::DeskSession;
use crate::{Counted, FaultKind, run_lines};
use std::alloc::Global;
use std::fs::File;
use std::io::{ErrorKind, Read};
use std::rt::Files;
use std::sync::Wait;
use std::thread;
use std::thread::Threads;

/// A file of commands, with the session that serves it.
#[derive(Drop)]
pub struct Script<'a, R: Threads + Wait + Sync> {
    /// The file, until it is served.
    pub file: Option<File>,
    /// Who calls.
    pub session: DeskSession<'a, R>,
    /// The lines of reply.
    pub replies: Vec<u8>,
    /// What ended the script before its file did: `Read` where the file could not be opened or read, `Starved`, or
    /// `Endless`. No script has `Write`.
    pub fault: Option<FaultKind>,
}

impl<'a, R: Threads + Wait + Sync> Script<'a, R> {
    /// A script whose file is opened, or has the fault that it could not be.
    pub fn open<F: Files<File = File>>(
        files: &F,
        alloc: Global,
        name: &str,
        session: DeskSession<'a, R>,
    ) -> Script<'a, R>
        ensures session { result.session ≡ session.entry }
        ensures replies { result.replies.items ≡ [] }
        ensures fault { IsNone result.fault ↔ IsSome result.file }
        ensures kinds { IfSome result.fault (λ kind. (kind ≡ kinds.Read) ⊎ (kind ≡ kinds.Starved)) }
    {
        let (file, fault) = match File::open(files, name) {
            Ok(file) => (Some(file), None),
            Err(error) if error.kind() == ErrorKind::OutOfMemory => (
                None,
                Some(FaultKind::Starved),
            ),
            Err(_) => (None, Some(FaultKind::Read)),
        };
        Script {
            file,
            session,
            replies: Vec::new(alloc),
            fault,
        }
    }

    /// Serves all lines of the file, if it was opened and not served yet, and keeps the replies and what ended them before the file
    /// did.
    fn run(&mut self, alloc: Global)
        ensures desk { self.new.session.desk ≡ self.old.session.desk }
        ensures run { IsRun self.old self.new }
    {
        if let Some(file) = self.file.take() {
            let mut reader = Counted::new(file);
            (self.replies, self.fault) = answer_all(alloc, &mut self.session, &mut reader);
        }
    }
}

/// The replies to the lines that a reader gives, and what ended them before the reader did. They are served as `run_lines` does:
/// each command is a call of the pass, beside the desk's other callers, and its reply is the machine's at the point where the
/// call stands in the desk's one history. Lack of memory to keep the replies is told as that, and never as a failed write. The
/// reader is fresh: nothing was called of it yet.
pub fn answer_all<R: Threads + Wait + Sync, D: Read>(
    alloc: Global,
    session: &mut DeskSession<'_, R>,
    reader: &mut Counted<D>,
) -> (Vec<u8>, Option<FaultKind>)
    requires reader { IsFresh reader.old }
    ensures desk { session.new.desk ≡ session.old.desk }
    ensures served { ReaderServed session.old (D.remaining reader.old.stream) (D.remaining reader.new.stream)
        result.0.items result.1 session.new }
    ensures caused { IfSome result.1 (λ kind. IsCausedInMemory kind reader.new most_reads) }
    ensures bounded { reader.new.calls ≤ most_reads }
{
    let mut writer = Counted::new(Vec::new(alloc));
    match run_lines(alloc, session, reader, &mut writer) {
        Ok(_) => (writer.into_inner(), None),
        Err(fault) => (writer.into_inner(), Some(in_memory(fault.kind))),
    }
}

/// The fault of a run whose replies go to memory: a write fails there for lack of memory alone, and is told as that.
fn in_memory(kind: FaultKind) -> FaultKind
    ensures { result ≡ memory_kind kind }
{
    match kind {
        FaultKind::Write => FaultKind::Starved,
        other => other,
    }
}

/// Serves each script on a thread of its own; one for which no thread can be started is served after another, on a thread
/// that is there. Returns when all have ended.
pub fn run_scripts<R: Threads + Wait + Sync>(rt: &R, alloc: Global, scripts: &mut [Script<'_, R>])
    ensures each { (i : ℕ) (d : Script R) → i < length scripts.old → IsRun (slice_index_or scripts.old i d) (slice_index_or scripts.new i d) }
    ensures same { length scripts.new ≡ length scripts.old }
    ensures desks { (desk : DeskView) → All (λ s. s.session.desk ≡ desk) scripts.old → All (λ s. s.session.desk ≡ desk) scripts.new }
{
    let threads = scripts.len();
    if threads > 0 {
        thread::for_each_mut(
            rt,
            scripts,
            threads,
            &|_, script: &mut Script<'_, R>| script.run(alloc),
        );
    }
}
