//! Clients of one desk: standard input, or scripts. `main` calls them.
ghost use Rattle.std.specs.Io.KnownBytes.{Appends};
ghost use Rattle.std.specs.Prelude.{◌≡◌, ◌<◌, ◌≤◌, All, IfOk, IfErr, IsNone, OnOk, OnErr, length, slice_index_or, vec_len};
ghost use Rattle.street_base.specs.Prelude.{most_calls, most_reads, most_sessions, most_workers};
ghost use Rattle.street_desk.specs.History.{BeginsWith};
ghost use Rattle.street_desk.specs.Passes.{DeskView, Same, first_pass};
ghost use Rattle.street_line.specs.declared.script.Script.{Script};
ghost use Rattle.street_line.specs.Sessions.{IsAlone};
ghost use Rattle.street_line.specs.Streams.{AloneServesLines};
ghost use Rattle.street_runs.specs.Outputs.{IsBegun, IsPrinted, TellsOutput, replies_of};
ghost use Rattle.street_runs.specs.Scripts.{AreOpened, ArePassesFrom, ArePlayed, AreRun, IsFirstFault, Tells};
ghost use Rattle.street_runs.specs.Taped.{InputTaped, ScriptsTaped};
ghost use Rattle.street_runs.specs.Words.{IsInRange};
ghost use Rattle.street_stream.specs.Streams.{HasFailed, IsFlushed, IsFresh, IsPrompt};

use crate::engines::staying_engine;
use crate::outputs::{pass_on, write_out};
use crate::taped::{TapeFile, TapeOpener, end_session, told_run};
use crate::{ProgramFault, ProgramOptions};
use std::alloc::Global;
use std::fs::File;
use std::io;
use std::io::{BufWriter, Read, Write};
use std::rt::Files;
use std::sync::Wait;
use std::thread::Threads;
use street_base::Starved;
use street_desk::{Desk, Pass};
use street_engine::Unwatched;
use street_line::{Counted, DeskSession, RunFault, Script, Tally, run_alone, run_scripts};

/// Serves standard input as one session, writes each reply as it comes, and at the end the tape, if one is asked for.
///
/// # Errors
///
/// The fault of the session, else that of the tape.
pub fn serve_input<'a, R: Threads + Wait + Sync + Input + Print + AllocGlobal + Files<File = File>>(
    rt: &R,
    options: &ProgramOptions<'a>,
) -> Result<(), ProgramFault<'a>>
    requires { IsInRange options.now }
{
    let alloc = rt.alloc();
    let Ok(output) = BufWriter::new(alloc, io::writer(rt)) else {
        return Err(Starved.into());
    };
    let mut reader = Counted::new(rt.reader());
    let mut writer = Counted::new(output);
    let opener = TapeFile { rt, scripts: &[] };
    let (served, _tape) = serve_to_tape(
        rt,
        alloc,
        options.workers,
        options.calls,
        &mut reader,
        &mut writer,
        &opener,
        options.tape,
    )?;
    served
}

/// Serves the lines of a text at a desk as [`serve_alone`] does, then flushes, and writes the tape of that session, if one of this name
/// is asked for. The fault is the session's, else the tape's. What the tape was written to is given back.
///
/// # Errors
///
/// No memory for the desk: nothing was read or written.
pub fn serve_to_tape<
    'a,
    R: Threads + Wait + Sync,
    D: Read,
    W: Write,
    T: Write + Drop,
    O: TapeOpener<T>,
>(
    rt: &R,
    alloc: Global,
    workers: u32,
    calls: u64,
    reader: &mut Counted<D>,
    writer: &mut Counted<W>,
    opener: &O,
    name: Option<&'a str>,
) -> Result<(Result<(), ProgramFault<'a>>, Option<Counted<T>>), Starved>
    requires workers { (1 ≤ workers) × (workers ≤ most_workers) }
    requires calls { (1 ≤ calls) × (calls ≤ most_calls) }
    requires reader { IsFresh reader.old }
    requires writer { IsFresh writer.old }
    ensures taped { IfOk result (λ r. InputTaped T.contents (O.start opener.now) (O.fails opener.now) D.remaining W.contents calls
        reader.old reader.new writer.old writer.new name.entry r.0 r.1) }
    ensures prompt { OnOk result (IsPrompt reader.new) }
    ensures starved { OnErr result ((reader.new ≡ reader.old) × (writer.new ≡ writer.old)) }
{
    let (run, desk, pass) = serve_alone(rt, alloc, workers, calls, reader, writer)?;
    let served = told_run(&run);
    // After a fault it holds the replies to the lines that came in the last read.
    let _ = writer.flush();
    Ok(end_session(alloc, served, desk, pass, opener, name))
}

/// Serves the lines of a text as the one session of a new desk, with a place for so many calls, as [`run_alone`] does from nothing
/// loaded. It returns how the run went, the desk, and the pass that has seen its calls.
///
/// # Errors
///
/// No memory for the desk: nothing was read or written.
pub fn serve_alone<R: Threads + Wait + Sync, D: Read, W: Write>(
    rt: &R,
    alloc: Global,
    workers: u32,
    calls: u64,
    reader: &mut Counted<D>,
    writer: &mut Counted<W>,
) -> Result<(Result<Tally, RunFault>, Desk<Unwatched>, Pass<Unwatched>), Starved>
    requires workers { (1 ≤ workers) × (workers ≤ most_workers) }
    requires calls { (1 ≤ calls) × (calls ≤ most_calls) }
    requires reader { IsFresh reader.old }
    requires writer { IsFresh writer.old }
    ensures runs { IfOk result (λ r. AloneServesLines D.remaining W.contents most_reads
        (first_pass r.1) reader.old writer.old r.0 r.2 reader.new writer.new) }
    ensures prompt { IfOk result (λ r. IsPrompt reader.new × OnOk r.0 (IsFlushed writer.new)) }
    ensures desk { IfOk result (λ r. (r.1.calls ≡ calls) × (r.2.desk ≡ r.1) × IsAlone r.2) }
    ensures starved { OnErr result ((reader.new ≡ reader.old) × (writer.new ≡ writer.old)) }
{
    let engine = staying_engine(rt, alloc, workers);
    let (desk, pass) = Desk::start(alloc, engine, calls, 1)?;
    let mut session = DeskSession::new(rt, &desk, pass);
    let run = run_alone(alloc, &mut session, reader, writer);
    let pass = session.into_pass();
    Ok((run, desk, pass))
}

/// Serves each script as a session with a thread of its own. When all have ended, their replies are written in the order of
/// the scripts, and then the tape, if one is asked for, also after a fault.
///
/// # Errors
///
/// The first fault of a script in their order, else that of standard output, else that of the tape.
pub fn serve_scripts<'a, R: Threads + Wait + Sync + Print + AllocGlobal + Files<File = File>>(
    rt: &R,
    options: &ProgramOptions<'a>,
) -> Result<(), ProgramFault<'a>>
    requires range { IsInRange options.now }
    requires some { 0 < vec_len options.now.scripts }
{
    let alloc = rt.alloc();
    let mut writer = Counted::new(io::writer(rt));
    let opener = TapeFile {
        rt,
        scripts: options.scripts.as_slice(),
    };
    let (served, _tape) = play_to_tape(
        rt,
        alloc,
        options.workers,
        options.calls,
        options.scripts.as_slice(),
        &mut writer,
        &opener,
        options.tape,
    )?;
    served
}

/// Serves scripts at a desk as [`serve_named`] does, and writes the desk's tape, if one of this name is asked for. The fault is the
/// first of the scripts or of the writer, else the tape's. What the tape was written to is given back.
///
/// # Errors
///
/// No memory for the desk or the scripts: no line was served, and nothing was written.
pub fn play_to_tape<
    'a,
    R: Threads + Wait + Sync + Files<File = File>,
    W: Write,
    T: Write + Drop,
    O: TapeOpener<T>,
>(
    rt: &R,
    alloc: Global,
    workers: u32,
    calls: u64,
    names: &[&'a str],
    writer: &mut Counted<W>,
    opener: &O,
    name: Option<&'a str>,
) -> Result<(Result<(), ProgramFault<'a>>, Option<Counted<T>>), Starved>
    requires workers { (1 ≤ workers) × (workers ≤ most_workers) }
    requires calls { (1 ≤ calls) × (calls ≤ most_calls) }
    requires names { (1 ≤ length names.now) × (length names.now ≤ most_sessions) }
    requires writer { IsFresh writer.old }
    ensures taped { IfOk result (λ r. ScriptsTaped T.contents (O.start opener.now) (O.fails opener.now) R W.contents calls names.now
        writer.old writer.new name.entry r.0 r.1) }
    ensures starved { OnErr result (writer.new ≡ writer.old) }
{
    let (served, desk, pass) = serve_named(rt, alloc, workers, calls, names, writer)?;
    Ok(end_session(alloc, served, desk, pass, opener, name))
}

/// Serves each script as a session of a new desk, and writes their replies. It returns what went wrong first, the desk, and
/// the first script's pass, which has heard of what every script was told.
///
/// # Errors
///
/// No memory for the desk or the scripts: no line was served, and nothing was written.
pub fn serve_named<'a, R: Threads + Wait + Sync + Files<File = File>, W: Write>(
    rt: &R,
    alloc: Global,
    workers: u32,
    calls: u64,
    names: &[&'a str],
    writer: &mut Counted<W>,
) -> Result<
    (
        Result<(), ProgramFault<'a>>,
        Desk<Unwatched>,
        Pass<Unwatched>,
    ),
    Starved,
>
    requires workers { (1 ≤ workers) × (workers ≤ most_workers) }
    requires calls { (1 ≤ calls) × (calls ≤ most_calls) }
    requires names { (1 ≤ length names.now) × (length names.now ≤ most_sessions) }
    requires writer { IsFresh writer.old }
    ensures desk { IfOk result (λ r. (r.1.calls ≡ calls) × (r.1.sessions ≡ length names.now) × (r.2.desk ≡ r.1)) }
    ensures played { IfOk result (λ r. ArePlayed R r.1 names.now (W.contents writer.old.stream) (W.contents writer.new.stream)
        writer.new r.0 r.2) }
    ensures starved { OnErr result (writer.new ≡ writer.old) }
{
    let engine = staying_engine(rt, alloc, workers);
    let (desk, pass) = Desk::start(alloc, engine, calls, names.len() as u64)?;
    let (served, pass) = serve_at(rt, alloc, &desk, pass, names, writer)?;
    Ok((served, desk, pass))
}

/// Serves each script as a session of this desk, of which nobody has called yet, and writes their replies. It returns what
/// went wrong first, and the first script's pass, which has heard of what every script was told.
///
/// # Errors
///
/// No memory for the scripts: no line was served, and nothing was written.
fn serve_at<'a, R: Threads + Wait + Sync + Files<File = File>, W: Write>(
    rt: &R,
    alloc: Global,
    desk: &Desk<Unwatched>,
    pass: Pass<Unwatched>,
    names: &[&'a str],
    writer: &mut Counted<W>,
) -> Result<(Result<(), ProgramFault<'a>>, Pass<Unwatched>), Starved>
    requires pass { (pass ≡ first_pass desk.now) × (desk.now.sessions ≡ length names.now) }
    requires some { 1 ≤ length names.now }
    requires writer { IsFresh writer.old }
    ensures desk { IfOk result (λ r. r.1.desk ≡ desk.now) }
    ensures played { IfOk result (λ r. ArePlayed R desk.now names.now (W.contents writer.old.stream) (W.contents writer.new.stream)
        writer.new r.0 r.1) }
    ensures starved { OnErr result (writer.new ≡ writer.old) }
{
    let mut scripts = open_scripts(rt, alloc, desk, pass, names)?;
    let served = answer_scripts(rt, alloc, &mut scripts, names, writer);
    let pass = told_pass(desk, scripts);
    Ok((served, pass))
}

/// Serves each script, and then writes the replies of all in their order, also after a fault.
///
/// # Errors
///
/// The first fault of a script in their order, else that of the writer.
fn answer_scripts<'a, R: Threads + Wait + Sync, W: Write>(
    rt: &R,
    alloc: Global,
    scripts: &mut [Script<'_, R>],
    names: &[&'a str],
    writer: &mut Counted<W>,
) -> Result<(), ProgramFault<'a>>
    requires names { length scripts.old ≡ length names.now }
    requires writer { IsFresh writer.old }
    ensures run { AreRun scripts.old scripts.new }
    ensures desks { (desk : DeskView) → All (λ s. s.session.desk ≡ desk) scripts.old → All (λ s. s.session.desk ≡ desk) scripts.new }
    ensures printed { IsPrinted (W.contents writer.old.stream) (W.contents writer.new.stream) (replies_of scripts.new) writer.new }
    ensures told { Tells scripts.new names.now (W.contents writer.old.stream) (W.contents writer.new.stream) writer.new result }
{
    run_scripts(rt, alloc, scripts);
    let served = first_fault(scripts, names);
    let printed = print_replies(writer, scripts);
    served.and(printed)
}

/// A pass for each of so many sessions, 1 or more, that of the last first, as a pass gives away the greatest of its sessions.
///
/// # Errors
///
/// `Starved` where there was no memory for their list.
fn passes_of(
    alloc: Global,
    desk: &Desk<Unwatched>,
    mut pass: Pass<Unwatched>,
    sessions: usize,
) -> Result<Vec<Pass<Unwatched>>, Starved>
    requires pass { (pass ≡ first_pass desk.now) × (desk.now.sessions ≡ sessions) }
    requires some { 0 < sessions }
    ensures each { IfOk result (λ passes. vec_len passes ≡ sessions) }
    ensures places { IfOk result (λ passes. ArePassesFrom desk.now sessions passes.items) }
{
    let mut passes = Vec::new(alloc);
    while passes.len() + 1 < sessions {
        let Ok(last) = desk.split(&mut pass) else {
            return Err(Starved);
        };
        passes.push(last)?;
    }
    passes.push(pass)?;
    Ok(passes)
}

/// The scripts of these names, in order, each with its file opened, and its place among them as the number of its session. One
/// whose file can not be opened has that fault.
///
/// # Errors
///
/// `Starved` where there was no memory for their list, or for that of their passes.
fn open_scripts<'a, R: Threads + Wait + Sync + Files<File = File>>(
    rt: &'a R,
    alloc: Global,
    desk: &'a Desk<Unwatched>,
    pass: Pass<Unwatched>,
    names: &[&str],
) -> Result<Vec<Script<'a, R>>, Starved>
    requires pass { (pass ≡ first_pass desk.now) × (desk.now.sessions ≡ length names.now) }
    requires some { 0 < length names.now }
    ensures each { IfOk result (λ scripts. vec_len scripts ≡ length names.now) }
    ensures opened { IfOk result (λ scripts. AreOpened desk.now scripts.items) }
{
    let mut passes = passes_of(alloc, desk, pass, names.len())?;
    let mut scripts = Vec::new(alloc);
    while let Some(pass) = passes.pop() {
        let session = DeskSession::new(rt, desk, pass);
        let script = Script::open(rt, alloc, names[scripts.len()], session);
        scripts.push(script)?;
    }
    Ok(scripts)
}

/// Whether scripts were served to their end.
///
/// # Errors
///
/// The fault of the first of them that has one, with its name among `names`, which are in the order of the scripts.
fn first_fault<'a, R: Threads + Wait + Sync>(
    scripts: &[Script<'_, R>],
    names: &[&'a str],
) -> Result<(), ProgramFault<'a>>
    requires { length scripts.now ≡ length names.now }
    ensures none { OnOk result (All (λ s. IsNone s.fault) scripts.now) }
    ensures first { IfErr result (λ fault. IsFirstFault scripts.now names.now fault) }
{
    for (script, name) in scripts.iter().zip(names) {
        if let Some(kind) = script.fault {
            return Err(ProgramFault::of_run(kind, name, name));
        }
    }
    Ok(())
}

/// Writes the replies of scripts, in their order, and flushes.
///
/// # Errors
///
/// `Write` of standard output: the replies are written up to some byte.
fn print_replies<R: Threads + Wait + Sync, W: Write>(
    writer: &mut Counted<W>,
    scripts: &[Script<'_, R>],
) -> Result<(), ProgramFault<'static>>
    ensures written { OnOk result (Appends (W.contents writer.old.stream) (W.contents writer.new.stream) (replies_of scripts.now)) }
    ensures flushed { OnOk result (IsFlushed writer.new) }
    ensures part { OnErr result (IsBegun (W.contents writer.old.stream) (W.contents writer.new.stream) (replies_of scripts.now)) }
    ensures failed { IfErr result (λ fault. HasFailed writer.new × TellsOutput fault) }
{
    for script in scripts {
        write_out(writer, script.replies.as_slice())?;
    }
    pass_on(writer)?;
    Ok(())
}

/// The first script's pass, when it has heard a note of every other's, so that the desk can be ended with it. A note takes no
/// memory, so none is left out.
fn told_pass<R: Threads + Wait + Sync>(
    desk: &Desk<Unwatched>,
    mut scripts: Vec<Script<'_, R>>,
) -> Pass<Unwatched>
    requires some { 0 < vec_len scripts }
    requires desk { All (λ s. s.session.desk ≡ desk.now) scripts.items }
    ensures desk { result.desk ≡ desk.now }
    ensures least { (d : Script R) → result.least ≡ (slice_index_or scripts.entry.items 0 d).session.least }
    ensures told { All (λ s. BeginsWith result.seen s.session.seen) scripts.entry.items }
{
    let mut pass = pass_of(scripts.remove(0));
    hear_all(desk, &mut pass, scripts);
    pass
}

/// Has a pass hear a note of each of these scripts' passes, so that it has seen all that they were told.
fn hear_all<R: Threads + Wait + Sync>(
    desk: &Desk<Unwatched>,
    pass: &mut Pass<Unwatched>,
    mut scripts: Vec<Script<'_, R>>,
)
    requires pass { pass.old.desk ≡ desk.now }
    requires scripts { All (λ s. s.session.desk ≡ desk.now) scripts.items }
    ensures same { Same pass.old pass.new }
    ensures kept { BeginsWith pass.new.seen pass.old.seen }
    ensures told { All (λ s. BeginsWith pass.new.seen s.session.seen) scripts.entry.items }
{
    while let Some(script) = scripts.pop() {
        hear_of(desk, pass, pass_of(script));
    }
}

/// The pass of a script that is done; its replies and fault are dropped.
fn pass_of<R: Threads + Wait + Sync>(script: Script<'_, R>) -> Pass<Unwatched>
    ensures { result ≡ script.entry.session }
{
    let Script { session, .. } = script;
    session.into_pass()
}

/// Has a pass hear a note of another of the same desk, so that it has seen all that the other has. `Desk::note` always makes one,
/// as its clause `given` says.
fn hear_of(desk: &Desk<Unwatched>, pass: &mut Pass<Unwatched>, mut other: Pass<Unwatched>)
    requires { (pass.old.desk ≡ desk.now) × (other.desk ≡ desk.now) }
    ensures same { Same pass.old pass.new }
    ensures kept { BeginsWith pass.new.seen pass.old.seen }
    ensures told { BeginsWith pass.new.seen other.seen }
{
    if let Ok(note) = desk.note(&mut other) {
        desk.hear(pass, note);
    }
}
