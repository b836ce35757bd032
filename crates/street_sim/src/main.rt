//! The program `streetsim`: commands come as lines of JSON from standard input or from scripts, and replies go out as lines.
//!
//! All calls go through a desk, which keeps a journal of them; the journal can be kept as a tape, and a tape replayed or
//! upgraded. Where no end of calls is asked for (`--endless`), where the session itself is kept in a file and goes on from it
//! (`--keep`), and where a record of its steps is written (`--record`), there is no desk.
#![tactic(auto)]

ghost use Rattle.std.specs.Prelude.{◌≡◌, OnOk, IfErr};
ghost use Rattle.std.specs.Process.{exit_status};
ghost use Rattle.street_runs.specs.Faults.{status_of};
ghost use Rattle.street_runs.specs.Words.{IsInRange};
ghost use Rattle.street_runs.specs.declared.fault.ProgramFault.TheVariants as faults;

use std::fs::File;
use std::process::ExitCode;
use std::rt::Files;
use std::sync::Wait;
use std::thread::Threads;
use std::{env, io};
use street_runs::{
    ProgramFault, ProgramOptions, STANDARD_ERROR, STANDARD_OUTPUT, WordsFault, check_files,
    options, reason, replay_tape, serve_endless, serve_input, serve_kept, serve_recorded,
    serve_scripts, upgrade_tape,
};

/// What is told where `--keep` and `--record` name one file, which the words alone do not show.
const KEPT_IS_RECORD: &str = "the arguments '--keep <FILE>' and '--record <FILE>' name one file";

/// What is told where `--tape` names the file of a script.
const TAPE_IS_SCRIPT: &str = "the argument '--tape <FILE>' and a script name one file";

/// The program: does what the words of the command line ask for, and ends with status 0, or with that of the fault that it tells.
fn main(rt: HostRuntime) -> ExitCode {
    match program_words(&rt) {
        Ok(words) => run(&rt, words.as_slice()),
        Err(ProgramFault::BadArguments) => tell_words(&rt, "a word is not UTF-8"),
        Err(fault) => tell(&rt, fault),
    }
}

/// Does what the words ask for, tells what goes wrong on standard error, and answers the status. Help goes to standard output.
fn run<R: Threads + Wait + Sync + Input + Print + Eprint + AllocGlobal + Files<File = File>>(
    rt: &R,
    words: &[String],
) -> ExitCode {
    match options(rt.alloc(), words) {
        Ok(options) => match carry_out(rt, &options) {
            Err(ProgramFault::BadArguments) if options.tape.is_some() => {
                tell_words(rt, TAPE_IS_SCRIPT)
            }
            Err(ProgramFault::BadArguments) => tell_words(rt, KEPT_IS_RECORD),
            run => end_with(rt, run),
        },
        Err(WordsFault::Help(help)) => {
            let printed = help.print(rt);
            end_with(rt, printed.or(Err(ProgramFault::Write(STANDARD_OUTPUT))))
        }
        Err(WordsFault::Bad(error)) => match format!(in rt.alloc(); "{error}") {
            Ok(text) => tell_words(rt, reason(text.as_str())),
            Err(_) => tell(rt, ProgramFault::BadArguments),
        },
        Err(WordsFault::Starved) => tell(rt, ProgramFault::OutOfMemory),
    }
}

/// The status of the program after a run that went so: 0, or that of its fault, which is told on standard error.
fn end_with(rt: &impl Eprint, run: Result<(), ProgramFault<'_>>) -> ExitCode
    ensures done { OnOk run.entry (exit_status result ≡ 0) }
    ensures broken { IfErr run.entry (λ fault. exit_status result ≡ status_of fault) }
{
    match run {
        Ok(()) => ExitCode::SUCCESS,
        Err(fault) => tell(rt, fault),
    }
}

/// Tells a fault on standard error, and answers its status. Where that fails too, the status alone tells it, and so where the fault is that
/// of standard error: it may be the file of a kept session.
fn tell(rt: &impl Eprint, fault: ProgramFault<'_>) -> ExitCode
    ensures { exit_status result ≡ status_of fault.entry }
{
    if fault != ProgramFault::Write(STANDARD_ERROR) {
        let _ = eprintln!(rt; "streetsim: {fault}");
    }
    ExitCode::from(fault.status())
}

/// Tells on standard error that the words are wrong, and in a line of its own which one and why. Answers status 2.
fn tell_words(rt: &impl Eprint, why: &str) -> ExitCode
    ensures { exit_status result ≡ status_of faults.BadArguments }
{
    let status = tell(rt, ProgramFault::BadArguments);
    let _ = eprintln!(rt; "{why}");
    status
}

/// Does what the words ask for, where no file is both read and written: upgrades or replays a tape, or serves scripts or standard input, at a desk or without one, as a
/// session that is kept, or with a record of the steps.
fn carry_out<
    'a,
    R: Threads + Wait + Sync + Input + Print + Eprint + AllocGlobal + Files<File = File>,
>(rt: &R, options: &ProgramOptions<'a>) -> Result<(), ProgramFault<'a>>
    requires { IsInRange options.now }
{
    check_files(rt, options)?;
    if let Some(tape) = options.upgrade {
        return upgrade_tape(rt, tape);
    }
    if let Some(file) = options.keep {
        return serve_kept(rt, options, file);
    }
    if let Some(file) = options.record_file {
        return serve_recorded(rt, options.workers, file);
    }
    if options.endless {
        return serve_endless(rt, options.workers);
    }
    match options.replay {
        Some(tape) => replay_tape(rt, options.workers, tape),
        None if options.scripts.is_empty() => serve_input(rt, options),
        None => serve_scripts(rt, options),
    }
}

/// The words of the command line, the program's name first. A word that is no UTF-8 is a bad argument.
fn program_words(rt: &HostRuntime) -> Result<Vec<String>, ProgramFault<'static>> {
    match env::args(rt) {
        Ok(words) => words
            .collect(rt.alloc())
            .map_err(|_| ProgramFault::OutOfMemory),
        Err(error) if error.kind() == io::ErrorKind::OutOfMemory => Err(ProgramFault::OutOfMemory),
        Err(_) => Err(ProgramFault::BadArguments),
    }
}
