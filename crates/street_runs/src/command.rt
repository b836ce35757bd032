//! The command `streetsim` as clap knows it: which options, values and scripts the words of the command line may have,
//! and their help texts. `command_line.rt` alone calls `streetsim`, to have the words parsed by this command.
ghost use Rattle.std.specs.Prelude.{◌≡◌, All, IfOk, false, map};
ghost use Rattle.clap.specs.Words.{app_of, rule_of};
ghost use Rattle.street_runs.specs.Parser.{flag_rule, option_rule, script_rule, streetsim_app, streetsim_rules};

use clap::{Arg, ArgAction, Command};
use std::alloc::{AllocError, Global};

/// The program's version.
const VERSION: &str = "1.0.0";

/// What the parser is told of a word with no value: its name, which is said behind two dashes, and its text in the help.
fn flag<'a>(alloc: Global, name: &'a str, help: &'a str) -> Arg<'a>
    ensures rule { rule_of result ≡ flag_rule name.entry.now }
    ensures local { result.global ≡ false }
{
    Arg::new(alloc, name)
        .long(name)
        .action(ArgAction::SetTrue)
        .help(help)
}

/// What the parser is told of an option with one value: its name, which is said behind two dashes, the word for its value, and its
/// text in the help.
fn option<'a>(alloc: Global, name: &'a str, value: &'a str, help: &'a str) -> Arg<'a>
    ensures rule { rule_of result ≡ option_rule name.entry.now }
    ensures local { result.global ≡ false }
{
    Arg::new(alloc, name)
        .long(name)
        .action(ArgAction::Set)
        .value_name(value)
        .help(help)
}

/// What the parser is told of the scripts, of which it takes any number.
fn scripts<'a>(alloc: Global) -> Arg<'a>
    ensures rule { rule_of result ≡ script_rule }
    ensures local { result.global ≡ false }
{
    Arg::new(alloc, "script")
        .action(ArgAction::Append)
        .num_args(0..)
        .value_name("SCRIPT")
        .help("Files of commands, at most 1024. Each is a session with a thread of its own")
}

/// What the parser is told of all words: the options, and then the scripts.
///
/// # Errors
///
/// `AllocError` where there was no memory for it.
fn arguments<'a>(alloc: Global) -> Result<Vec<Arg<'a>>, AllocError>
    ensures rules { IfOk result (λ v. map rule_of v.items ≡ streetsim_rules) }
    ensures local { IfOk result (λ v. All (λ a. a.global ≡ false) v.items) }
{
    Ok(vec![in alloc;
        option(
            alloc,
            "workers",
            "N",
            "Threads that share each step, 1 to 64, and at most 4 a processor; the replies are the same for every number. \
             Steps with fewer than 1500 vehicles in cells (of a replay 30000) are made by one thread [default: 1]",
        ),
        option(
            alloc,
            "calls",
            "N",
            "Calls that there is a place for, 1 to 1000000; later ones are answered by Full [default: 65536]",
        ),
        option(
            alloc,
            "tape",
            "FILE",
            "Writes all calls to a tape at the end, in the order in which they were served",
        ),
        option(
            alloc,
            "replay",
            "FILE",
            "Replays a tape from nothing loaded, and then counts; with neither scripts nor --tape",
        ),
        option(
            alloc,
            "upgrade",
            "FILE",
            "Writes a tape anew in version 2 to standard output; with neither scripts, --tape nor --replay",
        ),
        flag(
            alloc,
            "endless",
            "Serves standard input without a journal, and so without an end of calls; \
             with neither scripts, --calls nor tapes",
        ),
        option(
            alloc,
            "keep",
            "FILE",
            "Does the lines of FILE first, and keeps there each line that was done and may change the traffic, before its reply goes out; \
             without an end of calls, and with neither scripts, --calls nor tapes",
        ),
        flag(
            alloc,
            "unsynced",
            "With --keep: FILE outlives the end of the program, and not that of the machine",
        ),
        option(
            alloc,
            "record",
            "FILE",
            "Writes a record of each step to FILE, a file or a FIFO: where each vehicle is, before the replies go out; \
             without an end of calls, and with neither scripts, --calls nor tapes",
        ),
        scripts(alloc),
    ]?)
}

/// What the parser is told of the command `streetsim`: its words, its help and its version.
///
/// # Errors
///
/// `AllocError` where there was no memory for it.
pub(crate) fn streetsim<'a>(alloc: Global) -> Result<Command<'a>, AllocError>
    ensures { IfOk result (λ command. app_of command ≡ streetsim_app) }
{
    let arguments = arguments(alloc)?;
    Command::new(alloc, "streetsim")
        .about(
            "A traffic simulator. Without scripts it serves standard input: one command a line, one reply a line, all of JSON. \
             No file is both read and written, or written by two words",
        )
        .version(VERSION)
        .bin_name("streetsim")?
        .args(arguments)
}
