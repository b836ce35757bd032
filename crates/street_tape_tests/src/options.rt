//! The words of the command line.

use std::alloc::{AllocError, Global};
use std::process::Abort;
use std::test::Fail;
use street_runs::{ProgramOptions, WordsFault, options, reason};

/// The program's name and these words.
fn words_of(alloc: Global, words: &[&str]) -> Result<Vec<String>, AllocError> {
    let mut all = Vec::new(alloc);
    all.push(String::from_str(alloc, "streetsim")?)?;
    for word in words {
        all.push(String::from_str(alloc, word)?)?;
    }
    Ok(all)
}

/// The files of the tape that is written, of the one that is replayed, and of the one that is upgraded.
type Files<'a> = (Option<&'a str>, Option<&'a str>, Option<&'a str>);

/// The numbers of options, the files of their tapes, and their scripts.
type Wanted<'a> = ((u32, u64), Files<'a>, &'a [&'a str]);

/// Whether the options are these.
fn is_found(found: &ProgramOptions<'_>, wanted: Wanted<'_>) -> bool {
    let ((workers, calls), (tape, replay, upgrade), scripts) = wanted;
    found.workers == workers
        && found.calls == calls
        && found.tape == tape
        && found.replay == replay
        && found.upgrade == upgrade
        && found.scripts.as_slice() == scripts
}

/// The words mean these options.
fn check_good(
    rt: &(impl Abort + AllocGlobal),
    words: &[&str],
    wanted: Wanted<'_>,
) -> Result<(), Fail> {
    let words = words_of(rt.alloc(), words)?;
    let found = options(rt.alloc(), words.as_slice())?;
    assert!(rt; is_found(&found, wanted), "other options are found");
    Ok(())
}

#[test]
fn defaults(rt: HostRuntime) -> Result<(), Fail> {
    check_good(&rt, &[], ((1, 65_536), (None, None, None), &[]))
}

#[test]
fn all_at_once(rt: HostRuntime) -> Result<(), Fail> {
    let words = [
        "a.jsonl",
        "--workers",
        "64",
        "--calls=1000000",
        "--tape",
        "run.tape",
        "b.jsonl",
        "--",
        "--c",
    ];
    let scripts = ["a.jsonl", "b.jsonl", "--c"];
    check_good(
        &rt,
        &words,
        ((64, 1_000_000), (Some("run.tape"), None, None), &scripts),
    )
}

/// A replay stands beside the numbers.
#[test]
fn replays(rt: HostRuntime) -> Result<(), Fail> {
    let words = ["--replay", "run.tape", "--workers", "2", "--calls", "1"];
    check_good(&rt, &words, ((2, 1), (None, Some("run.tape"), None), &[]))
}

/// So does an upgrade.
#[test]
fn upgrades(rt: HostRuntime) -> Result<(), Fail> {
    let words = ["--upgrade", "run.tape", "--workers", "2"];
    check_good(
        &rt,
        &words,
        ((2, 65_536), (None, None, Some("run.tape")), &[]),
    )
}

/// What is told of words that are no options, after the word `bad` or `help`.
fn told_of(
    alloc: Global,
    outcome: Result<ProgramOptions<'_>, WordsFault>,
) -> Result<String, AllocError> {
    match outcome {
        Ok(_found) => Ok(String::new(alloc)),
        Err(WordsFault::Bad(error)) => format!(in alloc; "bad {error}"),
        Err(WordsFault::Help(help)) => format!(in alloc; "help {help}"),
        Err(WordsFault::Starved) => String::from_str(alloc, "starved"),
    }
}

/// What is told of these words.
fn told(alloc: Global, words: &[&str]) -> Result<String, Fail> {
    let all = words_of(alloc, words)?;
    Ok(told_of(alloc, options(alloc, all.as_slice()))?)
}

/// What the program tells of these words: the line that says which is bad, and why.
fn reason_of(alloc: Global, words: &[&str]) -> Result<String, Fail> {
    let text = told(alloc, words)?;
    let Some(bad) = text.as_str().strip_prefix("bad ") else {
        return Ok(String::from_str(alloc, "they are not bad")?);
    };
    Ok(String::from_str(alloc, reason(bad))?)
}

/// These words are bad, and the line says what is.
fn check_bad(rt: &(impl Abort + AllocGlobal), words: &[&str], what: &str) -> Result<(), Fail> {
    let line = reason_of(rt.alloc(), words)?;
    assert_eq!(rt; line.as_str(), what);
    Ok(())
}

#[test]
fn numbers_out_of_range_are_bad(rt: HostRuntime) -> Result<(), Fail> {
    for word in ["0", "65", "4294967297", "many", "", "1.0"] {
        let what = format!(in rt.alloc();
            "invalid value '{word}' for '--workers <N>': it is not a number from 1 to 64"
        )?;
        check_bad(&rt, &["--workers", word], what.as_str())?;
    }
    for word in ["0", "1000001"] {
        let what = format!(in rt.alloc();
            "invalid value '{word}' for '--calls <N>': it is not a number from 1 to 1000000"
        )?;
        check_bad(&rt, &["--calls", word], what.as_str())?;
    }
    Ok(())
}

#[test]
fn unknown_words_are_bad(rt: HostRuntime) -> Result<(), Fail> {
    check_bad(
        &rt,
        &["--endless=1"],
        "unexpected value '1' for '--endless' found; no more were expected",
    )?;
    check_bad(&rt, &["--workers", "-1"], "unexpected argument '-1' found")?;
    check_bad(&rt, &["-x"], "unexpected argument '-x' found")
}

#[test]
fn an_option_has_one_value(rt: HostRuntime) -> Result<(), Fail> {
    for (name, value) in [
        ("workers", "<N>"),
        ("calls", "<N>"),
        ("tape", "<FILE>"),
        ("replay", "<FILE>"),
        ("upgrade", "<FILE>"),
        ("keep", "<FILE>"),
    ] {
        let option = format!(in rt.alloc(); "--{name}")?;
        let none = format!(in rt.alloc();
            "a value is required for '--{name} {value}' but none was supplied"
        )?;
        let two = format!(in rt.alloc();
            "the argument '--{name} {value}' cannot be used multiple times"
        )?;
        check_bad(&rt, &[option.as_str()], none.as_str())?;
        check_bad(
            &rt,
            &[option.as_str(), "2", option.as_str(), "2"],
            two.as_str(),
        )?;
    }
    Ok(())
}

#[test]
fn a_replay_stands_alone(rt: HostRuntime) -> Result<(), Fail> {
    let what = "the argument '--replay <FILE>' cannot be used with scripts or with '--tape <FILE>'";
    check_bad(&rt, &["--replay", "a.tape", "--tape", "b.tape"], what)?;
    check_bad(&rt, &["--replay", "a.tape", "a.jsonl"], what)
}

#[test]
fn an_upgrade_stands_alone(rt: HostRuntime) -> Result<(), Fail> {
    let what =
        "the argument '--upgrade <FILE>' cannot be used with scripts, '--tape <FILE>' or '--replay <FILE>'";
    check_bad(&rt, &["--upgrade", "a.tape", "--tape", "b.tape"], what)?;
    check_bad(&rt, &["--upgrade", "a.tape", "--replay", "b.tape"], what)?;
    check_bad(&rt, &["--upgrade", "a.tape", "a.jsonl"], what)
}

/// What is told of words that stand beside `--endless`, `--keep` or `--record`.
const COMPANY: &str =
    "the arguments '--endless', '--keep <FILE>' and '--record <FILE>' cannot be used with scripts, '--calls <N>', '--tape <FILE>', '--replay <FILE>' or '--upgrade <FILE>'";

/// Whether there is no desk by these words.
fn is_endless(alloc: Global, words: &[&str]) -> Result<bool, Fail> {
    let words = words_of(alloc, words)?;
    let found = options(alloc, words.as_slice())?;
    Ok(found.endless)
}

#[test]
fn no_end_of_calls(rt: HostRuntime) -> Result<(), Fail> {
    assert_eq!(rt; is_endless(rt.alloc(), &[])?, false);
    assert_eq!(rt;
        is_endless(rt.alloc(), &["--workers", "3", "--endless"])?,
        true
    );
    for word in [
        "--calls=65536",
        "--tape=a",
        "--replay=a",
        "--upgrade=a",
        "a.jsonl",
    ] {
        check_bad(&rt, &["--endless", word], COMPANY)?;
    }
    Ok(())
}

/// The file in which a session is kept by these words, and whether it is not synced.
fn check_kept(
    rt: &(impl Abort + AllocGlobal),
    words: &[&str],
    keep: Option<&str>,
    unsynced: bool,
) -> Result<(), Fail> {
    let words = words_of(rt.alloc(), words)?;
    let found = options(rt.alloc(), words.as_slice())?;
    assert!(rt;
        found.keep == keep && found.unsynced == unsynced,
        "other options are found"
    );
    Ok(())
}

#[test]
fn a_session_is_kept(rt: HostRuntime) -> Result<(), Fail> {
    check_kept(&rt, &[], None, false)?;
    check_kept(&rt, &["--keep", "day.jsonl"], Some("day.jsonl"), false)?;
    check_kept(
        &rt,
        &["--unsynced", "--keep=day.jsonl", "--endless"],
        Some("day.jsonl"),
        true,
    )?;
    for word in [
        "--calls=65536",
        "--tape=a",
        "--replay=a",
        "--upgrade=a",
        "a.jsonl",
    ] {
        check_bad(&rt, &["--keep", "b", word], COMPANY)?;
    }
    check_bad(
        &rt,
        &["--unsynced"],
        "the argument '--unsynced' is of use only with '--keep <FILE>'",
    )
}

/// The file to which a record is written by these words, and the one in which the session is kept.
fn check_recorded(
    rt: &(impl Abort + AllocGlobal),
    words: &[&str],
    record: Option<&str>,
    keep: Option<&str>,
) -> Result<(), Fail> {
    let words = words_of(rt.alloc(), words)?;
    let found = options(rt.alloc(), words.as_slice())?;
    assert!(rt;
        found.record_file == record && found.keep == keep,
        "other options are found"
    );
    Ok(())
}

#[test]
fn a_record_is_written(rt: HostRuntime) -> Result<(), Fail> {
    check_recorded(&rt, &[], None, None)?;
    check_recorded(&rt, &["--record", "r.bin"], Some("r.bin"), None)?;
    check_recorded(
        &rt,
        &["--endless", "--record=r.bin", "--keep", "a", "--unsynced"],
        Some("r.bin"),
        Some("a"),
    )?;
    for word in [
        "--calls=65536",
        "--tape=a",
        "--replay=a",
        "--upgrade=a",
        "a.jsonl",
    ] {
        check_bad(&rt, &["--record", "b", word], COMPANY)?;
    }
    check_bad(
        &rt,
        &["--record", "b", "--unsynced"],
        "the argument '--unsynced' is of use only with '--keep <FILE>'",
    )
}

/// A text of one line, and one without the parser's mark, come as they are.
#[test]
fn a_reason_is_one_line(rt: HostRuntime) {
    assert_eq!(rt; reason("error: bad\n\nUsage: streetsim"), "bad");
    assert_eq!(rt; reason("error: bad"), "bad");
    assert_eq!(rt; reason("bad\nworse"), "bad");
    assert_eq!(rt; reason(""), "");
}

/// How many scripts the words name.
fn count_of(alloc: Global, words: &[&str]) -> Result<usize, Fail> {
    let words = words_of(alloc, words)?;
    let found = options(alloc, words.as_slice())?;
    Ok(found.scripts.len())
}

#[test]
fn many_scripts(rt: HostRuntime) -> Result<(), Fail> {
    let scripts = vec![in rt.alloc(); "a.jsonl"; 1_024]?;
    assert_eq!(rt; count_of(rt.alloc(), scripts.as_slice())?, 1_024);
    Ok(())
}

#[test]
fn too_many_scripts(rt: HostRuntime) -> Result<(), Fail> {
    let scripts = vec![in rt.alloc(); "a.jsonl"; 1_025]?;
    check_bad(&rt, scripts.as_slice(), "more than 1024 scripts")
}

/// The text is the help, and names each option.
fn check_help(rt: &impl Abort, text: &str) {
    assert!(rt; text.starts_with("help "), "{text}");
    for name in [
        "--workers <N>",
        "--calls <N>",
        "--tape <FILE>",
        "--replay <FILE>",
        "--upgrade <FILE>",
        "--endless",
        "--keep <FILE>",
        "--unsynced",
        "--record <FILE>",
        "--version",
        "[SCRIPT]...",
    ] {
        assert!(rt; text.contains(name), "no {name} in {text}");
    }
}

#[test]
fn version_is_told(rt: HostRuntime) -> Result<(), Fail> {
    let text = told(rt.alloc(), &["--workers", "3", "--version"])?;
    assert_eq!(rt; text.as_str(), "help streetsim 1.0.0\n");
    Ok(())
}

#[test]
fn help_is_told(rt: HostRuntime) -> Result<(), Fail> {
    let cases: [&[&str]; 3] = [&["--help"], &["-h"], &["--workers", "3", "--help"]];
    for words in cases {
        let text = told(rt.alloc(), words)?;
        check_help(&rt, text.as_str());
    }
    Ok(())
}
