//! From the words of the command line to options: [`options`] has clap parse the words by `command.rt`, tests numbers
//! and which options exclude each other, and fills the types of `words.rt`. `main` of `street_sim` calls [`options`]
//! first.
ghost use Rattle.std.specs.Prelude.{◌≤◌, ◌<◌, ◌≡◌, [], false, true, IfErr, IfOk, IsNone, IsSome, SomeIff, codes, length, map, option_map, string_bytes, unwrap_or, vec_len};
ghost use Rattle.std.specs.Str.Parse.{digits_value, without_leading_plus};
ghost use Rattle.street_base.specs.Prelude.{most_sessions};
ghost use Rattle.clap.specs.Words.{app_of, first_of, found_of, matched_of, raw_values, rows_of};
ghost use Rattle.street_runs.specs.Parser.{IsAsked, IsCount, IsCountIfSaid, IsFit, IsFound, IsNumberOf, IsRefused, IsUnfit, is_said, streetsim_app};
ghost use Rattle.street_runs.specs.Words.{HasNoScriptsOrTapes, IsDeskless, IsInRange, StandsAlone, StandsTogether, TellsBad};

use crate::command::streetsim;
use crate::words::{ProgramOptions, WordsFault};
use clap::error::ErrorKind;
use clap::{ArgMatches, Command};
use std::alloc::{AllocError, Global};
use street_base::{MOST_CALLS, MOST_SESSIONS, MOST_WORKERS};

/// How many workers there are where the words do not say.
const WORKERS: u64 = 1;

/// How many calls there is a place for where the words do not say.
const CALLS: u64 = 65_536;

/// What is told of words that stand beside `--endless`, `--keep` or `--record`.
const COMPANY: &str =
    "the arguments '--endless', '--keep <FILE>' and '--record <FILE>' cannot be used with scripts, '--calls <N>', '--tape <FILE>', '--replay <FILE>' or '--upgrade <FILE>'";

/// The number that a word says in decimal digits, where it is from 1 to `most`; none for any other word.
fn number_of(word: &str, most: u64) -> Option<u64>
    ensures { SomeIff result (IsCount most word.now) (digits_value 10 (without_leading_plus word.now)) }
{
    match word.parse::<u64>() {
        Ok(number) if 1 <= number && number <= most => Some(number),
        _ => None,
    }
}

/// The number that is said of the option of this name, from 1 to `most`, or the default where the option is not used.
///
/// # Errors
///
/// `Bad` where something else is said; `Starved` where memory was refused to tell so.
fn number(
    alloc: Global,
    command: &mut Command<'_>,
    matches: &ArgMatches<'_>,
    name: &str,
    default: u64,
    most: u64,
) -> Result<u64, WordsFault>
    requires { (1 ≤ default) × (default ≤ most) }
    ensures range { IfOk result (λ n. (1 ≤ n) × (n ≤ most)) }
    ensures said { IfOk result (IsNumberOf (first_of name.now (rows_of (found_of matches.now))) default) }
    ensures fit { IfOk result (λ n. IsCountIfSaid most (first_of name.now (rows_of (found_of matches.now)))) }
    ensures unfit { IfErr result (IsUnfit (IsCountIfSaid most (first_of name.now (rows_of (found_of matches.now))))) }
{
    let Some(word) = matches.get_str(name) else {
        return Ok(default);
    };
    if let Some(number) = number_of(word, most) {
        return Ok(number);
    }
    let text = format!(in alloc;
        "invalid value '{word}' for '--{name} <N>': it is not a number from 1 to {most}"
    )?;
    Err(bad_words(command, ErrorKind::ValueValidation, text.as_str()))
}

/// Whether the word of this name, which has no value, is said.
fn is_said(matches: &ArgMatches<'_>, name: &str) -> bool
    ensures { result ≡ is_said (first_of name.now (rows_of (found_of matches.now))) }
{
    match matches.get_str(name) {
        Some(word) => word == "true",
        None => false,
    }
}

/// The fault of words that are wrong in this way, with this text; `Starved` where memory was refused for it.
fn bad_words(command: &mut Command<'_>, kind: ErrorKind, text: &str) -> WordsFault
    ensures { TellsBad kind result }
{
    match command.error(kind, text) {
        Ok(error) => WordsFault::Bad(error),
        Err(_) => WordsFault::Starved,
    }
}

/// The options that words ask for. The first word is the program's name; with no words there are the defaults.
///
/// # Errors
///
/// `Help`, with the parser's text, where a word asks for help or the version; `Bad`, with a text that says which word, where something
/// else is wrong; `Starved` where memory was refused. Of several wrong things the parser's is told first.
pub fn options<'a>(alloc: Global, words: &'a [String]) -> Result<ProgramOptions<'a>, WordsFault>
    ensures ranges { IfOk result IsInRange }
    ensures together { IfOk result StandsTogether }
    ensures alone { IfOk result StandsAlone }
    ensures asked { IfOk result (IsAsked (map string_bytes words.now)) }
    ensures refused { IfErr result (IsRefused (map string_bytes words.now)) }
{
    match streetsim(alloc) {
        Ok(mut command) => options_by(alloc, &mut command, words),
        Err(_) => Err(WordsFault::Starved),
    }
}

/// The options that these words ask for, as clap's `command` reads them; the first word is the program's name.
///
/// # Errors
///
/// Those of [`options`].
fn options_by<'a>(
    alloc: Global,
    command: &mut Command<'a>,
    words: &'a [String],
) -> Result<ProgramOptions<'a>, WordsFault>
    ensures ranges { IfOk result IsInRange }
    ensures together { IfOk result StandsTogether }
    ensures alone { IfOk result StandsAlone }
    ensures asked { app_of command.old ≡ streetsim_app → IfOk result (IsAsked (map string_bytes words.now)) }
    ensures refused { app_of command.old ≡ streetsim_app → IfErr result (IsRefused (map string_bytes words.now)) }
{
    let matches = command.try_get_matches_from_mut(words)?;
    matched(alloc, command, &matches)
}

/// The options that the parser's matches say, with the defaults of those that they do not say.
///
/// # Errors
///
/// `Bad` where a number is out of its range, or options do not stand together; `Starved` where memory was refused.
fn matched<'a>(
    alloc: Global,
    command: &mut Command<'a>,
    matches: &ArgMatches<'a>,
) -> Result<ProgramOptions<'a>, WordsFault>
    ensures ranges { IfOk result IsInRange }
    ensures together { IfOk result StandsTogether }
    ensures alone { IfOk result StandsAlone }
    ensures found { IfOk result (IsFound (rows_of (found_of matches.now))) }
    ensures fit { IfOk result (λ found. IsFit (rows_of (found_of matches.now))) }
    ensures unfit { IfErr result (IsUnfit (IsFit (rows_of (found_of matches.now)))) }
{
    let workers = number(alloc, command, matches, "workers", WORKERS, MOST_WORKERS)?;
    let calls = number(alloc, command, matches, "calls", CALLS, MOST_CALLS)?;
    let found = ProgramOptions {
        workers: workers as u32,
        calls,
        tape: matches.get_str("tape"),
        replay: matches.get_str("replay"),
        upgrade: matches.get_str("upgrade"),
        endless: is_said(matches, "endless"),
        keep: matches.get_str("keep"),
        unsynced: is_said(matches, "unsynced"),
        record_file: matches.get_str("record"),
        scripts: named_scripts(alloc, matches)?,
    };
    if let Some((kind, text)) = misfit(&found) {
        return Err(bad_words(command, kind, text));
    }
    let says_calls = matches.get_str("calls").is_some();
    match misfit_alone(&found, says_calls) {
        Some((kind, text)) => Err(bad_words(command, kind, text)),
        None => Ok(found),
    }
}

/// The scripts that the words name, in their order: the words that are no options and no values of one.
///
/// # Errors
///
/// `AllocError` where there was no memory for the list.
fn named_scripts<'a>(alloc: Global, matches: &ArgMatches<'a>) -> Result<Vec<&'a str>, AllocError>
    ensures scripts { IfOk result (λ v. map (λ s. s.now) v.items
        ≡ unwrap_or (option_map raw_values (matched_of (found_of matches.now) (codes "script"))) []) }
    ensures whole { IfOk result (λ v. vec_len v ≡ length v.items) }
{
    let mut scripts = Vec::new(alloc);
    if let Some(names) = matches.get_strs("script") {
        scripts.extend_from_slice(names)?;
    }
    Ok(scripts)
}

/// What is wrong with these options together, if anything is: a replay or an upgrade beside what it excludes, or too many scripts.
/// What `--endless`, `--keep` and `--record` exclude is `misfit_alone`.
fn misfit(found: &ProgramOptions<'_>) -> Option<(ErrorKind, &'static str)>
    ensures none { IsNone result → StandsTogether found.now × (vec_len found.now.scripts ≤ most_sessions) }
    ensures some { IsSome result → StandsTogether found.now → most_sessions < vec_len found.now.scripts }
{
    let serves = found.tape.is_some() || !found.scripts.is_empty();
    if found.replay.is_some() && serves {
        return Some((
            ErrorKind::ArgumentConflict,
            "the argument '--replay <FILE>' cannot be used with scripts or with '--tape <FILE>'",
        ));
    }
    if found.upgrade.is_some() && (serves || found.replay.is_some()) {
        return Some((
            ErrorKind::ArgumentConflict,
            "the argument '--upgrade <FILE>' cannot be used with scripts, '--tape <FILE>' or '--replay <FILE>'",
        ));
    }
    if found.scripts.len() > MOST_SESSIONS {
        return Some((ErrorKind::TooManyValues, "more than 1024 scripts"));
    }
    None
}

/// Whether standard input is served without a desk: `--endless`, `--keep` or `--record` is said. A replay and an upgrade are not
/// meant here.
fn is_deskless(found: &ProgramOptions<'_>) -> bool
    ensures is { result ≡ true → IsDeskless found.now }
    ensures not { result ≡ false → IsDeskless found.now → ⊥ }
{
    if found.endless {
        return true;
    }
    if found.keep.is_some() {
        return true;
    }
    found.record_file.is_some()
}

/// Whether scripts, a tape to write, a replay or an upgrade are asked for, beside which `--endless`, `--keep` and `--record` may not
/// stand.
fn has_company(found: &ProgramOptions<'_>) -> bool
    ensures not { result ≡ false → HasNoScriptsOrTapes found.now }
    ensures is { result ≡ true → HasNoScriptsOrTapes found.now → ⊥ }
{
    if found.tape.is_some() {
        return true;
    }
    if found.replay.is_some() {
        return true;
    }
    if found.upgrade.is_some() {
        return true;
    }
    !found.scripts.is_empty()
}

/// Whether `--unsynced` is said without `--keep`, which names the file that it speaks of.
fn lacks_file(found: &ProgramOptions<'_>) -> bool
    ensures is { result ≡ true → (found.now.unsynced ≡ true) × IsNone found.now.keep }
    ensures not { result ≡ false → found.now.unsynced ≡ true → IsSome found.now.keep }
{
    if !found.unsynced {
        return false;
    }
    found.keep.is_none()
}

/// What is wrong with `--endless`, `--keep`, `--unsynced` and `--record` among these options, if anything is. `says_calls` tells
/// whether the words say how many calls there are.
fn misfit_alone(found: &ProgramOptions<'_>, says_calls: bool) -> Option<(ErrorKind, &'static str)>
    ensures none { IsNone result → StandsAlone found.now × (IsDeskless found.now → says_calls ≡ false) }
    ensures some { IsSome result → StandsAlone found.now → IsDeskless found.now × (says_calls ≡ true) }
{
    if lacks_file(found) {
        return Some((
            ErrorKind::MissingRequiredArgument,
            "the argument '--unsynced' is of use only with '--keep <FILE>'",
        ));
    }
    if !is_deskless(found) {
        return None;
    }
    if says_calls {
        return Some((ErrorKind::ArgumentConflict, COMPANY));
    }
    if has_company(found) {
        return Some((ErrorKind::ArgumentConflict, COMPANY));
    }
    None
}
