//! [`reason`]: of clap's text on wrong words of the command line, the one line that the program tells. `main` of
//! `street_sim` calls [`reason`] with the text of a `WordsFault::Bad`; `command_line.rt` does not know it.
ghost use Rattle.std.specs.List.{before_first};
ghost use Rattle.std.specs.Prelude.{◌++◌, ◌≡◌, ◌≢◌, List, codes, eqb, ℕ};

/// The word that the parser's texts begin with.
const ERROR_WORD: &str = "error: ";

/// Which word is wrong, and why: the first line of the parser's text, without the word `error: ` before it.
pub fn reason(text: &str) -> &str
    ensures marked { (rest : List ℕ) → text.now ≡ codes "error: " ++ rest
        → result.now ≡ before_first (λ byte. eqb byte 10) rest }
    ensures bare { ((rest : List ℕ) → text.now ≢ codes "error: " ++ rest)
        → result.now ≡ before_first (λ byte. eqb byte 10) text.now }
{
    match text.strip_prefix(ERROR_WORD) {
        Some(rest) => first_line(rest),
        None => first_line(text),
    }
}

/// What stands before the first newline, or all where there is none.
fn first_line(text: &str) -> &str
    ensures { result.now ≡ before_first (λ byte. eqb byte 10) text.now }
{
    match text.split_once('\n') {
        Some((line, _rest)) => line,
        None => text,
    }
}
