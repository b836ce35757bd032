//! A tape says the journal that it was written of. `replay_laws.rt` calls them: nothing is run here.
ghost use Rattle.std.specs.Prelude.{◌≡◌, All, List, Some};
ghost use Rattle.street_desk.specs.declared.journal.Entry.{Entry};
ghost use Rattle.street_tape.specs.Entries.{tape_reading, EntryFits, HasTapeLine, TapeFits};
ghost use Rattle.street_tape.specs.GoodTapes.{HaveSizeOne};
ghost use Rattle.street_tape.specs.Tapes.{tape_text, old_tape_text};

use crate::fits::{calls_fit, length_fits};
use street_desk::Journal;

/// A law, for proofs; the call does nothing. The tape of a list of calls reads as that list, if all numbers, that of the calls too, are
/// of 64 bits, each call has an outcome that its command can have, as in every legal history, and no line is longer than a tape line
/// may be. So does its tape of version 1, where each vehicle that enters has size 1.
pub fn tape_reads_back()
    ensures now { (history : List Entry) → TapeFits history → tape_reading (tape_text history) ≡ Some history }
    ensures before { (history : List Entry) → All EntryFits history → HaveSizeOne history
        → tape_reading (old_tape_text history) ≡ Some history }
{}

/// A law, for proofs; the call changes nothing. The tape of a journal reads as that journal, if none of its lines is longer than a
/// tape line may be: a journal is a legal history of numbers of 64 bits, whatever it has, and so a tape can hold it.
pub fn journal_reads_back(journal: &Journal)
    ensures fits { All HasTapeLine journal.now → TapeFits journal.now }
    ensures reads { All HasTapeLine journal.now → tape_reading (tape_text journal.now) ≡ Some journal.now }
{
    journal.legal();
    length_fits(journal);
    calls_fit(journal);
    tape_reads_back();
}
