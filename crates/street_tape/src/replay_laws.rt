//! The tape of a desk's journal replays to the replies of its calls, and so does its upgrade. Nothing is run here: they join
//! tapes to histories.
ghost use Rattle.std.specs.Prelude.{◌≡◌, All, List, None, true, map};
ghost use Rattle.street_base.specs.Prelude.{Runs};
ghost use Rattle.street_desk.specs.declared.journal.Entry.{Entry};
ghost use Rattle.street_desk.specs.History.{answers_of, state_of, IsLegal};
ghost use Rattle.street_tape.specs.GoodTapes.{HaveSizeOne, IsNeverBad, IsNeverRefused, SaysOnly, UpgradesTo};
ghost use Rattle.street_tape.specs.Replies.{AreReplayable, output_from, reply_lines};
ghost use Rattle.street_tape.specs.Entries.{is_part, EntryFits, TapeFits};
ghost use Rattle.street_tape.specs.Tapes.{tape_text, old_tape_text};

use crate::tape_reads_back;
use street_desk::legal_history_runs;

/// A law, for proofs; the call does nothing. The calls that the tape of a legal history says are those of the history, if none of
/// its lines is longer than a tape line may be; each can be replayed, and their replies are those of the run of that history.
/// However much of that tape was read, the fault of a replay or of an upgrade is never `NotTape` or `BadEntry`: a read or a write
/// failed, or the reads or memory ran out.
pub fn tape_replays()
    ensures parts { (history : List Entry) → IsLegal history → All (λ e. is_part e.command e.outcome ≡ true) history }
    ensures calls { (history : List Entry) → TapeFits history → SaysOnly (tape_text history) history }
    ensures each { (history : List Entry) → IsLegal history → AreReplayable None history }
    ensures runs { (history : List Entry) → IsLegal history
        → Runs None (map (λ e. e.command) history) (answers_of history) (state_of history) }
    ensures replies { (history : List Entry) → output_from None history ≡ reply_lines (answers_of history) }
    ensures good { (history : List Entry) → IsLegal history → TapeFits history → IsNeverBad (tape_text history) }
    ensures upgrades { (history : List Entry) → TapeFits history → IsNeverRefused (tape_text history) }
{
    tape_reads_back();
    legal_history_runs();
}

/// A law, for proofs; the call does nothing. As [`tape_replays`] says, for the tape of version 1 of a legal history whose vehicles
/// all have size 1; its upgrade is the tape of version 2 of that history.
pub fn old_tape_replays()
    ensures calls { (history : List Entry) → All EntryFits history → HaveSizeOne history → SaysOnly (old_tape_text history) history }
    ensures upgraded { (history : List Entry) → TapeFits history → HaveSizeOne history → UpgradesTo (old_tape_text history) history }
    ensures good { (history : List Entry) → IsLegal history → All EntryFits history → HaveSizeOne history
        → IsNeverBad (old_tape_text history) }
    ensures upgrades { (history : List Entry) → All EntryFits history → HaveSizeOne history → IsNeverRefused (old_tape_text history) }
{
    tape_reads_back();
}
