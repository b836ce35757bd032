//! Laws of what the program serves: of standard input, and of scripts. Nothing is run here: they join what a run and its tape
//! promise.
ghost use Rattle.std.specs.Prelude.{◌≡◌, List};
ghost use Rattle.street_desk.specs.declared.journal.Entry.{Entry};
ghost use Rattle.street_desk.specs.Passes.{PassView};
ghost use Rattle.street_line.specs.Sessions.{IsAlone};
ghost use Rattle.street_runs.specs.Ends.{IsEnded};
ghost use Rattle.street_runs.specs.Told.{PlayedAreTold};

use std::io::Write;
use std::sync::Wait;
use std::thread::Threads;

/// A law, for proofs; the call does nothing. The journal of a desk that was ended with the pass of its one session is what that
/// pass had seen: so the tape of standard input has the calls that were served, as many as there were and no other.
pub fn input_is_taped()
    ensures { (pass : PassView) (journal : List Entry) → IsAlone pass → IsEnded pass journal → journal ≡ pass.seen }
{}

/// A law, for proofs; the call does nothing. What the scripts of a desk are told, where the desk is ended with the pass that comes
/// back from them: each that has no fault is served from its first line on, and each of its replies is the machine's at the place
/// of its call in the one history that the journal is.
pub fn scripts_are_told<R: Threads + Wait + Sync, W: Write>()
    ensures { PlayedAreTold R W }
{}
