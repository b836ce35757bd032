//! A law of a file that a session was kept in. Nothing is run here: it says what a second program finds.
ghost use Rattle.std.specs.Prelude.{◌≡◌, List, ℕ, Option, Some, take};
ghost use Rattle.street_base.specs.Prelude.{State};
ghost use Rattle.street_stream.specs.Lines.{cut, lines_of};
ghost use Rattle.street_line.specs.Redo.{Redoes};
ghost use Rattle.street_line.specs.Engines.{MachineServes};
ghost use Rattle.street_line.specs.Kept.{GoesKept};
ghost use Rattle.street_line.specs.KeptFiles.{ServeBreaks, ServesOn};
ghost use Rattle.street_line.specs.Restarts.{KeepsAnswered, PartDone};
ghost use Rattle.street_line.specs.declared.redo.RedoneLines.{RedoneLines};
ghost use Rattle.street_line.specs.declared.kept_file.ServeFault.TheVariants.{Session};
ghost use Rattle.street_line.specs.declared.kept_runs.KeptFault.{KeptFault};

/// A law, for proofs; the call does nothing. Where what a file had is known: what stays of it behind a session leads, done again, to the
/// state that the session ended in; and behind a fault of the session it begins with lines that lead to the state after all lines that
/// were answered, even in part. Of what is kept of the lines of a text any first bytes lead, done again, to the state after some first of
/// these lines: a torn log is never a bad one.
pub fn kept_files_go_on()
    ensures whole { (start : State) (had unread before : Option (List ℕ)) (redo : RedoneLines) (now : State) (left held synced after : Option (List ℕ)) (text file : List ℕ)
        → ServesOn MachineServes start had unread before redo now left held synced after → had ≡ Some text → synced ≡ Some file
        → Redoes MachineServes start (lines_of file) now }
    ensures broken { (start : State) (had stayed unread before : Option (List ℕ)) (now : State) (left held synced after : Option (List ℕ)) (fault : KeptFault) (text file : List ℕ)
        → ServeBreaks MachineServes start had stayed unread before now left held synced after (Session fault) → had ≡ Some text → synced ≡ Some file
        → KeepsAnswered start file before after }
    ensures torn { (old : State) (text out kept : List ℕ) (new : State) (size : ℕ) → GoesKept MachineServes old (lines_of text) out kept new
        → PartDone old (lines_of text) (cut (take size kept)).0 }
{}
