//! Laws of a session that is kept. Nothing is run here: they say what a kept text is good for.
ghost use Rattle.std.specs.Prelude.{◌≡◌, ◌++◌, List, ℕ, Ok};
ghost use Rattle.street_base.specs.Prelude.{State};
ghost use Rattle.street_engine.specs.Prelude.{EngineView, StandsFor};
ghost use Rattle.street_stream.specs.Lines.{lines_of};
ghost use Rattle.street_line.specs.Redo.{Redoes};
ghost use Rattle.street_line.specs.Engines.{EngineServes, MachineServes};
ghost use Rattle.street_line.specs.Kept.{GoesKept};
ghost use Rattle.street_line.specs.KeptSessions.{IsSession, Left, Session, WholeServes, redo_lines, kept_session, with_lines};
ghost use Rattle.street_line.specs.Runs.{Goes};

/// A law, for proofs; the call does nothing. What is kept of the lines of a text leads to the state that the lines lead to: served
/// as a session, and done again. So the lines of which nothing is kept, which ask, are refused or find no memory, change nothing.
pub fn kept_lines_lead_there()
    ensures session { (old : State) (text out kept : List ℕ) (new : State) → GoesKept MachineServes old (lines_of text) out kept new
        → (replies : List ℕ) × Goes MachineServes old (lines_of kept) replies new }
    ensures redo { (old : State) (text out kept : List ℕ) (new : State) → GoesKept MachineServes old (lines_of text) out kept new
        → Redoes MachineServes old (lines_of kept) new }
{}

/// A law, for proofs; the call does nothing. Whatever state an engine stands for, what it serves and what is kept of it is the
/// machine's from that state on, and so is what it does again; it then stands for the state that this leads to.
pub fn kept_lines_are_the_machines()
    ensures kept { (before : EngineView) (ls : List (List ℕ)) (out kept : List ℕ) (after : EngineView) → GoesKept EngineServes before ls out kept after
        → (old : State) → StandsFor before old → (new : State) × GoesKept MachineServes old ls out kept new × StandsFor after new }
    ensures redo { (before : EngineView) (ls : List (List ℕ)) (after : EngineView) → Redoes EngineServes before ls after
        → (old : State) → StandsFor before old → (new : State) × Redoes MachineServes old ls new × StandsFor after new }
{}

/// A law, for proofs; the call does nothing. A kept session is a function, too: what the function leaves is what the machine serves from
/// the file on, without a fault. And of all that the relations allow nothing else comes where each command is answered whole: neither of
/// lines that are served, nor of lines that are done again.
pub fn kept_sessions_are_a_function()
    ensures session { (had text : List ℕ) (left : Left) → kept_session had text ≡ Ok left → IsSession MachineServes had text left }
    ensures served { (s : Session) (ls : List (List ℕ)) (out kept : List ℕ) (new : State) → GoesKept WholeServes s.machine ls out kept new
        → with_lines s ls ≡ record { machine = new; replies = s.replies ++ out; kept = s.kept ++ kept } }
    ensures redo { (n : ℕ) (old : State) (ls : List (List ℕ)) (new : State) → Redoes WholeServes old ls new → redo_lines n (Ok old) ls ≡ Ok new }
{}
