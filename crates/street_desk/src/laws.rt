//! A law of histories: a legal one is a run of the machine. The laws of tapes call it.
ghost use Rattle.std.specs.Prelude.{List, None, map};
ghost use Rattle.street_base.specs.Prelude.{Runs};
ghost use Rattle.street_desk.specs.declared.journal.Entry.{Entry};
ghost use Rattle.street_desk.specs.History.{answers_of, state_of, IsLegal};

/// A law, for proofs; the call does nothing. A legal history is a run of the machine from nothing loaded, with its own outcomes, to
/// the state that it leaves.
pub fn legal_history_runs()
    ensures { (history : List Entry) → IsLegal history
        → Runs None (map (λ e. e.command) history) (answers_of history) (state_of history) }
{}
