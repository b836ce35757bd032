//! Laws of lines. Nothing is run here: it ties the lines that are served to runs of the machine.
ghost use Rattle.std.specs.Prelude.{ℕ, List, None};
ghost use Rattle.street_base.specs.Prelude.{IsSoundState, State};
ghost use Rattle.street_line.specs.Engines.{AreRunOf, MachineServes};
ghost use Rattle.street_line.specs.Runs.{Goes};

use street_base::census_holds;

/// A law, for proofs; the call does nothing. What the machine says to lines is a run of the commands among them: so what holds of
/// every run, as that a refused command changes nothing, holds of lines, and in each state that lines lead to from nothing loaded
/// the census holds.
pub fn lines_are_a_run()
    ensures run { (old : State) (ls : List (List ℕ)) (out : List ℕ) (new : State) → Goes MachineServes old ls out new → AreRunOf old ls new }
    ensures census { (ls : List (List ℕ)) (out : List ℕ) (new : State) → Goes MachineServes None ls out new → IsSoundState new }
{
    census_holds();
}
