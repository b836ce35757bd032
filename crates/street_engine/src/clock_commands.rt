//! Commands of the clock and of all vehicles together: advance and count. `commands.rt` calls them.
ghost use Rattle.std.specs.Prelude.{◌≡◌, ◌+◌, ◌≤◌, Some, None};
ghost use Rattle.street_base.specs.declared.command.Command.TheVariants.{Advance, Count};
ghost use Rattle.street_base.specs.Prelude.{last_clock, advance_refusal, Traffic};
ghost use Rattle.street_engine.specs.Prelude.{Serves, KeepsRefused, KeepsSink, StreetsStandFor, MakesSteps, ToldSteps};

use crate::{StepSink, Streets};
use street_base::{LAST_CLOCK, MOST_STEPS, Outcome, Refusal, Reply};

/// Why an advance of so many steps is refused; none where it is not. Takes no memory.
pub(crate) fn advance_refusal(streets: &Streets, steps: u64) -> Option<Refusal>
    ensures refusal { (m : Traffic) → StreetsStandFor streets.now m → result ≡ advance_refusal steps m }
    ensures in_time { result ≡ None → streets.now.clock + steps ≤ last_clock }
{
    if steps > MOST_STEPS {
        return Some(Refusal::BadCount);
    }
    if u64::from(streets.clock()) + steps > u64::from(LAST_CLOCK) {
        return Some(Refusal::ClockEnd);
    }
    None
}

/// Serves an advance by calls of `make`: so many steps, or as many as there was memory for, which is taken before each step. Gives the
/// streets back as the steps left them, and the sink that was told of each.
pub(crate) fn advance<K: StepSink, M: Fn(Streets, K, u64) -> (Streets, K, u64)>(
    make: &M,
    streets: Streets,
    sink: K,
    steps: u64,
) -> (Streets, K, Reply, Outcome)
    requires make { MakesSteps K.notes M.Fn make.now }
    ensures serves { Serves (Some streets) (Advance steps) result.2 result.3 (Some result.0) }
    ensures refused { KeepsRefused (Some streets) result.2 (Some result.0) }
    ensures told { ToldSteps K.notes (Some streets) (Advance steps) result.2 sink result.1 }
    ensures untold { KeepsSink (Advance steps) result.2 sink result.1 }
{
    if let Some(refusal) = advance_refusal(&streets, steps) {
        return (streets, sink, Reply::Refused(refusal), Outcome::Whole);
    }
    let before = u64::from(streets.clock());
    let (streets, sink, made) = streets.steps(make, sink, steps);
    let clock = before + made;
    if made == steps {
        (streets, sink, Reply::Clock { clock }, Outcome::Whole)
    } else if made == 0 {
        (streets, sink, Reply::Starved, Outcome::Starved)
    } else {
        (
            streets,
            sink,
            Reply::Short { clock, short: made },
            Outcome::Short(made),
        )
    }
}

/// Serves the question how many vehicles stand where or have ended how. Takes no memory.
pub(crate) fn count(streets: &Streets) -> (Reply, Outcome)
    ensures { Serves (Some streets.now) Count result.0 result.1 (Some streets.now) }
{
    (streets.census(), Outcome::Whole)
}
