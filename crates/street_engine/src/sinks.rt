//! What is told of each step of an advance. `streets.rt` tells a sink of each step that it has made.
ghost use Rattle.std.specs.Prelude.{◌≡◌};

use crate::Streets;

/// What is told of each step, right after it was made.
pub trait StepSink {
    ghost use Rattle.street_base.specs.Prelude.{Traffic};
    ghost use Rattle.street_engine.specs.Prelude.{HasStepped};

    /// What one call does: the sink before it, the traffic before the step, the sink after it.
    ghost notes: { Self → Traffic → Self → Type 0 };

    /// Takes note of a step, by the streets after it.
    fn note(&mut self, streets: &Streets)
        requires { (m : Traffic) × HasStepped streets.now m }
        ensures { (m : Traffic) → HasStepped streets.now m → notes self.old m self.new };
}

/// The sink of a run of which no record is kept.
#[derive(Drop)]
pub struct Unrecorded;

impl StepSink for Unrecorded {
    ghost notes = { λ old m new. new ≡ old };

    /// Does nothing.
    fn note(&mut self, _streets: &Streets) {}
}
