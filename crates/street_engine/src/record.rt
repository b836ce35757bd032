//! The record of a run: a block for each step, written as soon as the step was made. A `RecordWriter` is such a sink:
//! `streets.rt` tells it of each step.
ghost use Rattle.std.specs.Prelude.{◌*◌};
ghost use Rattle.street_base.specs.Prelude.{Traffic, block};
ghost use Rattle.street_record.specs.Given.{Adds};
ghost use Rattle.street_engine.specs.Prelude.{HasStepped};

use crate::{StepSink, Streets};
use std::io::Write;
use street_record::RecordWriter;

impl Streets {
    /// Writes the block of the step that was made last.
    pub(crate) fn write_block<W: Write + Drop>(&self, writer: &mut RecordWriter<W>)
        requires { (m : Traffic) × HasStepped self.now m }
        ensures { (m : Traffic) → HasStepped self.now m → Adds W.contents (block m) writer.old writer.new }
    {
        writer.head(self.record_head());
        self.tiles().write_rows(writer);
    }
}

impl<W: Write + Drop> StepSink for RecordWriter<W> {
    ghost notes = { λ old m new. Adds W.contents (block m) old new };

    /// Writes the block of the step.
    fn note(&mut self, streets: &Streets) {
        streets.write_block(self);
    }
}
