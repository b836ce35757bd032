//! What takes the rows of a record. `street_lanes` and `street_tile` give rows to a sink.
use street_base::RecordRow;

/// What takes the rows of a record, one after another. It refuses none: one that fails keeps to itself that it did.
pub trait RowSink {
    ghost use Rattle.street_base.specs.declared.record.RecordRow.{RecordRow as RowSeen};

    /// What one call does: the sink before, the row, the sink behind.
    ghost takes: { Self → RowSeen → Self → Type 0 };

    /// Takes a row.
    fn row(&mut self, row: RecordRow)
        ensures { takes self.old row self.new };
}
