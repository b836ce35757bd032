//! Rows in the order of their lanes, and one more row for a sink. The rows of a tile call it.
ghost use Rattle.std.specs.Prelude.{option_to_list};
ghost use Rattle.std.specs.List.{FoldsTo};
ghost use Rattle.std.specs.List.Sorted.{IsNonDecreasingBy};
ghost use Rattle.street_record.specs.Rows.{FindsRow};

use crate::sink::RowSink;
use street_base::RecordRow;

/// The row of a lane, by its slot, among rows in the order of their slots, if there is one.
pub fn row_of(rows: &[RecordRow], slot: u32) -> Option<RecordRow>
    ensures { IsNonDecreasingBy (λ row. row.slot) rows.now → FindsRow rows.now slot result }
{
    match rows.binary_search_by_key(&slot, |row| row.slot) {
        Ok(at) => Some(rows[at]),
        Err(_) => None,
    }
}

/// Gives a sink a row, if there is one.
pub fn give_row<S: RowSink>(row: Option<RecordRow>, sink: &mut S)
    ensures { FoldsTo S.takes sink.old (option_to_list row) sink.new }
{
    if let Some(row) = row {
        sink.row(row);
    }
}
