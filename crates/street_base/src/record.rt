//! What the record of a run has of each step: a head, and a row for each vehicle. `street_lanes` and `street_tile` make the
//! rows, `street_record` writes them.

/// The head of a step's block. It goes out as its four numbers in this order, of 32 bits each, least byte first; so does a row.
#[derive(Clone, Copy)]
pub struct RecordHead {
    /// The clock after the step.
    pub clock: u32,
    /// How many rows follow.
    pub rows: u32,
    /// How many vehicles have arrived in all.
    pub arrived: u32,
    /// How many were taken out in all.
    pub taken: u32,
}

/// A row of the record: a vehicle, and where it is after the step.
#[derive(Clone, Copy)]
pub struct RecordRow {
    /// The number of the vehicle.
    pub car: u32,
    /// The lane: twice the position of its link, and its number on the link.
    pub slot: u32,
    /// The cell of its front; in a buffer 2^31 and the step from which it may go on; 2^32 - 1 where it arrived in the step.
    pub spot: u32,
    /// Its speed, in cells a step; of one that arrived that with which it left.
    pub speed: u32,
}
