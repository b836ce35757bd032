//! Where detectors are. `streets.rt` keeps one for each detector.

use street_base::Place;

/// Where a detector is: its lane, and its number among the detectors of that lane.
#[derive(Clone, Copy)]
pub struct DetectorSite {
    /// The lane.
    pub at: Place,
    /// The number, from 0.
    pub number: usize,
}
