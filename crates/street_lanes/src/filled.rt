//! The next lane on which somebody is, so that a phase of a step goes over these lanes alone. The phases of `street_tile` call
//! it.
ghost use Rattle.std.specs.Prelude.{◌≤◌, length};
ghost use Rattle.street_yard.specs.Prelude.{IsFirstBut};
ghost use Rattle.street_lanes.specs.Prelude.{lane_of, HasNobody};

use crate::lanes::Lanes;
use street_yard::ListKind;

impl Lanes {
    /// The first lane from `lane` on, by its number on the tile, with somebody on its list of this kind: in its cells, in its
    /// buffer, or waiting. The count of lanes where none has.
    #[inline]
    pub fn next_filled(&self, kind: ListKind, lane: usize) -> usize
        requires { lane ≤ length self.now.lanes }
        ensures { IsFirstBut (λ n. HasNobody kind (lane_of self.now n)) lane (length self.now.lanes) result }
    {
        self.yard.next_filled(kind, lane)
    }
}
