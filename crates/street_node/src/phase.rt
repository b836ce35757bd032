//! A phase of a signal plan as it is kept: its green turns in order, so that one is found by a search. `plan.rt` keeps and asks
//! them.
ghost use Rattle.std.specs.Prelude.{◌≡◌, ◌<◌, map};
ghost use Rattle.std.specs.List.Sorted.{IsPermutation};
ghost use Rattle.street_base.specs.declared.names.Place.{Place};
ghost use Rattle.street_base.specs.Prelude.{lists};
ghost use Rattle.street_node.specs.Prelude.{turn_cmp, green_seen, mark_of, HasMarks};

use std::cmp::Ordering;
use std::marker::Model;
use street_base::{LaneNo, LinkIx, Step, Turn};

/// A turn that is green: from a lane of `link` to the link `next`.
#[derive(Clone, Copy)]
pub(crate) struct GreenTurn {
    pub(crate) link: LinkIx,
    pub(crate) next: LinkIx,
    pub(crate) lane: LaneNo,
}

/// How many steps a phase lasts, its green turns, in the order of `in_order`, and marks of the links that these leave, one a bit.
/// A link without its mark has no green turn, and then no list is read.
#[derive(Drop)]
pub(crate) struct KeptPhase {
    duration: Step,
    marks: u64,
    greens: Vec<GreenTurn>,
}

impl Model for KeptPhase {
    ghost use Rattle.street_base.specs.Prelude.{Phase};

    ghost Value = { Phase };

    ghost use Rattle.street_node.specs.Prelude.{phase_seen, AreKeptGreens};

    ghost view = { λ p. phase_seen p.duration p.greens.items };

    ghost invariant = { λ p. AreKeptGreens p.marks p.greens.items };
}

impl GreenTurn {
    ghost use Rattle.street_node.specs.Prelude.{turn_rank};

    /// The turn as one number, in the order of `in_order`, so that a search compares once.
    fn rank(&self) -> u64
        ensures rank { result ≡ turn_rank self.now }
        ensures small { (self.now.lane < 256) × (self.now.next < 65536) }
    {
        let link = u64::from(self.link.as_u16());
        let lane = u64::from(self.lane);
        link * 16_777_216 + lane * 65_536 + u64::from(self.next.as_u16())
    }
}

/// The order in which green turns are kept: by the link, then by the lane, then by the next link.
fn in_order(turn: &GreenTurn, other: &GreenTurn) -> Ordering
    ensures { result ≡ turn_cmp turn.now other.now }
{
    turn.rank().cmp(&other.rank())
}

/// Which of the 64 marks is that of a link, 0 to 63; links may share one.
fn mark_of(link: LinkIx) -> u32
    ensures is { result ≡ mark_of link }
    ensures small { result < 64 }
{
    u32::from(link.as_u16() % 64)
}

/// The marks of the links that these turns leave, one a bit.
fn marks_of(greens: &[GreenTurn]) -> u64
    ensures { HasMarks result greens.now }
{
    let mut marks = 0;
    for green in greens {
        marks |= 1 << mark_of(green.link);
    }
    marks
}

impl KeptPhase {
    /// A phase of so many steps and these green turns, which it puts into order.
    pub(crate) fn new(duration: Step, greens: Vec<GreenTurn>) -> KeptPhase
        ensures duration { result.duration ≡ duration }
        ensures greens { IsPermutation (map green_seen greens.items) result.greens }
    {
        let mut greens = greens;
        greens.sort_unstable_by(|turn, other| in_order(turn, other));
        let marks = marks_of(&greens);
        KeptPhase {
            duration,
            marks,
            greens,
        }
    }

    /// How many steps the phase lasts.
    pub(crate) fn duration(&self) -> Step
        ensures { result ≡ self.now.duration }
    {
        self.duration
    }

    /// Whether the phase shows a turn green; found by a search among its green turns, where the turn's link has its mark.
    pub(crate) fn shows(&self, turn: &Turn) -> bool
        ensures { let place : Place = record { link = turn.now.link; lane = turn.now.lane } in
            result ≡ lists self.now place turn.now.next }
    {
        if (self.marks >> mark_of(turn.link)) % 2 == 0 {
            return false;
        }
        let wanted = GreenTurn {
            link: turn.link,
            next: turn.next,
            lane: turn.lane,
        };
        let greens = self.greens.as_slice();
        greens
            .binary_search_by(|green| in_order(green, &wanted))
            .is_ok()
    }
}
