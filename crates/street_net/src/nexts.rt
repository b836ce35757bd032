//! A few next links of each lane, which say quickly that a lane serves one. `network.rt` makes them, and asks them whether a
//! lane serves a link.
ghost use Rattle.std.specs.Prelude.{◌≡◌, ◌<◌};
ghost use Rattle.street_net.specs.Prelude.{has_next};

use street_base::LinkIx;

/// The number that names no link.
pub(crate) const NO_LINK: u16 = u16::MAX;

/// At most four next links of a lane.
#[derive(Clone, Copy)]
pub(crate) struct Nexts {
    pub(crate) first: LinkIx,
    pub(crate) second: LinkIx,
    pub(crate) third: LinkIx,
    pub(crate) fourth: LinkIx,
}

/// Those of both lanes of a link.
#[derive(Clone, Copy)]
pub(crate) struct Pair {
    pub(crate) zero: Nexts,
    pub(crate) one: Nexts,
}

// Walks ask for each vehicle in the turn zone: a link takes a quarter of a line of memory.
const _: () = prove!(size_of::<Pair>() == 16);

impl Nexts {
    /// Whether a link is one of them; the number that names no link never is. All four are compared, which takes no branch.
    #[inline]
    pub(crate) fn has(self, next: LinkIx) -> bool
        ensures { result ≡ has_next self next }
    {
        let next = next.as_u16();
        (next < NO_LINK)
            & ((self.first.as_u16() == next)
                | (self.second.as_u16() == next)
                | (self.third.as_u16() == next)
                | (self.fourth.as_u16() == next))
    }
}
