//! Why a load or a plan is refused. A load and an `enter` are refused by them.

use std::alloc::{AllocError, AllocFailed};
use street_base::Part;
use thiserror::Error;

/// Why no network was built.
#[derive(Debug, Drop, Error)]
pub enum NetFault {
    /// The load has a fault; the first is at this position of this part.
    #[error("the load is bad at {part:?} {at}")]
    Bad {
        /// The part.
        part: Part,
        /// The position in it.
        at: u64,
    },
    /// Out of memory.
    #[error("out of memory")]
    Starved,
}

/// Why a plan was refused.
#[derive(Debug, Drop, Error)]
pub enum PlanFault {
    /// The plan has a fault; the first is at this position.
    #[error("the plan is bad at {at}")]
    Bad {
        /// The position.
        at: u64,
    },
    /// The first link has no such lane.
    #[error("the first link has no such lane")]
    Lane,
    /// Out of memory.
    #[error("out of memory")]
    Starved,
}

impl From<AllocError> for NetFault {
    ghost use Rattle.std.specs.Prelude.{◌≡◌};
    ghost use Rattle.street_net.specs.declared.faults.NetFault.TheVariants.{Starved};

    ghost from_gives = { λ _ fault. fault ≡ Starved };

    /// Memory was refused: `?` passes it on as `Starved`.
    fn from(_error: AllocError) -> NetFault {
        NetFault::Starved
    }
}

impl<T: Drop> From<AllocFailed<T>> for NetFault {
    ghost use Rattle.std.specs.Prelude.{◌≡◌};
    ghost use Rattle.street_net.specs.declared.faults.NetFault.TheVariants.{Starved};

    ghost from_gives = { λ _ fault. fault ≡ Starved };

    /// The same where a value came back with the error: it is dropped.
    fn from(_error: AllocFailed<T>) -> NetFault {
        NetFault::Starved
    }
}

impl From<AllocError> for PlanFault {
    ghost use Rattle.std.specs.Prelude.{◌≡◌};
    ghost use Rattle.street_net.specs.declared.faults.PlanFault.TheVariants.{Starved};

    ghost from_gives = { λ _ fault. fault ≡ Starved };

    /// Memory was refused: `?` passes it on as `Starved`.
    fn from(_error: AllocError) -> PlanFault {
        PlanFault::Starved
    }
}
