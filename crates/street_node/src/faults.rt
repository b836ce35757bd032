//! Why a signal plan is refused. A `signal` command is refused by it.

use std::alloc::{AllocError, AllocFailed};
use thiserror::Error;

/// Why no signal plan was made.
#[derive(Debug, Drop, Error)]
pub enum SignalFault {
    /// The plan has a fault: the first is in the phase at this position; at the number of phases it is the offset,
    /// or that there is no phase.
    #[error("the signal plan is bad at {at}")]
    Bad {
        /// The position.
        at: u64,
    },
    /// Out of memory.
    #[error("out of memory")]
    Starved,
}

impl From<AllocError> for SignalFault {
    ghost use Rattle.std.specs.Prelude.{◌≡◌};
    ghost use Rattle.street_node.specs.declared.faults.SignalFault.TheVariants.{Starved};

    ghost from_gives = { λ _ fault. fault ≡ Starved };

    /// Memory was refused: `?` passes it on as `Starved`.
    fn from(_error: AllocError) -> SignalFault {
        SignalFault::Starved
    }
}

impl<T: Drop> From<AllocFailed<T>> for SignalFault {
    ghost use Rattle.std.specs.Prelude.{◌≡◌};
    ghost use Rattle.street_node.specs.declared.faults.SignalFault.TheVariants.{Starved};

    ghost from_gives = { λ _ fault. fault ≡ Starved };

    /// The same where a value came back with the error: it is dropped.
    fn from(_error: AllocFailed<T>) -> SignalFault {
        SignalFault::Starved
    }
}
