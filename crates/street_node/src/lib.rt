//! Nodes: their signal plans and buffers.
//!
//! A [`SignalPlan`] says of each turn and each step whether it is green. It is checked against the network when it is made.
//! [`Signal`] finds the plan of a node among those of some nodes.
//!
//! A vehicle that leaves a lane by a turn waits in the lane's buffer for its residence, and longer while the lane that it
//! turns to is not open. A buffer is a list of a yard; [`Buffers`] keeps which lists the buffers of one node are, in the
//! order of release, and how many vehicles each holds, and releases from them. The tiles of the program do not use it, as they
//! hand vehicles over by value: it is for a caller that keeps a single node.
#![tactic(auto)]

mod buffers;
mod checks;
mod faults;
mod phase;
mod plan;
mod release;
mod signal;

pub use buffers::Buffers;
pub use faults::SignalFault;
pub use plan::SignalPlan;
pub use release::Released;
pub use signal::Signal;
