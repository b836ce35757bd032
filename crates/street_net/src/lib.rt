//! A network that was checked, with its look-ups.
//!
//! [`Network::build`] checks each entry of a load once, and answers the first fault or, with the turns sorted, a [`Network`].
//! Of a network it is known from then on that it has no fault, and that each look-up of an identifier takes constant time.
//!
//! A plan is checked against it ([`Network::check_plan`]; [`Network::plan_refusal`] takes no memory). Contracts see a network as the load
//! that it was built from, and of each look-up what it finds in that load (`specs/Tables`).
#![tactic(auto)]

mod briefs;
mod entries;
mod faults;
mod keys;
mod lanes;
mod lists;
mod network;
mod nexts;
mod plans;
mod turns;

pub use faults::{NetFault, PlanFault};
pub use lanes::slot;
pub use network::Network;
