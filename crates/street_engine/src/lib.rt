//! The engine: commands over the traffic of one network, each answered exactly as the cell machine answers it.
//!
//! [`Engine`] serves commands. Each command has a function, which tests its refusals in their order, then does the command by one
//! call of [`Streets`], and answers; it knows nothing of how traffic is kept.
//!
//! [`Streets`] holds the tiles of the network ([`street_tile::Tiles`]), the clock, how each vehicle ended, and where each detector
//! is, behind contracts that name the machine alone.
//!
//! A [`Crew`] is who makes the steps of an engine's advances: whoever serves commands for others has one.
#![tactic(auto)]

mod clock_commands;
mod commands;
mod crew;
mod crews;
mod detector_commands;
mod ends;
mod engine;
mod lane_commands;
mod names;
mod record;
mod sinks;
mod sites;
mod streets;
mod teams;
mod vehicle_commands;

pub use crew::{AloneCrew, Crew, StartedCrew, StayingCrew};
pub use engine::{Engine, Unwatched};
pub use sinks::{StepSink, Unrecorded};
pub use sites::DetectorSite;
pub use street_tile::Gate;
pub use streets::Streets;
