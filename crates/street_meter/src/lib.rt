//! Detectors: sums of what passed a cell, by periods.
//!
//! A [`Meter`] notes three numbers a step ([`Meter::note`]): how many vehicles passed its cell, the sum of their new speeds, and whether
//! the cell is covered. It keeps sums of the running period and of the last 32 full ones, which [`Meter::rows`] tells. Contracts see these
//! sums, which stand for all that the machine's detector noted (`specs/Meter`). `street_lanes` keeps one for each detector of a lane.
#![tactic(auto)]

mod meter;

pub use meter::{Meter, MeterSite, Rows};
