//! Tests of the parts of a step, with values known beforehand: the arena and gaps on the lists of a lane, motion, buffers, draws,
//! the rows of detectors; networks with their look-ups and plans; signals.
//!
//! They stand in a crate of their own since a crate is proved once more for the tests that it has.
#![tactic(auto)]

#[cfg(test)]
mod buffers;
#[cfg(test)]
mod callers;
#[cfg(test)]
mod draws;
#[cfg(test)]
mod gaps;
#[cfg(test)]
mod meters;
#[cfg(test)]
mod motion;
#[cfg(test)]
mod nets;
#[cfg(test)]
mod networks;
#[cfg(test)]
mod signals;
#[cfg(test)]
mod yards;
