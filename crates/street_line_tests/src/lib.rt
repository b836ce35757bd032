//! Tests of lines: what a line reads as; streams that count and fail; a desk at which two callers take turns; sessions at a desk,
//! whole ones over bytes in memory among them; and lines that an engine serves over streams that fail when they are told to.
//!
//! They stand in a crate of their own since a crate is proved once more for the tests that it has.
#![tactic(auto)]

#[cfg(test)]
mod desk;
#[cfg(test)]
mod driver;
#[cfg(test)]
mod kept;
#[cfg(test)]
mod line_commands;
#[cfg(test)]
mod lines;
#[cfg(test)]
mod memory_streams;
#[cfg(test)]
mod scenes;
#[cfg(test)]
mod sessions;
#[cfg(test)]
mod streams;
