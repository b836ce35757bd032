//! Tests of tiles and engines, with values known beforehand: the lanes of a tile, detectors, a whole tile; commands, which
//! worker has which lanes, and that the workers of a step run side by side, which no contract can say.
//!
//! They stand in a crate of their own since a crate is proved once more for the tests that it has.
#![tactic(auto)]

#[cfg(test)]
mod callers;
#[cfg(test)]
mod commands;
#[cfg(test)]
mod detectors;
#[cfg(test)]
mod lanes;
#[cfg(test)]
mod meeting;
#[cfg(test)]
mod owners;
#[cfg(test)]
mod records;
#[cfg(test)]
mod scenes;
#[cfg(test)]
mod steps;
#[cfg(test)]
mod teams;
#[cfg(test)]
mod tiles;
#[cfg(test)]
mod workers;
