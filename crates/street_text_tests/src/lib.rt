//! Tests of texts: those of replies, faults and commands.
//!
//! They stand in a crate of their own since a crate is proved once more for the tests that it has.
#![tactic(auto)]

#[cfg(test)]
mod commands;
#[cfg(test)]
mod replies;
#[cfg(test)]
mod texts;
