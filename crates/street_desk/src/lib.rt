//! The desk: the threads of many callers take turns on one engine, and all their calls stand in one legal history.
//!
//! A [`Desk`] keeps an engine with its [`Journal`]. A caller has a [`Pass`], which knows what its caller has seen of the
//! history: `specs/History` says what a history is and when it is legal, `specs/Passes` what each call tells. The rule that
//! all steps on the desk's one word keep is `KeepsRule` of `specs/Rule`.
#![tactic(auto)]

mod desk;
mod faults;
mod journal;
mod laws;
mod pass;
mod view;

pub use desk::Desk;
pub use faults::{Full, SplitFault, Torn};
pub use journal::{Entry, Journal};
pub use laws::legal_history_runs;
pub use pass::{Note, Pass};
