//! Tapes: the journal of a desk as a text, which can be kept, replayed and upgraded.
//!
//! The text is `tape_text` of `specs/Tapes`; what its lines say is `head_reading` and `entry_reading` of
//! `specs/Entries`, and what a whole tape says is `tape_reading` there.
//!
//! A replay applies a tape's calls to an engine, each as it went at the desk, and writes their replies; an upgrade writes the
//! tape anew in version 2. What the calls give is `output_from` of `specs/Replies`; what a replay leaves stands in
//! `specs/Faults`, what an upgrade leaves in `specs/Upgrades`, and what a bad tape is in `specs/BadTapes`.
#![tactic(auto)]

mod calls;
mod entries;
mod fault;
mod fits;
mod head;
mod journal_tape;
mod laws;
mod replay_laws;
mod replays;
mod tape;
mod texts;
mod upgrades;

pub use entries::{LONGEST_TAPE_LINE, read_entry, read_head};
pub use fault::TapeFault;
pub use head::TapeHead;
pub use journal_tape::write_tape;
pub use laws::{journal_reads_back, tape_reads_back};
pub use replay_laws::{old_tape_replays, tape_replays};
pub use replays::{replay, replay_within};
pub use tape::{Stop, Tape};
pub use texts::{entry_text, head_text};
pub use upgrades::{upgrade, upgrade_within};
