//! What a seat at the desk's table knows, and the steps on its word. The table has one word, twice the number of finished calls
//! and one more during a turn, and one slot, in which the engine lies with its journal while nobody has the turn. The contracts
//! of `desk.rt` speak of it.

use crate::journal::{Entry, Recorder};
use atomic_table::{Join, Play, Split, TableRule};
use std::collections::LinkedList;
use street_engine::Gate;

/// What a seat knows. No value of it is made.
pub struct SeatView {
    /// The history seen.
    pub seen: LinkedList<Entry>,
    /// What was heard of the history, until the next load.
    pub also: LinkedList<Entry>,
    /// The number of finished calls that was told.
    pub count: u64,
    /// Whether it has the turn.
    pub turn: bool,
    /// Whether it owns session numbers: those from `least` to `greatest`.
    pub owns: bool,
    /// The session that it calls as.
    pub least: u64,
    /// The greatest session number that it owns.
    pub greatest: u64,
    /// How many calls the desk takes.
    pub calls: u64,
    /// How many sessions it has.
    pub sessions: u64,
    /// Whether it is still of use: the seat of a note that was heard is not.
    pub live: bool,
}

/// How many calls a desk takes, and how many sessions it has.
#[derive(Clone, Copy, Drop)]
pub struct DeskLimits {
    pub calls: u64,
    pub sessions: u64,
}

/// The rule of the table.
pub struct DeskTurns;

impl<G: Gate + Sync + Drop> TableRule<Option<Recorder<G>>, SeatView, DeskLimits> for DeskTurns {
    ghost use Rattle.street_desk.specs.Rule.{KeepsRule, first_view};

    ghost holds = { λ k. KeepsRule k.calls k.sessions };

    ghost first = { λ k. first_view k.calls k.sessions };
}

/// A load of the word.
pub(crate) struct Look;

impl<G: Gate + Sync + Drop> Play<Option<Recorder<G>>, SeatView> for Look {
    ghost use Rattle.street_desk.specs.Steps.{look};

    ghost then = { look };
}

/// A compare-exchange of the word, which may take the turn.
pub(crate) struct Grab;

impl<G: Gate + Sync + Drop> Play<Option<Recorder<G>>, SeatView> for Grab {
    ghost use Rattle.street_desk.specs.Steps.{grab};

    ghost then = { grab };
}

/// The store to the word that gives the turn back.
pub(crate) struct Release;

impl<G: Gate + Sync + Drop> Play<Option<Recorder<G>>, SeatView> for Release {
    ghost use Rattle.street_desk.specs.Steps.{release};

    ghost then = { release };
}

/// The greatest session number goes to a pass of its own.
pub(crate) struct Last;

impl Split<SeatView> for Last {
    ghost use Rattle.street_desk.specs.Steps.{kept_half, given_half};

    ghost left = { kept_half };

    ghost right = { given_half };
}

/// A note is made, and heard.
pub(crate) struct Hearsay;

impl Split<SeatView> for Hearsay {
    ghost use Rattle.street_desk.specs.Steps.{noted};

    ghost left = { λ v. v };

    ghost right = { noted };
}

impl Join<SeatView> for Hearsay {
    ghost use Rattle.street_desk.specs.Steps.{heard, spent_view};

    ghost both = { heard };

    ghost spent = { spent_view };
}
