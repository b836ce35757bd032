//! What a caller holds: a pass, and notes of what a pass has seen. `desk.rt` makes and changes them; a session of `street_line`
//! holds a pass.

use crate::journal::Recorder;
use crate::view::SeatView;
use atomic_table::Seat;
use std::marker::Model;
use street_engine::Gate;

/// A seat at the desk's table.
pub(crate) type DeskSeat<G> = Seat<Option<Recorder<G>>, SeatView>;

/// What one caller knows of a desk, and the session numbers that it owns, `least` to `greatest`. It calls as the least of them.
#[derive(Drop)]
pub struct Pass<G: Gate + Sync + Drop> {
    pub(crate) seat: DeskSeat<G>,
    pub(crate) least: u64,
    pub(crate) greatest: u64,
}

impl<G: Gate + Sync + Drop> Model for Pass<G> {
    ghost use Rattle.std.specs.Prelude.{◌≡◌, ◌≤◌, [], ◌∷◌};
    ghost use Rattle.street_desk.specs.Passes.{PassView, pass_view, Rests};

    ghost Value = { PassView };

    ghost view = { λ p. pass_view p.seat.table_id p.seat.me.0 };

    ghost invariant = { λ p. (p.seat.me.1 ≡ [])
        × Rests p.seat.me.0
        × (p.least ≡ p.seat.me.0.least)
        × (p.greatest ≡ p.seat.me.0.greatest)
        × (p.least ≤ p.greatest) };
}

/// What a pass had seen, for another to hear.
#[derive(Drop)]
pub struct Note<G: Gate + Sync + Drop> {
    pub(crate) seat: DeskSeat<G>,
}

impl<G: Gate + Sync + Drop> Model for Note<G> {
    ghost use Rattle.std.specs.Prelude.{◌≡◌, [], ◌∷◌};
    ghost use Rattle.street_desk.specs.Passes.{NoteView, note_view};

    ghost Value = { NoteView };

    ghost view = { λ n. note_view n.seat.table_id n.seat.me.0 };

    ghost invariant = { λ n. n.seat.me.1 ≡ [] };
}
