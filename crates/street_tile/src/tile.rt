//! A tile: its fields, the numbers that arrived, and the memory for a step. Each phase has a file; commands are in `commands`,
//! `vehicles` and `meters`. `tiles.rt` keeps the tiles, and the other files here add their calls to `Tile`.
ghost use Rattle.std.specs.Prelude.{◌≡◌, ◌+◌, ◌<◌, ◌≤◌, [], ◌++◌, None, option_to_list, OnOk};
ghost use Rattle.street_tile.specs.Prelude.{IsPrepared};

use crate::hand_over::{Comers, HandOver};
use std::marker::Model;
use street_base::{CarNo, RecordRow, Starved, Step};
use street_lanes::{Detectors, Lanes};
use street_node::SignalPlan;

/// A block of nodes with all lanes of the links that run to them, and the vehicles there.
#[derive(Drop)]
pub struct Tile {
    /// The position of its first node.
    pub(crate) low: usize,
    /// The position after that of its last node.
    pub(crate) high: usize,
    /// How many links the network has.
    pub(crate) links: usize,
    /// Its own lanes, all those of the links that run to its nodes, with the vehicles on them.
    pub(crate) own: Lanes,
    /// By `street_net::slot`: the number of each own lane in `own`, 0 for any other lane.
    pub(crate) numbers: Vec<usize>,
    /// For each own lane, by its number: the next own lane behind it that begins a link of two lanes; the count of own lanes where none
    /// does.
    pub(crate) next_pairs: Vec<usize>,
    /// The step that it makes next.
    pub(crate) clock: Step,
    /// The signal plan of each of its nodes, from `low` on, where there is one.
    pub(crate) signals: Vec<Option<SignalPlan>>,
    /// By `street_net::slot`: which mouths are open. Motion finds its own lanes'; releases begin with all, as the view has them.
    pub(crate) mouths: Vec<bool>,
    /// Who left its buffers, and was not yet moved to the tile of the lane that they enter.
    pub(crate) handed: Vec<HandOver>,
    /// Who comes to each own lane.
    pub(crate) coming: Comers,
    /// The numbers of those who arrived in the last step, until `next_arrival` takes them.
    pub(crate) arrived: Vec<CarNo>,
    /// The rows of those who arrived in the last step, lane by lane, until the next one's motion.
    pub(crate) left: Vec<RecordRow>,
    /// Whether a detector was ever placed in the tile. While none was, nothing is noted.
    pub(crate) has_meters: bool,
    /// The detectors of each own lane, by its number in `own`.
    pub(crate) detectors: Vec<Detectors>,
}

impl Model for Tile {
    ghost use Rattle.street_tile.specs.Prelude.{TileView};

    ghost Value = { TileView };

    ghost use Rattle.street_tile.specs.Inside.{seen, IsSound};

    ghost view = { seen };

    ghost invariant = { IsSound };
}

impl Tile {
    /// Takes the number of a vehicle that arrived in the last step; none when all were taken. Takes no memory.
    pub fn next_arrival(&mut self) -> Option<CarNo>
        ensures tile { self.new ≡ record self.old { arrived = self.new.arrived } }
        ensures rest { self.old.arrived ≡ self.new.arrived ++ option_to_list result }
        ensures none { result ≡ None → self.old.arrived ≡ [] }
    {
        self.arrived.pop()
    }

    /// Takes the memory for a step: one more vehicle may enter each own lane.
    ///
    /// # Errors
    /// Memory was refused; the tile is as it was, reserved room apart.
    pub fn prepare(&mut self) -> Result<(), Starved>
        ensures ok { OnOk result (IsPrepared self.new) }
        ensures same { self.new ≡ record self.old { own = record self.old.own { room = self.new.own.room } } }
        ensures room { self.old.own.room ≤ self.new.own.room }
    {
        let lanes = self.own.len();
        self.own.reserve(lanes)
    }
}
