//! Tiles: blocks of nodes with all lanes of the links that run to them, and one step of all tiles.
//!
//! A [`Tile`] answers for its own lanes and nodes. [`Tiles`] has all tiles of a network between two steps: it gives a command to the
//! tile that owns the lane or node, and promises what becomes of the network's traffic.
//!
//! Each phase of a tile reads and writes its own lanes alone, so the tiles of a network run a phase side by side. [`step_by`] lends
//! the tiles three times to a [`Lender`], as threads ([`share`]) or a team, since phases between which no tile needs another's
//! are one part. Between the parts the thread that calls for the step publishes which lanes are open ([`View`]), and moves
//! vehicles from the tile that let them go to the tile that owns their next lane ([`HandOver`]). [`step_all`] is the same step
//! phase by phase, for a caller that watches each; both promise `Steps`.
#![tactic(auto)]

mod change;
mod commands;
mod cut;
mod entries;
mod gate;
mod hand_over;
mod hints;
mod lane_pairs;
mod lender;
mod meters;
mod motion;
mod record;
mod release;
mod sharing;
mod step;
mod tile;
mod tiles;
mod tiles_vehicles;
mod vehicles;
mod view;

pub use gate::Gate;
pub use hand_over::HandOver;
pub use hints::LinkHints;
pub use lender::{ClosureLender, Lender, TeamNetwork, TileWork, share, work_all};
pub use step::{step_all, step_by};
pub use tile::Tile;
pub use tiles::Tiles;
pub use view::View;
