//! The most that a command or a load may name, and the most that there may be. The definitions state them in
//! `specs/Limits.antt`; code takes them from here, and `limits_are_defined` says that they agree. Every crate that tests a
//! number takes its limit from here.
ghost use Rattle.std.specs.Prelude.{◌≡◌};
ghost use Rattle.street_base.specs.Limits.{last_clock, greatest_id, most_nodes, most_links, most_turns, most_lanes, most_size, most_cells};
ghost use Rattle.street_base.specs.Limits.{most_residence, most_capacity, most_limit, most_zone, most_dawdle, most_change, most_vehicles};
ghost use Rattle.street_base.specs.Limits.{most_steps, most_plan, most_phases, most_duration, most_greens, most_detectors, most_period};
ghost use Rattle.street_base.specs.Limits.{most_workers, most_calls, most_sessions, most_reads};

use crate::names::{CarNo, Step};

/// The last clock that a network may start at or come to, in steps.
pub const LAST_CLOCK: Step = 1_000_000_000;

/// The greatest identifier of a node or a link.
pub const GREATEST_ID: u64 = 4_294_967_295;

/// How many nodes a load has at most.
pub const MOST_NODES: usize = 4_096;

/// How many links a load has at most.
pub const MOST_LINKS: usize = 4_096;

/// How many turns a load has at most.
pub const MOST_TURNS: usize = 32_768;

/// How many lanes a link has at most.
pub const MOST_LANES: u64 = 2;

/// How many cells the longest vehicle covers.
pub const MOST_SIZE: u64 = 4;

/// How many cells a lane has at most.
pub const MOST_CELLS: u64 = 1_000_000;

/// The greatest residence in a buffer, in steps.
pub const MOST_RESIDENCE: u64 = 60;

/// How many vehicles a buffer holds at most.
pub const MOST_CAPACITY: u64 = 64;

/// The greatest speed limit, in cells a step.
pub const MOST_LIMIT: u64 = 5;

/// The greatest length of the turn zone, in cells.
pub const MOST_ZONE: u64 = 1_000;

/// The greatest dawdle, of 1,000.
pub const MOST_DAWDLE: u64 = 1_000;

/// The greatest change, of 1,000.
pub const MOST_CHANGE: u64 = 1_000;

/// How many vehicles are ever admitted at most.
pub const MOST_VEHICLES: CarNo = 1_000_000;

/// How many steps an advance has at most.
pub const MOST_STEPS: u64 = 10_000;

/// How many links a plan has at most.
pub const MOST_PLAN: usize = 1_024;

/// How many phases a signal plan has at most.
pub const MOST_PHASES: usize = 16;

/// The longest duration of a phase, in steps.
pub const MOST_DURATION: u64 = 600;

/// How many green turns a phase lists at most.
pub const MOST_GREENS: usize = 32_768;

/// How many detectors there are at most.
pub const MOST_DETECTORS: usize = 1_024;

/// The longest period of a detector, in steps.
pub const MOST_PERIOD: u64 = 100_000;

/// How many link workers there are at most.
pub const MOST_WORKERS: u64 = 64;

/// How many calls a desk takes at most.
pub const MOST_CALLS: u64 = 1_000_000;

/// How many sessions a desk has at most.
pub const MOST_SESSIONS: usize = 1_024;

/// How many reads a run asks of its input at most.
pub const MOST_READS: u32 = 1_000_000_000;

/// The constants of this file are the limits that the definitions state.
pub fn limits_are_defined()
    ensures clock { LAST_CLOCK ≡ last_clock }
    ensures load { (GREATEST_ID ≡ greatest_id) × (MOST_NODES ≡ most_nodes) × (MOST_LINKS ≡ most_links) × (MOST_TURNS ≡ most_turns) }
    ensures nodes { (MOST_RESIDENCE ≡ most_residence) × (MOST_CAPACITY ≡ most_capacity) }
    ensures links { (MOST_LANES ≡ most_lanes) × (MOST_CELLS ≡ most_cells) × (MOST_LIMIT ≡ most_limit) }
    ensures values { (MOST_ZONE ≡ most_zone) × (MOST_DAWDLE ≡ most_dawdle) × (MOST_CHANGE ≡ most_change) }
    ensures vehicles { (MOST_VEHICLES ≡ most_vehicles) × (MOST_SIZE ≡ most_size) × (MOST_PLAN ≡ most_plan) × (MOST_STEPS ≡ most_steps) }
    ensures signals { (MOST_PHASES ≡ most_phases) × (MOST_DURATION ≡ most_duration) × (MOST_GREENS ≡ most_greens) }
    ensures detectors { (MOST_DETECTORS ≡ most_detectors) × (MOST_PERIOD ≡ most_period) }
    ensures service { (MOST_WORKERS ≡ most_workers) × (MOST_CALLS ≡ most_calls) × (MOST_SESSIONS ≡ most_sessions) × (MOST_READS ≡ most_reads) }
{}
