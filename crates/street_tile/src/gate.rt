//! What the caller of a step sees and says of its workers. `step.rt` calls it before and after each phase of a tile.

use crate::tile::Tile;

/// What the caller of steps observes of them, and what it says of their threads.
pub trait Gate {
    /// Called for each tile before its part of each phase, by the thread that runs it: `worker` is the tile's position among all,
    /// 0 to 63, and `phase` is 0 for lane changes, 1 motion, 2 releases, 3 entries and departures, 4 detectors.
    fn arrive(&self, worker: u32, phase: u32, tile: &Tile) {}

    /// Called for each tile after its part of each phase, by the same thread, with the same numbers and the tile as it then is.
    fn leave(&self, worker: u32, phase: u32, tile: &Tile) {}

    /// Asked, where there are several tiles, before the first of each 16 steps of an advance: whether the workers share a step, on
    /// threads of their own, while so many vehicles are in cells, and so many of these in the tile that has most of them; else the
    /// calling thread runs all tiles in turn. The step is the same.
    fn shares(&self, vehicles: u64, fullest: u64) -> bool {
        true
    }

    /// How many threads at most, with the calling one, stay for up to 16 steps of an advance: the tiles are shared out among them.
    /// The steps are the same.
    fn processors(&self) -> usize {
        64
    }

    /// Asked where workers that stay share the next steps, of each number of threads, the calling one among them: how long a step takes, in
    /// any unit, where the busiest thread has so much to do, in what a step takes of a vehicle on a full link of one lane. As many stay
    /// as need least; of equal numbers the smallest. The steps are the same. As it stands here more threads are always sooner: as many stay
    /// as there are tiles, and processors at most.
    fn step_time(&self, threads: usize, busiest: u64) -> u64 {
        u64::MAX - threads as u64
    }
}
