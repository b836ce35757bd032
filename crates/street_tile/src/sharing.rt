//! How the tiles are shared out among the threads of a team: blocks of neighbours with about as many vehicles in cells each.
//! Looks at no lane. Nothing is promised of a block, since a step is the same however the tiles are lent. `street_engine` asks
//! for them before a team starts.

use crate::Tile;
use crate::tiles::Tiles;
use std::alloc::Global;
use street_base::Starved;
use street_team::{ItemBlock, new_blocks};

/// What a step takes of a lane, apart from its vehicles, in what it takes of a vehicle on a full link of one lane.
const LANE: u64 = 2;

/// What it takes of a tile, apart from its lanes.
const TILE: u64 = 25;

/// What it takes more of a vehicle on a link of two lanes.
const BESIDE: u64 = 2;

/// Neighbouring tiles: how many, how many vehicles are in their cells, and how many lanes they have.
#[derive(Clone, Copy)]
struct Span {
    tiles: usize,
    cells: u64,
    lanes: u64,
}

/// A block of no tile.
const NO_TILE: Span = Span {
    tiles: 0,
    cells: 0,
    lanes: 0,
};

impl Span {
    /// These tiles and one more behind them.
    fn with(self, tile: &Tile) -> Span {
        Span {
            tiles: self.tiles.saturating_add(1),
            cells: self.cells.saturating_add(tile.own.totals().cells),
            lanes: self.lanes.saturating_add(tile.own.len() as u64),
        }
    }

    /// These tiles without the first of them, which are given.
    fn without(self, first: Span) -> Span {
        Span {
            tiles: self.tiles.saturating_sub(first.tiles),
            cells: self.cells.saturating_sub(first.cells),
            lanes: self.lanes.saturating_sub(first.lanes),
        }
    }
}

impl Tiles {
    /// How many vehicles are in cells, and how many of these in the tile that has most of them.
    pub fn in_cells(&self) -> (u64, u64) {
        let all = self.whole().cells;
        let mut most = 0;
        for tile in &self.tiles {
            most = most.max(tile.own.totals().cells);
        }
        (all, most)
    }

    /// All tiles, as one block.
    fn whole(&self) -> Span {
        let mut whole = NO_TILE;
        for tile in &self.tiles {
            whole = whole.with(tile);
        }
        whole
    }

    /// The first of so many blocks of the tiles in `rest`, which are the last: it ends where it comes nearest to its share of the
    /// vehicles, and leaves a tile for each other block.
    fn first_block(&self, rest: Span, blocks: usize) -> Span {
        let share = rest.cells / (blocks as u64).max(1);
        let most = rest.tiles.saturating_sub(blocks.saturating_sub(1));
        let mut block = NO_TILE;
        for i in self.tiles.len().saturating_sub(rest.tiles)..self.tiles.len() {
            let more = block.with(&self.tiles[i]);
            let is_full = more.cells.saturating_sub(share) > share.saturating_sub(block.cells);
            if block.tiles == most || block.tiles > 0 && is_full {
                return block;
            }
            block = more;
        }
        block
    }

    /// How much a step takes of some neighbouring tiles, in what it takes of a vehicle on a full link of one lane; `whole` is all tiles. On
    /// which links their vehicles are is not counted: as many are taken to be on links of two lanes as these have of all lanes.
    fn load_of(&self, block: Span, whole: Span) -> u64 {
        let links = self.network.spec().links.as_slice().len() as u64;
        let beside = whole.lanes.saturating_sub(links).saturating_mul(2);
        let more = block.cells.saturating_mul(BESIDE).saturating_mul(beside) / whole.lanes.max(1);
        let lanes = block.lanes.saturating_mul(LANE);
        let tiles = (block.tiles as u64).saturating_mul(TILE);
        block
            .cells
            .saturating_add(more)
            .saturating_add(lanes)
            .saturating_add(tiles)
    }

    /// How much a step takes of the fullest of so many blocks, in what it takes of a vehicle on a full link of one lane.
    pub fn most_in_block(&self, blocks: usize) -> u64 {
        let mut most = 0;
        let whole = self.whole();
        let mut rest = whole;
        for done in 0..blocks {
            let block = self.first_block(rest, blocks - done);
            most = most.max(self.load_of(block, whole));
            rest = rest.without(block);
        }
        most
    }

    /// Blocks in which a team lends the tiles to so many threads: one for each with room for its tiles, behind those of the caller, and for
    /// all mouths.
    ///
    /// # Errors
    /// Memory was refused.
    pub fn blocks(&self, alloc: Global, threads: usize) -> Result<Vec<ItemBlock<Tile>>, Starved> {
        let mut rooms = Vec::with_capacity(alloc, threads)?;
        let whole = self.whole();
        let mut rest = whole.without(self.first_block(whole, threads.saturating_add(1)));
        for done in 0..threads {
            let block = self.first_block(rest, threads - done);
            rooms.push(block.tiles)?;
            rest = rest.without(block);
        }
        Ok(new_blocks(alloc, &rooms, self.view.len())?)
    }
}
