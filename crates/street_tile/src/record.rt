//! The rows of the step that was made last: of all lanes in the order of the network, with who arrived from each.
//! `street_engine` calls it for each step of a recorded run.
ghost use Rattle.std.specs.Prelude.{◌≡◌, ◌<◌, ◌≤◌, map, length, filter_map, sum_by, true};
ghost use Rattle.std.specs.List.{FoldsTo};
ghost use Rattle.street_base.specs.Prelude.{IsSoundTraffic, Traffic, most_vehicles, places, rows_bytes, rows_of_step};
ghost use Rattle.street_lanes.specs.Prelude.{IsLane, IsOn};
ghost use Rattle.street_record.specs.Given.{Adds};
ghost use Rattle.street_record.specs.Rows.{as_written, arrival_at, rows_at};
ghost use Rattle.street_tile.specs.Prelude.{HaveStepped, IsTileOf, TileStandsFor, is_own};
ghost use Rattle.street_tile.specs.Record.{arrived_at, link_rows};

use crate::tile::Tile;
use crate::tiles::Tiles;
use std::io::Write;
use street_base::{LinkIx, Place};
use street_net::{Network, slot};
use street_record::{RecordWriter, RowSink, give_row, row_of};

impl Tile {
    /// Gives a sink the rows of an own lane, and the row of who arrived from it.
    pub(crate) fn record<S: RowSink>(&self, net: &Network, at: Place, sink: &mut S)
        requires tile { IsTileOf net.now self.now }
        requires lane { IsLane net.now at }
        requires own { is_own net.now self.now.low self.now.high at ≡ true }
        ensures { (before : Traffic) → (after : Traffic) → IsOn net.now after → TileStandsFor self.now after
            → self.now.left ≡ filter_map (arrival_at before) self.now.own.places
            → FoldsTo S.takes sink.old (map as_written (rows_at before after at)) sink.new }
    {
        let slot = slot(at.link, at.lane) as u32;
        let lane = self.number(net, at);
        self.own.record(lane, slot, sink);
        give_row(row_of(&self.left, slot), sink);
    }
}

impl Tile {
    /// How many arrived on its lanes in the step that was made last.
    fn arrivals(&self) -> u64
        ensures { result ≡ length self.now.left }
    {
        self.left.len() as u64
    }
}

impl Tiles {
    /// How many arrived in the step that was made last.
    fn arrivals(&self) -> u64
        requires { (m : Traffic) × HaveStepped self.now m }
        ensures few { result ≤ 524288 }
        ensures count { (m : Traffic) → HaveStepped self.now m → result ≡ sum_by (arrived_at m) (places self.now.network) }
    {
        let mut all = 0;
        for i in 0..self.tiles.len() {
            all += self.tiles[i].arrivals();
        }
        all
    }

    /// How many rows the step has that was made last: those in cells and in buffers, and those who arrived. Looks at counts that are
    /// kept, and at no lane.
    pub fn rows(&self) -> u32
        requires { (m : Traffic) × HaveStepped self.now m × IsSoundTraffic m × (length m.ends ≤ most_vehicles) }
        ensures { (m : Traffic) → HaveStepped self.now m → result ≡ length (rows_of_step m) }
    {
        let totals = self.totals();
        (totals.cells + totals.buffers + self.arrivals()) as u32
    }

    /// How many links the network has.
    fn links(&self) -> u16
        ensures { result ≡ length self.now.network.links }
    {
        self.network.spec().links.as_slice().len() as u16
    }

    /// Gives a sink the rows of the lanes of a link, lane 0 before lane 1.
    fn record_link<S: RowSink>(&self, link: LinkIx, sink: &mut S)
        requires { link < length self.now.network.links }
        ensures { (m : Traffic) → HaveStepped self.now m → FoldsTo S.takes sink.old (link_rows self.now.network m link) sink.new }
    {
        let i = self.owner_of_link(link);
        for lane in 0..self.network.lanes_of(link) {
            self.tiles[i].record(&self.network, Place { link, lane }, sink);
        }
    }

    /// Gives a sink the rows of the step that was made last, link by link as they were loaded: of each lane those who stand on it
    /// after the step, and who arrived from it. Of a spot the sink gets the lowest 32 bits.
    pub fn record<S: RowSink>(&self, sink: &mut S)
        ensures { (m : Traffic) → HaveStepped self.now m → FoldsTo S.takes sink.old (map as_written (rows_of_step m)) sink.new }
    {
        for link in 0..self.links() {
            self.record_link(LinkIx::new(link), sink);
        }
    }

    /// Writes the rows of the step that was made last.
    pub fn write_rows<W: Write + Drop>(&self, writer: &mut RecordWriter<W>)
        ensures { (m : Traffic) → HaveStepped self.now m → Adds W.contents (rows_bytes (rows_of_step m)) writer.old writer.new }
    {
        self.record(writer);
    }
}
