//! The traffic on a loaded network: what commands do to it and ask of it, and its steps by one or several threads. The
//! functions of the commands call it, each once.
ghost use Rattle.std.specs.Prelude.{◌≡◌, ℕ, ◌+◌, ◌<◌, ◌≤◌, List, length, slice_get, slice_index_or, min, Some, None, option_map, IfOk, IfErr, OnOk, OnErr};
ghost use Rattle.street_base.specs.Prelude.{last_clock, most_workers, most_plan, most_vehicles, most_period, most_detectors, link_at};
ghost use Rattle.street_base.specs.Prelude.{network_fault, Traffic, lane_at, step, steps, with_closure, taken_out, metered};
ghost use Rattle.street_base.specs.Prelude.{loaded, plan_links, closed_after, whereabouts_on_lanes, shown_lane, shown_rows, census, head_after, rows_of_step};
ghost use Rattle.street_net.specs.Prelude.{TellsFault};
ghost use Rattle.street_lanes.specs.Prelude.{IsLane};
ghost use Rattle.street_engine.specs.Prelude.{HasStepped, StreetsStandFor, StreetsGo, StreetsAdmit, StreetsSignal, MakesSteps, ToldOf};

use crate::StepSink;
use crate::ends::{Ends, note_arrivals};
use crate::sites::DetectorSite;
use std::alloc::Global;
use std::marker::Model;
use street_base::{
    Car, CarNo, CellNo, End, LaneNo, NetSpec, NodeIx, Place, Plan, RecordHead, Reply, Size,
    Starved, Step, Whereabouts,
};
use street_net::{NetFault, Network};
use street_node::SignalPlan;
use street_tile::{Gate, Lender, Tiles};

/// After so many steps it is counted anew how many vehicles are in cells, and the gate is asked whether workers share the next.
const STEPS_BETWEEN_COUNTS: u64 = 16;

/// The tiles of a loaded network, their clock, how each vehicle ended, and where each detector is.
pub struct Streets {
    tiles: Tiles,
    clock: Step,
    ends: Ends,
    sites: Vec<DetectorSite>,
}

// Written out, as an engine's is.
impl Drop for Streets {
    /// Drops its parts.
    fn drop(self) {
        let Streets {
            tiles: _,
            clock: _,
            ends: _,
            sites: _,
        } = self;
    }
}

impl Model for Streets {
    ghost use Rattle.street_engine.specs.Prelude.{StreetsView, IsKept, streets_of};

    ghost Value = { StreetsView };

    ghost view = { λ s. streets_of s.tiles s.sites.items s.clock s.ends.ends };

    ghost invariant = { λ s. IsKept (streets_of s.tiles s.sites.items s.clock s.ends.ends) };
}

/// So many steps, at most 16, or fewer where memory was refused, by one call of `make`: what they leave, the sink that was told of
/// each, and how many.
fn make_some<K: StepSink, M: Fn(Streets, K, u64) -> (Streets, K, u64)>(
    make: &M,
    streets: Streets,
    sink: K,
    count: u64,
) -> (Streets, K, u64)
    requires make { MakesSteps K.notes M.Fn make.now }
    requires few { count ≤ 16 }
    requires in_time { streets.clock + count ≤ last_clock }
    ensures most { result.2 ≤ count }
    ensures clock { result.0.clock ≡ streets.clock + result.2 }
    ensures steps { StreetsGo (steps result.2) streets result.0 }
    ensures noted { ToldOf K.notes streets result.2 sink result.1 }
{
    make(streets, sink, count)
}

impl Streets {
    /// The streets of a network with no vehicle, for so many workers, 1 to 64: a tile for each, or for each node where these are
    /// fewer.
    ///
    /// # Errors
    /// The network's first fault, or lack of memory.
    pub fn load(alloc: Global, net: &NetSpec, workers: usize) -> Result<Streets, NetFault>
        requires some { 1 ≤ workers }
        requires few { workers ≤ most_workers }
        ensures stands { IfOk result (λ streets. StreetsStandFor streets (loaded net.now)) }
        ensures tiles { IfOk result (λ streets. length streets.tiles.tiles ≡ min workers (length net.now.nodes)) }
        ensures faultless { OnOk result (network_fault net.now ≡ None) }
        ensures fault { IfErr result (TellsFault (network_fault net.now)) }
    {
        let network = Network::build(alloc, net)?;
        let Ok(tiles) = Tiles::new(alloc, network, workers) else {
            return Err(NetFault::Starved);
        };
        Ok(Streets {
            tiles,
            clock: net.start as Step,
            ends: Ends::new(alloc),
            sites: Vec::new(alloc),
        })
    }

    /// The network that was loaded.
    pub fn network(&self) -> &Network
        ensures { result.now ≡ self.now.tiles.network }
    {
        self.tiles.network()
    }

    /// The tiles, with the network and all lanes.
    pub(crate) fn tiles(&self) -> &Tiles
        ensures { result.now ≡ self.now.tiles }
    {
        &self.tiles
    }

    /// The clock: the number of the next step.
    pub fn clock(&self) -> Step
        ensures clock { result ≡ self.now.clock }
        ensures in_time { self.now.clock ≤ last_clock }
        ensures stands { (m : Traffic) × StreetsStandFor self.now m }
    {
        self.clock
    }

    /// How many vehicles were ever admitted.
    pub fn admitted(&self) -> CarNo
        ensures count { result ≡ length self.now.ends }
        ensures few { length self.now.ends ≤ most_vehicles }
    {
        self.ends.len()
    }

    /// How the vehicle of a number ended; none where it has not, and where the number was not given.
    pub fn end_of(&self, number: CarNo) -> Option<End>
        ensures { result ≡ slice_index_or self.now.ends number None }
    {
        self.ends.get(number)
    }

    /// One more vehicle waits on a lane of the first link of its plan. Fewer than 1,000,000 were admitted before it; how many is its
    /// number.
    ///
    /// # Errors
    /// Memory was refused; the streets stand for what they stood for.
    pub fn admit(
        &mut self,
        alloc: Global,
        plan: Plan,
        lane: LaneNo,
        depart: Step,
        size: Size,
    ) -> Result<(), Starved>
        requires some { 0 < length plan }
        requires links { (ids : List ℕ) × (plan ≡ plan_links self.old.tiles.network ids) }
        requires short { length plan ≤ most_plan }
        requires lane { lane < (link_at self.old.tiles.network (slice_index_or plan 0 0)).lanes }
        requires few { length self.old.ends < most_vehicles }
        ensures waits { OnOk result (StreetsAdmit plan lane depart size self.old self.new) }
        ensures starved { OnErr result (StreetsGo (λ m. m) self.old self.new) }
    {
        let at = Place {
            link: plan.as_slice()[0],
            lane,
        };
        let car = Car {
            plan: Box::new(alloc, plan)?,
            number: self.ends.len(),
            cell: 0,
            step: depart,
            at: 0,
            speed: 0,
            size,
        };
        self.ends.reserve()?;
        self.tiles.admit(at, car)?;
        self.ends.note_given();
        Ok(())
    }

    /// The node at this position has this signal plan from the next step on. Takes no memory.
    pub fn set_signal(&mut self, node: NodeIx, plan: SignalPlan)
        requires { node < length self.old.tiles.network.nodes }
        ensures { StreetsSignal node plan self.old self.new }
    {
        self.tiles.set_signal(node, plan);
    }

    /// Closes cells of a lane, or, where `closed` is false, opens them, and tells how many of its cells are closed then.
    ///
    /// # Errors
    /// Memory was refused; the streets stand for what they stood for.
    pub fn set_closed(
        &mut self,
        at: Place,
        first: CellNo,
        last: CellNo,
        closed: bool,
    ) -> Result<u64, Starved>
        requires lane { IsLane self.old.tiles.network at }
        requires order { first ≤ last }
        requires within { last < (link_at self.old.tiles.network at.link).length }
        ensures marks { OnOk result (StreetsGo (with_closure closed at first last) self.old self.new) }
        ensures count { IfOk result (λ count. (m : Traffic) → StreetsStandFor self.old m → count ≡ closed_after closed first last (lane_at m at)) }
        ensures starved { OnErr result (StreetsGo (λ m. m) self.old self.new) }
    {
        self.tiles.set_closed(at, first, last, closed)
    }

    /// Takes a vehicle out that has not ended, wherever it is. Takes no memory.
    pub fn take_out(&mut self, number: CarNo)
        requires given { number < length self.old.ends }
        requires going { slice_index_or self.old.ends number None ≡ None }
        ensures { StreetsGo (λ m. taken_out m number) self.old self.new }
    {
        self.tiles.take_out(number);
        self.ends.note_taken(number, self.clock);
    }

    /// Where the vehicle of a number is, if it was admitted and has not ended. Takes memory for the plan that it answers.
    ///
    /// # Errors
    /// Memory for the plan was refused.
    pub fn find(&self, alloc: Global, number: CarNo) -> Result<Option<Whereabouts>, Starved>
        ensures { IfOk result (λ found. (m : Traffic) → StreetsStandFor self.now m → found ≡ whereabouts_on_lanes m number) }
    {
        self.tiles.find(alloc, number)
    }

    /// The reply with all of a lane: its buffer, who is in its cells, its closed stretches, and who waits.
    ///
    /// # Errors
    /// Memory for the lists was refused.
    pub fn lane(&self, alloc: Global, at: Place) -> Result<Reply, Starved>
        requires { IsLane self.now.tiles.network at }
        ensures { IfOk result (λ reply. (m : Traffic) → StreetsStandFor self.now m → reply ≡ shown_lane (lane_at m at)) }
    {
        self.tiles.lane(alloc, at)
    }

    /// How many detectors were placed.
    pub fn detectors(&self) -> usize
        ensures { result ≡ length self.now.sites }
    {
        self.sites.len()
    }

    /// One more detector stands in a cell of a lane, with a period of 1 to 100,000 steps; it notes from the next step on.
    /// Fewer than 1,024 stood before it. Answers its number among all, from 0.
    ///
    /// # Errors
    /// Memory was refused; the streets stand for what they stood for.
    pub fn place_meter(
        &mut self,
        alloc: Global,
        at: Place,
        cell: CellNo,
        period: u32,
    ) -> Result<usize, Starved>
        requires lane { IsLane self.old.tiles.network at }
        requires cell { cell < (link_at self.old.tiles.network at.link).length }
        requires some { 1 ≤ period }
        requires short { period ≤ most_period }
        requires few { length self.old.sites < most_detectors }
        ensures placed { OnOk result (StreetsGo (λ m. metered m at cell period) self.old self.new) }
        ensures number { IfOk result (λ number. number ≡ length self.old.sites) }
        ensures starved { OnErr result (StreetsGo (λ m. m) self.old self.new) }
    {
        // In parts, as the borrow checker does not cover a struct that is passed by value twice.
        let Place { link, lane } = at;
        let detector = self.sites.len();
        self.sites.reserve(1)?;
        let number = self
            .tiles
            .place_meter(alloc, Place { link, lane }, cell, period)?;
        self.sites.push_reserved(DetectorSite {
            at: Place { link, lane },
            number,
        });
        Ok(detector)
    }

    /// The reply with the rows of a detector, if there is one of this number. Takes memory for the list of rows.
    ///
    /// # Errors
    /// Memory for the list was refused.
    pub fn read_meter(&self, alloc: Global, number: usize) -> Result<Option<Reply>, Starved>
        ensures { IfOk result (λ found. (m : Traffic) → StreetsStandFor self.now m
            → found ≡ option_map shown_rows (slice_get m.detectors number)) }
    {
        match self.sites.get(number) {
            Some(site) => self.tiles.read_meter(alloc, site.at, site.number),
            None => Ok(None),
        }
    }

    /// The reply with the clock, how many vehicles were admitted, are in cells, in buffers or wait, and how many have arrived or
    /// were taken out. Looks at counts that are kept.
    pub fn census(&self) -> Reply
        ensures { (m : Traffic) → StreetsStandFor self.now m → result ≡ census m }
    {
        let admitted = u64::from(self.ends.len());
        let totals = self.tiles.totals();
        Reply::Census {
            admitted,
            arrived: u64::from(self.ends.arrived()),
            buffers: totals.buffers,
            cells: totals.cells,
            clock: u64::from(self.clock),
            taken: u64::from(self.ends.taken()),
            waiting: totals.waiting,
        }
    }

    /// The head of the block of the step that was made last. Looks at no vehicle in cells or buffers.
    pub(crate) fn record_head(&self) -> RecordHead
        requires { (m : Traffic) × HasStepped self.now m }
        ensures { (m : Traffic) → HasStepped self.now m → result ≡ head_after (step m) (length (rows_of_step m)) }
    {
        let arrived = self.ends.arrived();
        RecordHead {
            clock: self.clock,
            rows: self.tiles.rows(),
            arrived,
            taken: self.ends.taken(),
        }
    }

    /// How many threads the next steps take, the caller's among them: one for each tile where the gate says, of the vehicles in cells,
    /// that the workers share the next step; else, and where there is one tile, the caller's alone.
    pub(crate) fn threads_of_steps<G: Gate>(&self, gate: &G) -> usize
        ensures some { 0 < result }
        ensures few { result ≤ most_workers }
    {
        let (vehicles, fullest) = self.tiles.in_cells();
        if self.tiles.len() > 1 && gate.shares(vehicles, fullest) {
            return self.tiles.len();
        }
        1
    }

    /// How many threads that stay make the next steps, the caller's among them: this alone where the workers do not share the next step,
    /// else as many as the gate says make it soonest, one for each tile and each processor at most.
    pub(crate) fn threads_that_stay<G: Gate>(&self, gate: &G) -> usize
        ensures some { 0 < result }
        ensures few { result ≤ most_workers }
    {
        let most = self.threads_of_steps(gate).min(gate.processors());
        let mut best = 1;
        let mut least = gate.step_time(1, self.tiles.most_in_block(1));
        for threads in 2..most.saturating_add(1) {
            let time = gate.step_time(threads, self.tiles.most_in_block(threads));
            if time < least {
                least = time;
                best = threads;
            }
        }
        best
    }

    /// One step, by whoever makes its parts. All the memory that it needs is taken before it begins. The sink is told of
    /// the step once its arrivals are noted.
    ///
    /// # Errors
    /// Memory was refused; the streets stand for what they stood for.
    fn step<L: Lender, K: StepSink>(&mut self, lender: &mut L, sink: &mut K) -> Result<(), Starved>
        requires lender { L.knows lender.old self.old.tiles.network }
        requires in_time { self.old.clock < last_clock }
        ensures lender { L.knows lender.new self.new.tiles.network }
        ensures clock { OnOk result (self.new.clock ≡ self.old.clock + 1) }
        ensures step { OnOk result (StreetsGo step self.old self.new) }
        ensures still { OnErr result (self.new.clock ≡ self.old.clock) }
        ensures starved { OnErr result (StreetsGo (λ m. m) self.old self.new) }
        ensures noted { OnOk result ((m : Traffic) → StreetsStandFor self.old m → K.notes sink.old m sink.new) }
        ensures unnoted { OnErr result (sink.new ≡ sink.old) }
    {
        self.tiles.prepare()?;
        self.tiles.step(lender);
        note_arrivals(&mut self.tiles, &mut self.ends, self.clock);
        self.clock += 1;
        sink.note(self);
        Ok(())
    }

    /// So many steps, or fewer where memory was refused for one, by whoever makes their parts: what they leave, the sink that was told
    /// of each, and how many.
    pub(crate) fn steps_with<L: Lender, K: StepSink>(
        self,
        lender: &mut L,
        sink: K,
        count: u64,
    ) -> (Streets, K, u64)
        requires lender { L.knows lender.old self.tiles.network }
        requires in_time { self.clock + count ≤ last_clock }
        ensures most { result.2 ≤ count }
        ensures clock { result.0.clock ≡ self.clock + result.2 }
        ensures steps { StreetsGo (steps result.2) self result.0 }
        ensures noted { ToldOf K.notes self result.2 sink result.1 }
    {
        let mut streets = self;
        let mut noting = sink;
        for done in 0..count {
            if streets.step(lender, &mut noting).is_err() {
                return (streets, noting, done);
            }
        }
        (streets, noting, count)
    }

    /// So many steps, or fewer where memory was refused for one, up to 16 by each call of `make`: what they leave, the sink that was
    /// told of each, and how many.
    pub(crate) fn steps<K: StepSink, M: Fn(Streets, K, u64) -> (Streets, K, u64)>(
        self,
        make: &M,
        sink: K,
        count: u64,
    ) -> (Streets, K, u64)
        requires make { MakesSteps K.notes M.Fn make.now }
        requires in_time { self.clock + count ≤ last_clock }
        ensures most { result.2 ≤ count }
        ensures clock { result.0.clock ≡ self.clock + result.2 }
        ensures steps { StreetsGo (steps result.2) self result.0 }
        ensures noted { ToldOf K.notes self result.2 sink result.1 }
    {
        let mut streets = self;
        let mut noting = sink;
        let mut done = 0;
        for _ in 0..count {
            let some = (count - done).min(STEPS_BETWEEN_COUNTS);
            let (left, kept, made) = make_some(make, streets, noting, some);
            streets = left;
            noting = kept;
            done += made;
            let over = made < some || done == count;
            if over {
                return (streets, noting, done);
            }
        }
        (streets, noting, done)
    }
}
