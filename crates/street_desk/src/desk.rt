//! The desk, and all that a caller asks of it with a pass. `specs/Passes` says what each of these tells the pass. The sessions
//! of `street_line` call it, and `street_runs` starts and finishes it.
ghost use Rattle.std.specs.Prelude.{◌≡◌, ◌+◌, ◌*◌, ◌/◌, ◌%◌, ◌^◌, ◌<◌, ◌≤◌, [], ◌∷◌, length, true, Some, None, MatchBool, IfOk, IfErr, IsOk};
ghost use Rattle.street_base.specs.Prelude.{most_calls, most_sessions};
ghost use Rattle.street_engine.specs.Prelude.{StandsFor};
ghost use Rattle.street_desk.specs.declared.faults.SplitFault.TheVariants.{Single};
ghost use Rattle.street_desk.specs.History.{state_of};
ghost use Rattle.street_desk.specs.Rule.{recorded};
ghost use Rattle.street_desk.specs.Steps.{Looks, Grabs, Calls};
ghost use Rattle.street_desk.specs.Passes.{desk_view, pass_view, Rests, first_pass, without_last, of_last};
ghost use Rattle.street_desk.specs.Passes.{Answered, Filled, Told, ServedCount, OwnsUnused, Heard, Finished};

use crate::faults::{Full, SplitFault, Torn};
use crate::journal::{Journal, Recorder};
use crate::pass::{DeskSeat, Note, Pass};
use crate::view::{DeskLimits, DeskTurns, Grab, Hearsay, Last, Look, Release, SeatView};
use atomic_table::Table;
use std::alloc::Global;
use std::marker::Model;
use std::sync::Wait;
use std::sync::atomic::{AtomicU64, Ordering};
use std::thread;
use std::thread::Threads;
use street_base::{Command, Reply, Starved};
use street_engine::{Engine, Gate};

/// How often a caller that finds the turn taken only lets other threads run, before it sleeps.
const TRIES: u32 = 64;

/// An engine that many threads call in turn, each with a pass of its own. Its table has one word, the turn word, and one slot,
/// where the engine lies; `view.rt` says more. `calls` is how many calls it takes, `sleepers` how many callers sleep or are about
/// to.
#[derive(Drop)]
pub struct Desk<G: Gate + Sync + Drop + Send> {
    table: Table<Option<Recorder<G>>, SeatView, DeskLimits, DeskTurns, Global>,
    calls: u64,
    sleepers: AtomicU64,
}

impl<G: Gate + Sync + Drop + Send> Model for Desk<G> {
    ghost use Rattle.std.specs.Prelude.{◌≡◌, ◌≤◌};
    ghost use Rattle.street_base.specs.Prelude.{most_calls};
    ghost use Rattle.street_desk.specs.Passes.{DeskView};

    ghost Value = { DeskView };

    ghost view = { λ d. record {
      table = d.table.shared.table_id;
      calls = d.table.shared.key.calls;
      sessions = d.table.shared.key.sessions;
    } };

    ghost invariant = { λ d. (d.calls ≡ d.table.shared.key.calls)
        × (d.calls ≤ most_calls)
        × (d.table.shared.table_id.words ≡ 1)
        × (d.table.shared.table_id.slots ≡ 1) };
}

impl<G: Gate + Sync + Drop + Send> Desk<G> {
    /// Reads the turn word: twice the number of finished calls, and one more during a turn. The seat then knows that number; where
    /// the word is even, it has seen the whole history.
    fn look(&self, seat: &mut DeskSeat<G>) -> u64
        requires { seat.old.table_id ≡ self.now.table }
        ensures same { (seat.new.table_id ≡ seat.old.table_id) × (seat.new.id ≡ seat.old.id) × (seat.new.me.1 ≡ seat.old.me.1) }
        ensures looks { Looks seat.old.me.0 result seat.new.me.0 }
    {
        self.table.shared.load::<Look>(seat, 0)
    }

    /// Takes the turn where the turn word still is `at`, as it was found when nobody had the turn. Answers whether it did; if so,
    /// the seat has seen the whole history, and has the slot with the engine.
    fn grab(&self, seat: &mut DeskSeat<G>, at: u64) -> bool
        requires desk { seat.old.table_id ≡ self.now.table }
        requires rests { (seat.old.me.1 ≡ []) × (seat.old.me.0.live ≡ true) }
        requires even { (at % 2 ≡ 0) × (at < 2 ^ 63) }
        ensures same { (seat.new.table_id ≡ seat.old.table_id) × (seat.new.id ≡ seat.old.id) }
        ensures grabs { MatchBool result
            (Grabs seat.old.me.0 at seat.new.me.0 seat.new.me.1)
            (seat.new.me ≡ seat.old.me) }
    {
        self.table
            .shared
            .compare_exchange::<Grab>(seat, 0, at, at + 1)
            == at
    }

    /// Uses the turn of a seat that has it, and gives it back: the engine is taken out, called, and put back. `at` is the turn word
    /// before the turn was taken. Answers the reply to the command.
    fn turn<R: Threads + Wait + Sync>(
        &self,
        rt: &R,
        seat: &mut DeskSeat<G>,
        at: u64,
        session: u64,
        command: Command,
    ) -> Reply
        requires desk { seat.old.table_id ≡ self.now.table }
        requires turn { (seat.old.me.0.turn ≡ true) × (seat.old.me.0.owns ≡ true) × (seat.old.me.0.live ≡ true) }
        requires slot { seat.old.me.1 ≡ (0, Some (recorded seat.old.me.0.seen seat.old.me.0.calls)) ∷ [] }
        requires room { length seat.old.me.0.seen < seat.old.me.0.calls }
        requires word { (at ≡ 2 * length seat.old.me.0.seen) × (at < 2 ^ 63) }
        requires session { session ≡ seat.old.me.0.least }
        ensures same { (seat.new.table_id ≡ seat.old.table_id) × (seat.new.id ≡ seat.old.id) }
        ensures done { Calls seat.old.me.0 session command result seat.new.me }
    {
        match self.table.shared.exchange(seat, 0, None) {
            Some(mut recorder) => {
                let (reply, _) = recorder.call(rt, session, command);
                self.table.shared.exchange(seat, 0, Some(recorder));
                self.table.shared.store::<Release>(seat, 0, at + 2);
                reply
            }
            None => unreachable!(),
        }
    }

    /// Lets others go on while one of them has the turn: the first `TRIES` times, which `tries` counts, it only lets other threads
    /// run; from then on it sleeps until the turn word is no more `found`. It may also return sooner.
    fn give_way<R: Wait>(&self, rt: &R, tries: &mut u32, word: u64)
        requires { word < 2 ^ 32 }
    {
        if *tries < TRIES {
            *tries += 1;
            thread::yield_now();
            return;
        }
        self.sleepers.fetch_add(1, Ordering::SeqCst);
        self.table.shared.park(rt, 0, word as u32);
        self.sleepers.fetch_sub(1, Ordering::SeqCst);
    }

    /// Wakes one of those that sleep, if any does. Each is counted before its sleep tests the turn word, so that none is missed
    /// here.
    fn wake(&self) {
        if self.sleepers.load(Ordering::SeqCst) > 0 {
            self.table.shared.wake_one(0);
        }
    }

    /// Makes the call of the pass that has this seat, as this session: waits for the turn, uses it, and wakes one that waits.
    ///
    /// # Errors
    ///
    /// As [`call`](Self::call) has it.
    fn call_from<R: Threads + Wait + Sync>(
        &self,
        rt: &R,
        seat: &mut DeskSeat<G>,
        session: u64,
        command: Command,
    ) -> Result<Reply, Full>
        requires desk { desk_view seat.old.table_id seat.old.me.0 ≡ self.now }
        requires rests { (seat.old.me.1 ≡ []) × Rests seat.old.me.0 }
        requires session { session ≡ seat.old.me.0.least }
        ensures same { (seat.new.table_id ≡ seat.old.table_id) × (seat.new.id ≡ seat.old.id) × (seat.new.me.1 ≡ []) × Rests seat.new.me.0 }
        ensures told { Told (pass_view seat.old.table_id seat.old.me.0) command self.now.calls result
            (pass_view seat.new.table_id seat.new.me.0) }
    {
        let mut tries = 0;
        for _ in rt.forever() {
            let word = self.look(seat);
            if word % 2 == 0 {
                if word == 2 * self.calls {
                    self.wake();
                    return Err(Full {
                        command,
                        served: self.calls,
                    });
                }
                if self.grab(seat, word) {
                    let reply = self.turn(rt, seat, word, session, command);
                    self.wake();
                    return Ok(reply);
                }
            } else {
                self.give_way(rt, &mut tries, word);
            }
        }
        unreachable!()
    }

    /// A desk for an engine with nothing loaded, and the pass that has seen the empty history and owns every session, 0 to
    /// `sessions` less 1. The room for all calls is taken here: `calls`, 1 to 1,000,000, is the most that the desk takes.
    /// `sessions` is 1 to 1,024.
    ///
    /// # Errors
    ///
    /// `Starved` where memory was refused; the engine is dropped.
    pub fn start(
        alloc: Global,
        engine: Engine<G>,
        calls: u64,
        sessions: u64,
    ) -> Result<(Desk<G>, Pass<G>), Starved>
        requires engine { StandsFor engine None }
        requires counts { (1 ≤ calls) × (calls ≤ most_calls) × (1 ≤ sessions) × (sessions ≤ most_sessions) }
        ensures { IfOk result (λ r. (r.0.calls ≡ calls) × (r.0.sessions ≡ sessions) × (r.1 ≡ first_pass r.0)) }
    {
        let recorder = Recorder::new(alloc, engine, calls)?;
        let mut slots = Vec::with_capacity(alloc, 1)?;
        slots.push_reserved(Some(recorder));
        let limits = DeskLimits { calls, sessions };
        let Ok((table, seat)) = Table::new(alloc, &[0], slots, &limits) else {
            return Err(Starved);
        };
        let desk = Desk {
            table,
            calls,
            sleepers: AtomicU64::new(0),
        };
        let pass = Pass {
            seat,
            least: 0,
            greatest: sessions - 1,
        };
        Ok((desk, pass))
    }

    /// Gives the greatest session of a pass, which no call bears, to a new pass that has seen the same and knows the same
    /// count. Waits for nobody and takes no memory.
    ///
    /// # Errors
    ///
    /// `Single` where the pass owns one session alone; it is then unchanged.
    pub fn split(&self, pass: &mut Pass<G>) -> Result<Pass<G>, SplitFault>
        requires { pass.old.desk ≡ self.now }
        ensures ok { IfOk result (λ p. (pass.old.least < pass.old.greatest)
            × (pass.new ≡ without_last pass.old)
            × (p ≡ of_last pass.old)
            × OwnsUnused p) }
        ensures err { IfErr result (λ fault. (fault ≡ Single)
            × (pass.old.least ≡ pass.old.greatest)
            × (pass.new ≡ pass.old)) }
    {
        if pass.least == pass.greatest {
            return Err(SplitFault::Single);
        }
        let number = pass.greatest;
        let seat = self.table.shared.split_seat::<Last>(&mut pass.seat);
        pass.greatest -= 1;
        Ok(Pass {
            seat,
            least: number,
            greatest: number,
        })
    }

    /// Takes the turn, applies the command, writes it into the journal and gives the turn back. It may wait for the turn;
    /// outside the engine it takes no memory.
    ///
    /// The pass has then seen a legal history that begins with all that it had seen and ends with this call; the reply is
    /// the machine's at that point, and of the pass's own session the history has one call more, this one.
    ///
    /// # Errors
    ///
    /// `Full` where the journal has no place left. The command was not applied and comes back; the pass has then seen the whole
    /// history, with its own calls as before.
    pub fn call<R: Threads + Wait + Sync>(
        &self,
        rt: &R,
        pass: &mut Pass<G>,
        command: Command,
    ) -> Result<Reply, Full>
        requires { pass.old.desk ≡ self.now }
        ensures answered { IfOk result (λ reply. Answered pass.old command reply pass.new) }
        ensures full { IfErr result (λ full. (full.command ≡ command)
            × (full.served ≡ self.now.calls)
            × Filled pass.old pass.new) }
    {
        let least = pass.least;
        self.call_from(rt, &mut pass.seat, least, command)
    }

    /// The number of finished calls, which the pass then knows. Waits for nobody.
    pub fn served(&self, pass: &mut Pass<G>) -> u64
        requires { pass.old.desk ≡ self.now }
        ensures { ServedCount pass.old result pass.new }
    {
        self.look(&mut pass.seat) / 2
    }

    /// A note of what the pass has seen and of the count that it knows. Waits for nobody and takes no memory.
    ///
    /// # Errors
    ///
    /// None: `given` says that a note is made.
    pub fn note(&self, pass: &mut Pass<G>) -> Result<Note<G>, Starved>
        requires { pass.old.desk ≡ self.now }
        ensures same { pass.new ≡ pass.old }
        ensures given { IsOk result }
        ensures note { IfOk result (λ note. (note.desk ≡ self.now)
            × (note.seen ≡ pass.old.seen)
            × (note.count ≡ pass.old.count)) }
    {
        let seat = self.table.shared.split_seat::<Hearsay>(&mut pass.seat);
        Ok(Note { seat })
    }

    /// Lets the pass hear a note of the same desk: it has then seen what it had and what the note's maker had. Waits for nobody.
    pub fn hear(&self, pass: &mut Pass<G>, note: Note<G>)
        requires { (pass.old.desk ≡ self.now) × (note.desk ≡ self.now) }
        ensures { Heard pass.old note pass.new }
    {
        let Note { seat } = note;
        self.table.shared.join_seat::<Hearsay>(&mut pass.seat, seat);
        self.look(&mut pass.seat);
    }

    /// Ends the desk, and answers the engine and the journal: a legal history that begins with what the pass had seen and has no
    /// calls of its session but those; the engine stands for the state that it leaves.
    ///
    /// # Errors
    ///
    /// `Torn` where the turn word was odd, which no call that returned leaves.
    pub fn finish(self, pass: Pass<G>) -> Result<(Engine<G>, Journal), Torn>
        requires { pass.desk ≡ self }
        ensures whole { IfOk result (λ r. Finished pass r.1 × StandsFor r.0 (state_of r.1)) }
        ensures torn { IfErr result (λ t. (t.word % 2 ≡ 1) × (pass.count ≤ t.word / 2)) }
    {
        let Desk { table, .. } = self;
        let Pass { seat, .. } = pass;
        let mut closed = table.close_with(seat);
        let word = closed.word(0);
        let slot = closed.take(0);
        closed.free();
        match slot {
            Some(recorder) if word % 2 == 0 => Ok(recorder.into_parts()),
            _ => Err(Torn { word }),
        }
    }
}
