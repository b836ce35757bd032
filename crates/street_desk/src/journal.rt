//! The journal of a desk's calls, and the recorder, an engine that writes it. `desk.rt` has the recorder serve each call;
//! `street_tape` reads the journal.
ghost use Rattle.std.specs.Prelude.{◌≡◌, ◌<◌, [], ◌∷◌, ◌++◌, length, IfOk, None, slice_get, option_copied};
ghost use Rattle.street_base.specs.Prelude.{Allows, reply_to};
ghost use Rattle.street_engine.specs.Prelude.{StandsFor};
ghost use Rattle.street_desk.specs.History.{entry, state_of, IsLegal};

use std::alloc::{AllocError, Global};
use std::marker::Model;
use std::sync::Wait;
use std::thread::Threads;
use street_base::{Command, Outcome, Reply};
use street_engine::{Engine, Gate, Unrecorded};

/// One call of the history.
#[derive(Drop)]
pub struct Entry {
    /// The session that called.
    pub session: u64,
    /// What it called.
    pub command: Command,
    /// How far the command was done.
    pub outcome: Outcome,
}

/// The calls of a desk, in the order in which they had the turn.
#[derive(Drop)]
pub struct Journal {
    entries: Vec<Entry>,
}

impl Model for Journal {
    ghost use Rattle.std.specs.Prelude.{List};
    ghost use Rattle.street_desk.specs.declared.journal.Entry.{Entry};
    ghost use Rattle.street_desk.specs.History.{IsLegal};

    ghost Value = { List Entry };

    ghost view = { λ j. j.entries.items };

    ghost invariant = { λ j. IsLegal j.entries.items };
}

impl Journal {
    /// A law, for proofs; the call does nothing. The calls are a legal history.
    pub fn legal(&self)
        ensures { IsLegal self.now }
    {
        let _ = &self.entries;
    }

    /// How many calls it has.
    pub fn len(&self) -> usize
        ensures { result ≡ length self.now }
    {
        self.entries.len()
    }

    /// The call at a position, counted from 0; `None` past the last.
    pub fn entry(&self, index: usize) -> Option<&Entry>
        ensures { option_copied result ≡ slice_get self.now index }
    {
        self.entries.get(index)
    }
}

/// An engine with the journal of all that it was called for: the journal is legal, the engine stands for the state that it
/// leaves, and there is room for `calls` calls in all.
#[derive(Drop)]
pub(crate) struct Recorder<G: Gate + Sync + Drop> {
    engine: Engine<G>,
    entries: Vec<Entry>,
    calls: u64,
}

impl<G: Gate + Sync + Drop> Model for Recorder<G> {
    ghost use Rattle.std.specs.Prelude.{◌≤◌, vec_capacity};
    ghost use Rattle.street_engine.specs.Prelude.{StandsFor};
    ghost use Rattle.street_desk.specs.History.{state_of, IsLegal};
    ghost use Rattle.street_desk.specs.Rule.{Recorded};

    ghost Value = { Recorded };

    ghost view = { λ r. record { history = r.entries.items; calls = r.calls } };

    ghost invariant = { λ r. IsLegal r.entries.items
        × StandsFor r.engine (state_of r.entries.items)
        × (r.calls ≤ vec_capacity r.entries) };
}

impl<G: Gate + Sync + Drop> Recorder<G> {
    /// A recorder of an engine with nothing loaded: an empty journal, with room for so many calls.
    ///
    /// # Errors
    ///
    /// `AllocError` where there was no memory for that room; the engine is dropped.
    pub(crate) fn new(
        alloc: Global,
        engine: Engine<G>,
        calls: u64,
    ) -> Result<Recorder<G>, AllocError>
        requires { StandsFor engine None }
        ensures { IfOk result (λ r. (r.history ≡ []) × (r.calls ≡ calls)) }
    {
        let entries = Vec::with_capacity(alloc, calls as usize)?;
        Ok(Recorder {
            engine,
            entries,
            calls,
        })
    }

    /// Applies a command, an advance by workers that may wait, and writes it down, as called by this session. Answers the reply,
    /// and how far the command was done. The journal takes no memory.
    pub(crate) fn call<R: Threads + Wait + Sync>(
        &mut self,
        rt: &R,
        session: u64,
        command: Command,
    ) -> (Reply, Outcome)
        requires { length self.old.history < self.old.calls }
        ensures allowed { Allows (state_of self.old.history) command result.1 }
        ensures reply { result.0 ≡ reply_to (state_of self.old.history) command result.1 }
        ensures history { self.new.history ≡ self.old.history ++ entry session command result.1 ∷ [] }
        ensures room { self.new.calls ≡ self.old.calls }
        ensures legal { IsLegal self.new.history }
    {
        let (reply, outcome, _sink) = self
            .engine
            .apply_recording_by_team(rt, Unrecorded, &command);
        self.entries.push_reserved(Entry {
            session,
            command,
            outcome,
        });
        (reply, outcome)
    }

    /// Takes the recorder apart: the engine, and the journal of all its calls.
    pub(crate) fn into_parts(self) -> (Engine<G>, Journal)
        ensures history { result.1 ≡ self.history }
        ensures legal { IsLegal result.1 }
        ensures state { StandsFor result.0 (state_of result.1) }
    {
        let Recorder {
            engine,
            entries,
            calls: _,
        } = self;
        (engine, Journal { entries })
    }
}
