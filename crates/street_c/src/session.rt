//! What a handle holds: an engine with its reader of lines, and the last reply, which is kept until the next call. `lib.rt` has one behind
//! each open handle.
ghost use Rattle.std.specs.Prelude.{◌≡◌, ◌≢◌, Some, None, Ok, IfOk, OnErr, []};
ghost use Rattle.std.specs.List.{list_all};
ghost use Rattle.street_engine.specs.Prelude.{StandsFor};
ghost use Rattle.street_stream.specs.Lines.{is_blank, is_space};
ghost use Rattle.street_text.specs.LineCommands.{reading};
ghost use Rattle.street_c.specs.Answers.{EndsCall, EndsLine, EndsRead, NothingDone, Replies, last_output};

use std::alloc::Global;
use street_base::{Command, Reply, Starved};
use street_engine::{AloneCrew, Crew, Engine, Unrecorded, Unwatched};
use street_text::{LineReader, fault_text, reply_text};

/// An engine that C holds, whose steps the thread that calls makes.
#[derive(Drop)]
pub struct Session {
    engine: Engine<Unwatched>,
    reader: LineReader,
    /// The line of the last reply, with LF; empty where there is none.
    text: Vec<u8>,
    /// The last reply, where its line was not made yet.
    unsaid: Option<Reply>,
}

/// What became of a line.
#[derive(Drop)]
pub enum LineEnd {
    /// It was served, and the session has the line of its reply.
    Told,
    /// Its command was served, and memory was refused for the line of its reply, which the session has.
    Untold,
    /// Memory was refused, and nothing was done.
    Unserved,
}

/// Whether a byte is a space, a tab or a CR.
fn is_space(byte: u8) -> bool
    ensures { result ≡ is_space byte }
{
    byte == b' ' || byte == b'\t' || byte == b'\r'
}

/// Whether these bytes are spaces, tabs and CR alone.
fn are_spaces(bytes: &[u8]) -> bool
    ensures { result ≡ list_all is_space bytes.now }
{
    bytes.iter().all(|byte| is_space(*byte))
}

/// Whether a line is blank: it gets no reply.
fn is_blank(line: &[u8]) -> bool
    ensures { result ≡ is_blank line.now }
{
    are_spaces(line)
}

impl Session {
    /// A session with nothing loaded.
    pub fn new(alloc: Global) -> Session
        ensures empty { StandsFor result.engine None }
        ensures silent { last_output result ≡ [] }
    {
        Session {
            engine: Engine::new(alloc, 1, Unwatched::new()),
            reader: LineReader::new(alloc),
            text: Vec::new(alloc),
            unsaid: None,
        }
    }

    /// Has the engine serve a command. No reply is kept.
    pub fn serve(&mut self, command: &Command) -> Reply
        ensures answered { Replies self.old.engine command.now result self.new.engine }
        ensures silent { last_output self.new ≡ [] }
    {
        self.text.clear();
        self.unsaid = None;
        let crew = AloneCrew {};
        let (reply, _outcome, _sink) = crew.apply(&mut self.engine, Unrecorded, command);
        reply
    }

    /// Keeps a reply, whose line is not made yet.
    pub fn keep(&mut self, reply: Reply)
        ensures engine { self.new.engine ≡ self.old.engine }
        ensures kept { self.new.unsaid ≡ Some reply }
    {
        self.unsaid = Some(reply);
    }

    /// Makes the line of the reply that is kept, if there is one.
    ///
    /// # Errors
    ///
    /// Memory for the line was refused; the reply is kept.
    pub fn say(&mut self, alloc: Global) -> Result<(), Starved>
        ensures still { NothingDone self.old self.new }
        ensures said { IfOk result (λ _. (self.new.text.items ≡ last_output self.old) × (self.new.unsaid ≡ None)) }
        ensures kept { OnErr result ((self.new ≡ self.old) × (self.old.unsaid ≢ None)) }
    {
        let Some(reply) = &self.unsaid else {
            return Ok(());
        };
        self.text = reply_text(alloc, reply)?;
        self.unsaid = None;
        Ok(())
    }

    /// Has the engine serve the command of a line.
    fn call(&mut self, alloc: Global, command: &Command) -> LineEnd
        ensures { EndsCall self.old command.now result self.new }
    {
        let reply = self.serve(command);
        self.keep(reply);
        match self.say(alloc) {
            Ok(()) => LineEnd::Told,
            Err(Starved) => LineEnd::Untold,
        }
    }

    /// Serves a line that is not blank.
    fn read(&mut self, alloc: Global, line: &[u8]) -> LineEnd
        ensures { EndsRead self.old (reading line.now) result self.new }
    {
        match self.reader.read(alloc, line) {
            Ok(command) => self.call(alloc, &command),
            Err(fault) => match fault_text(alloc, fault) {
                Ok(text) => {
                    self.text = text;
                    self.unsaid = None;
                    LineEnd::Told
                }
                Err(Starved) => LineEnd::Unserved,
            },
        }
    }

    /// Serves a line, which is given without its LF.
    pub fn line(&mut self, alloc: Global, line: &[u8]) -> LineEnd
        ensures { EndsLine self.old line.now result self.new }
    {
        if is_blank(line) {
            self.text.clear();
            self.unsaid = None;
            return LineEnd::Told;
        }
        self.read(alloc, line)
    }

    /// The line of the last reply, with LF; empty where there is none.
    pub fn text(&self) -> &[u8]
        ensures { result.now ≡ self.now.text.items }
    {
        self.text.as_slice()
    }
}
