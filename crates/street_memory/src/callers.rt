//! A caller at a desk, while at most one request for memory is refused.
ghost use Rattle.std.specs.Prelude.{◌≡◌};

use crate::texts::{as_text, read, text_of};
use std::alloc::Global;
use std::sync::Wait;
use std::thread::Threads;
use street_base::{Command, Reply};
use street_desk::{Desk, Pass};
use street_engine::Unwatched;

const LOAD: &str =
    r#"{"cmd":"load","nodes":[[1,1,2],[2,1,2],[3,1,2]],"links":[[10,1,2,1,10,5],[20,2,3,1,10,5]],"turns":[[10,0,20,0]],"zone":0,"dawdle":0,"change":0,"seed":0}"#;

const ENTER: &str = r#"{"cmd":"enter","plan":[10],"lane":0,"depart":0}"#;

const STARVED: &str = r#"{"starved":true}"#;

/// Who loads is answered so.
const LOADED: &str = r#"{"links":2,"nodes":3,"turns":1}"#;

/// Who comes later.
const NOT_LOADED_AGAIN: &str = r#"{"error":2,"name":"AlreadyLoaded"}"#;

/// Whose vehicle enters first, and is asked for.
const FIRST_WAITS: [&str; 2] = [
    r#"{"car":0}"#,
    r#"{"car":0,"depart":0,"lane":0,"link":10,"plan":[10],"state":"waiting"}"#,
];

/// Whose vehicle enters second, and is asked for.
const SECOND_WAITS: [&str; 2] = [
    r#"{"car":1}"#,
    r#"{"car":1,"depart":0,"lane":0,"link":10,"plan":[10],"state":"waiting"}"#,
];

/// What a caller asks: a line, or for a vehicle.
#[derive(Clone, Copy)]
enum Question {
    Line(&'static str),
    Vehicle(u64),
}

fn command_of(alloc: Global, question: Question) -> Option<Command> {
    match question {
        Question::Line(line) => read(alloc, line).ok(),
        Question::Vehicle(car) => Some(Command::Vehicle { car }),
    }
}

/// What one caller was answered.
#[derive(Drop)]
pub(crate) struct Caller {
    alloc: Global,
    /// The lines of reply, those to starved calls among them.
    pub(crate) replies: Vec<u8>,
    /// How many calls were answered, the starved ones among them.
    pub(crate) calls: u64,
    /// How many calls were starved.
    pub(crate) starved: u64,
    /// Whether there was memory for each question in the end.
    pub(crate) is_served: bool,
}

impl Caller {
    fn new(alloc: Global) -> Caller {
        Caller {
            alloc,
            replies: Vec::new(alloc),
            calls: 0,
            starved: 0,
            is_served: false,
        }
    }

    /// Keeps the line of a reply, tried once more where memory was refused.
    fn keep(&mut self, reply: &Reply) -> Option<()> {
        let text = text_of(self.alloc, reply).ok()?;
        if self.replies.extend_from_slice(&text).is_err() {
            self.replies.extend_from_slice(&text).ok()?;
        }
        Some(())
    }

    /// What a call answers; nothing where memory was refused outside it, or the desk has no place left.
    fn call<R: Threads + Wait + Sync>(
        &mut self,
        rt: &R,
        desk: &Desk<Unwatched>,
        pass: &mut Pass<Unwatched>,
        question: Question,
    ) -> Option<Reply>
        requires { pass.old.desk ≡ desk.now }
        ensures { pass.new.desk ≡ desk.now }
    {
        let command = command_of(self.alloc, question)?;
        let reply = desk.call(rt, pass, command).ok()?;
        self.calls = self.calls.saturating_add(1);
        if matches!(&reply, Reply::Starved) {
            self.starved = self.starved.saturating_add(1);
        }
        self.keep(&reply)?;
        Some(reply)
    }

    /// What a question is answered, called once more where it was starved.
    fn ask<R: Threads + Wait + Sync>(
        &mut self,
        rt: &R,
        desk: &Desk<Unwatched>,
        pass: &mut Pass<Unwatched>,
        question: Question,
    ) -> Option<Reply>
        requires { pass.old.desk ≡ desk.now }
        ensures { pass.new.desk ≡ desk.now }
    {
        let reply = self.call(rt, desk, pass, question)?;
        if !matches!(&reply, Reply::Starved) {
            return Some(reply);
        }
        let again = self.call(rt, desk, pass, question)?;
        (!matches!(&again, Reply::Starved)).then_some(again)
    }

    /// Loads, enters a vehicle and asks for it.
    fn ask_all<R: Threads + Wait + Sync>(
        &mut self,
        rt: &R,
        desk: &Desk<Unwatched>,
        pass: &mut Pass<Unwatched>,
    ) -> Option<()>
        requires { pass.old.desk ≡ desk.now }
        ensures { pass.new.desk ≡ desk.now }
    {
        self.ask(rt, desk, pass, Question::Line(LOAD))?;
        let car = match self.ask(rt, desk, pass, Question::Line(ENTER))? {
            Reply::Entered { car } => car,
            _ => return Some(()),
        };
        self.ask(rt, desk, pass, Question::Vehicle(car))?;
        Some(())
    }

    /// Whether the replies, those to starved calls apart, are these.
    fn are_replies(&self, wanted: &[&str]) -> bool {
        let mut found = 0usize;
        for line in as_text(&self.replies).lines() {
            if line != STARVED {
                match wanted.get(found) {
                    Some(want) if *want == line => found = found.saturating_add(1),
                    _ => return false,
                }
            }
        }
        found == wanted.len()
    }

    /// Whether the caller loads or comes later, and its vehicle enters first or second and waits.
    fn is_told(&self, loads: bool, is_first: bool) -> bool {
        let load = if loads { LOADED } else { NOT_LOADED_AGAIN };
        let [enter, waits] = if is_first { FIRST_WAITS } else { SECOND_WAITS };
        self.are_replies(&[load, enter, waits])
    }
}

/// A caller that loads, enters a vehicle and asks for it.
pub(crate) fn serve_caller<R: Threads + Wait + Sync>(
    rt: &R,
    alloc: Global,
    desk: &Desk<Unwatched>,
    mut pass: Pass<Unwatched>,
) -> (Pass<Unwatched>, Caller)
    requires { pass.desk ≡ desk.now }
    ensures { result.0.desk ≡ desk.now }
{
    let mut caller = Caller::new(alloc);
    let asked = caller.ask_all(rt, desk, &mut pass);
    caller.is_served = asked.is_some();
    (pass, caller)
}

/// Whether of two callers one loads, and the other's load is refused; the vehicles are 0 and 1, and both wait.
pub(crate) fn are_told(one: &Caller, two: &Caller) -> bool {
    [true, false].iter().any(|loads| {
        (one.is_told(*loads, true) && two.is_told(!*loads, false))
            || (one.is_told(*loads, false) && two.is_told(!*loads, true))
    })
}
