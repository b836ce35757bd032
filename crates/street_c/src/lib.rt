//! The engine in the process of a program in C, C++ or any language that calls C: a session behind an opaque handle.
//!
//! A handle is opened, serves lines and calls, and is closed. Each call takes the session out of the handle ([`handle`]), works on it in
//! safe code ([`session`]), and puts it back. Replies are copied into the caller's memory; what found no room is kept, and asked for
//! again by [`streetsim_reply`], so that nothing is served twice. The thread that calls makes each advance, alone.
//!
//! `library/streetsim.h` declares what stands here, and says what a caller owes.
#![tactic(auto)]

mod handle;
mod parts;
mod rows;
mod session;
mod statuses;

ghost use Rattle.std.specs.Prelude.{◌≡◌, ◌≢◌, ◌≤◌, ◌<◌, None, Some, IsSomeAnd, is_some, true, false, length, take, []};
ghost use Rattle.street_base.specs.declared.command.Command.TheVariants.{Advance, Count, Enter, ReadMeter, Vehicle};
ghost use Rattle.street_base.specs.declared.reply.Reply.TheVariants.{Census, Clock, Entered};
ghost use Rattle.street_engine.specs.Prelude.{StandsFor};
ghost use Rattle.street_c.specs.Answers.{Answered, Answers, AnswersLong, Both, EndsLine, Keeps, NothingDone, Shows, StaysUntold, TellsAgain, TellsLong, last_output};
ghost use Rattle.street_c.specs.Shown.{LongRows, LongVehicle, ShowsRows, ShowsVehicle, is_census, is_clock, is_entered, is_rows, is_vehicle};
ghost use Rattle.street_c.specs.declared.session.LineEnd.TheVariants.{Untold};

use handle::Streetsim;
use rows::{
    StreetsimCensus, StreetsimRow, StreetsimRunning, StreetsimVehicle, show_rows, show_vehicle,
};
use session::{LineEnd, Session};
use statuses::{DONE, MISUSED, OTHER, SHORT, STARVED, UNTOLD};
use std::alloc::Global;
use street_base::{Command, Listing, Reply};

/// Copies the line of the last reply into the room, as far as there is room for all of it, and tells how long it is.
fn copy_out(session: &Session, room: &mut [u8], bytes: &mut usize) -> u32
    ensures told { result ≡ 0 → take bytes.new room.new ≡ session.now.text.items }
    ensures long { bytes.new ≡ length session.now.text.items }
    ensures short { result ≢ 0 → (result ≡ 3) × (length room.old < bytes.new) }
{
    let text = session.text();
    *bytes = text.len();
    if text.len() > room.len() {
        return SHORT;
    }
    room[..text.len()].copy_from_slice(text);
    DONE
}

/// Serves a line, and copies its output.
fn serve_line(
    alloc: Global,
    session: &mut Session,
    line: &[u8],
    room: &mut [u8],
    bytes: &mut usize,
) -> u32
    ensures served { result ≡ 0 → Answers line.now (take bytes.new room.new) session.old session.new }
    ensures long { result ≡ 3 → AnswersLong line.now bytes.new room.old session.old session.new }
    ensures untold { result ≡ 4 → EndsLine session.old line.now Untold session.new }
    ensures starved { result ≡ 1 → NothingDone session.old session.new }
    ensures ends { (result ≢ 2) × (result ≤ 4) }
{
    match session.line(alloc, line) {
        LineEnd::Told => copy_out(session, room, bytes),
        LineEnd::Untold => UNTOLD,
        LineEnd::Unserved => STARVED,
    }
}

/// Makes the line of the last reply, where it is not made yet, and copies it.
fn tell_again(alloc: Global, session: &mut Session, room: &mut [u8], bytes: &mut usize) -> u32
    ensures told { result ≡ 0 → TellsAgain (take bytes.new room.new) session.old session.new }
    ensures long { result ≡ 3 → TellsLong bytes.new room.old session.old session.new }
    ensures untold { result ≡ 4 → StaysUntold session.old session.new }
    ensures ends { (result ≢ 1) × (result ≢ 2) × (result ≤ 4) }
{
    match session.say(alloc) {
        Ok(()) => copy_out(session, room, bytes),
        Err(_) => UNTOLD,
    }
}

/// Has the session serve an advance.
fn advance(session: &mut Session, steps: u64, clock: &mut u64) -> u32
    ensures done { result ≡ 0 → Answered (Advance steps) (Clock clock.new) session.old session.new }
    ensures other { result ≡ 5 → Keeps (λ reply. is_clock reply ≡ false) (Advance steps) session.old session.new }
    ensures ends { (result ≢ 1) × (result ≢ 2) × (result ≢ 3) × (result ≢ 4) × (result ≤ 5) }
{
    match session.serve(&Command::Advance { steps }) {
        Reply::Clock { clock: after } => {
            *clock = after;
            DONE
        }
        other => {
            session.keep(other);
            OTHER
        }
    }
}

/// Has the session serve a count.
fn count(session: &mut Session, census: &mut StreetsimCensus) -> u32
    ensures done { let c = census.new in result ≡ 0
        → Answered Count (Census c.admitted c.arrived c.buffers c.cells c.clock c.taken c.waiting) session.old session.new }
    ensures other { result ≡ 5 → Keeps (λ reply. is_census reply ≡ false) Count session.old session.new }
    ensures ends { (result ≢ 1) × (result ≢ 2) × (result ≢ 3) × (result ≢ 4) × (result ≤ 5) }
{
    match session.serve(&Command::Count) {
        Reply::Census {
            admitted,
            arrived,
            buffers,
            cells,
            clock,
            taken,
            waiting,
        } => {
            *census = StreetsimCensus {
                admitted,
                arrived,
                buffers,
                cells,
                clock,
                taken,
                waiting,
            };
            DONE
        }
        other => {
            session.keep(other);
            OTHER
        }
    }
}

/// Keeps a reply that was not shown whole.
fn finish(session: &mut Session, reply: Reply, status: u32) -> u32
    ensures engine { session.new.engine ≡ session.old.engine }
    ensures same { result ≡ status }
    ensures kept { status ≢ 0 → session.new.unsaid ≡ Some reply }
    ensures shown { status ≡ 0 → session.new ≡ session.old }
{
    if status != DONE {
        session.keep(reply);
    }
    status
}

/// Has the session serve the question where a vehicle is.
fn vehicle(
    session: &mut Session,
    car: u64,
    row: &mut StreetsimVehicle,
    plan: &mut [u64],
    links: &mut usize,
) -> u32
    ensures done { result ≡ 0 → Shows (ShowsVehicle row.new (take links.new plan.new)) (Vehicle car) session.old session.new }
    ensures long { result ≡ 3 → Keeps (LongVehicle row.new links.new plan.old) (Vehicle car) session.old session.new }
    ensures other { result ≡ 5 → Keeps (λ reply. is_vehicle reply ≡ false) (Vehicle car) session.old session.new }
    ensures ends { (result ≢ 1) × (result ≢ 2) × (result ≢ 4) × (result ≤ 5) }
{
    let reply = session.serve(&Command::Vehicle { car });
    let status = show_vehicle(&reply, row, plan, links);
    finish(session, reply, status)
}

/// Has the session serve the reading of a detector.
fn read(
    alloc: Global,
    session: &mut Session,
    meter: u64,
    running: &mut StreetsimRunning,
    rows: &mut [StreetsimRow],
    count: &mut usize,
) -> u32
    ensures done { result ≡ 0 → Shows (ShowsRows running.new (take count.new rows.new)) (ReadMeter meter) session.old session.new }
    ensures long { result ≡ 3 → Keeps (LongRows running.new count.new rows.old) (ReadMeter meter) session.old session.new }
    ensures untold { result ≡ 4 → Keeps (λ reply. is_rows reply ≡ true) (ReadMeter meter) session.old session.new }
    ensures other { result ≡ 5 → Keeps (λ reply. is_rows reply ≡ false) (ReadMeter meter) session.old session.new }
    ensures ends { (result ≢ 1) × (result ≢ 2) × (result ≤ 5) }
{
    let reply = session.serve(&Command::ReadMeter { meter });
    let status = show_rows(alloc, &reply, running, rows, count);
    finish(session, reply, status)
}

/// Has the session serve the entering of a vehicle.
fn enter(
    alloc: Global,
    session: &mut Session,
    plan: &[u64],
    lane: u64,
    depart: u64,
    size: u64,
    car: &mut u64,
) -> u32
    ensures done { result ≡ 0 → Answered (Enter plan.now lane depart size) (Entered car.new) session.old session.new }
    ensures other { result ≡ 5 → Keeps (λ reply. is_entered reply ≡ false) (Enter plan.now lane depart size) session.old session.new }
    ensures ends { (result ≢ 2) × (result ≢ 3) × (result ≢ 4) × (result ≤ 5) }
    ensures starved { result ≡ 1 → NothingDone session.old session.new }
{
    let mut links = Vec::new(alloc);
    if links.extend_from_slice(plan).is_err() {
        return STARVED;
    }
    let command = Command::Enter {
        plan: Listing::from_vec(links),
        lane,
        depart,
        size,
    };
    match session.serve(&command) {
        Reply::Entered { car: number } => {
            *car = number;
            DONE
        }
        other => {
            session.keep(other);
            OTHER
        }
    }
}

/// Opens a session with nothing loaded. The handle is all zeros, or a closed one.
#[unsafe(no_mangle)]
pub extern "C" fn streetsim_open(alloc: Global, handle: &mut Streetsim) -> u32
    ensures opened { result ≡ 0
        → (handle.old.handle.held ≡ None) × IsSomeAnd handle.new.handle.held (λ s. StandsFor s.engine None × (last_output s ≡ [])) }
    ensures kept { result ≢ 0 → handle.new.handle.held ≡ handle.old.handle.held }
    ensures misused { result ≡ 2 → is_some handle.old.handle.held ≡ true }
    ensures open { is_some handle.old.handle.held ≡ true → result ≡ 2 }
    ensures ends { result ≤ 2 }
{
    if handle.is_open() {
        return MISUSED;
    }
    let Ok(session) = Box::new(alloc, Session::new(alloc)) else {
        return STARVED;
    };
    handle.put(session);
    DONE
}

/// Serves a line, which is given without its LF, and writes its reply to the start of `room`, and its length to `bytes`; 0 of a blank
/// line.
#[unsafe(no_mangle)]
pub extern "C" fn streetsim_line(
    alloc: Global,
    handle: &mut Streetsim,
    line: &[u8],
    room: &mut [u8],
    bytes: &mut usize,
) -> u32
    ensures served { result ≡ 0 → Both (Answers line.now (take bytes.new room.new)) handle.old.handle.held handle.new.handle.held }
    ensures long { result ≡ 3 → Both (AnswersLong line.now bytes.new room.old) handle.old.handle.held handle.new.handle.held }
    ensures untold { result ≡ 4 → Both (λ old new. EndsLine old line.now Untold new) handle.old.handle.held handle.new.handle.held }
    ensures starved { result ≡ 1 → Both NothingDone handle.old.handle.held handle.new.handle.held }
    ensures ends { result ≤ 4 }
    ensures closed { handle.old.handle.held ≡ None → result ≡ 2 }
    ensures misused { result ≡ 2 → handle.old.handle.held ≡ None }
    ensures kept { is_some handle.new.handle.held ≡ is_some handle.old.handle.held }
{
    let Some(mut session) = handle.take(alloc) else {
        return MISUSED;
    };
    let status = serve_line(alloc, &mut session, line, room, bytes);
    handle.put(session);
    status
}

/// Gives the last reply again, which found too little room, or no memory: its line is copied as `streetsim_line` copies one.
#[unsafe(no_mangle)]
pub extern "C" fn streetsim_reply(
    alloc: Global,
    handle: &mut Streetsim,
    room: &mut [u8],
    bytes: &mut usize,
) -> u32
    ensures told { result ≡ 0 → Both (TellsAgain (take bytes.new room.new)) handle.old.handle.held handle.new.handle.held }
    ensures long { result ≡ 3 → Both (TellsLong bytes.new room.old) handle.old.handle.held handle.new.handle.held }
    ensures untold { result ≡ 4 → Both StaysUntold handle.old.handle.held handle.new.handle.held }
    ensures ends { (result ≢ 1) × (result ≤ 4) }
    ensures closed { handle.old.handle.held ≡ None → result ≡ 2 }
    ensures misused { result ≡ 2 → handle.old.handle.held ≡ None }
    ensures kept { is_some handle.new.handle.held ≡ is_some handle.old.handle.held }
{
    let Some(mut session) = handle.take(alloc) else {
        return MISUSED;
    };
    let status = tell_again(alloc, &mut session, room, bytes);
    handle.put(session);
    status
}

/// Makes up to 10,000 steps, and tells the clock after them.
#[unsafe(no_mangle)]
pub extern "C" fn streetsim_advance(
    alloc: Global,
    handle: &mut Streetsim,
    steps: u64,
    clock: &mut u64,
) -> u32
    ensures done { result ≡ 0 → Both (Answered (Advance steps) (Clock clock.new)) handle.old.handle.held handle.new.handle.held }
    ensures other { result ≡ 5 → Both (Keeps (λ reply. is_clock reply ≡ false) (Advance steps)) handle.old.handle.held handle.new.handle.held }
    ensures ends { (result ≢ 1) × (result ≢ 3) × (result ≢ 4) × (result ≤ 5) }
    ensures closed { handle.old.handle.held ≡ None → result ≡ 2 }
    ensures misused { result ≡ 2 → handle.old.handle.held ≡ None }
    ensures kept { is_some handle.new.handle.held ≡ is_some handle.old.handle.held }
{
    let Some(mut session) = handle.take(alloc) else {
        return MISUSED;
    };
    let status = advance(&mut session, steps, clock);
    handle.put(session);
    status
}

/// Tells how many vehicles stand where or have ended how, and the clock.
#[unsafe(no_mangle)]
pub extern "C" fn streetsim_count(
    alloc: Global,
    handle: &mut Streetsim,
    census: &mut StreetsimCensus,
) -> u32
    ensures done { let c = census.new in result ≡ 0
        → Both (Answered Count (Census c.admitted c.arrived c.buffers c.cells c.clock c.taken c.waiting)) handle.old.handle.held handle.new.handle.held }
    ensures other { result ≡ 5 → Both (Keeps (λ reply. is_census reply ≡ false) Count) handle.old.handle.held handle.new.handle.held }
    ensures ends { (result ≢ 1) × (result ≢ 3) × (result ≢ 4) × (result ≤ 5) }
    ensures closed { handle.old.handle.held ≡ None → result ≡ 2 }
    ensures misused { result ≡ 2 → handle.old.handle.held ≡ None }
    ensures kept { is_some handle.new.handle.held ≡ is_some handle.old.handle.held }
{
    let Some(mut session) = handle.take(alloc) else {
        return MISUSED;
    };
    let status = count(&mut session, census);
    handle.put(session);
    status
}

/// Tells where a vehicle is, by its number, and copies the rest of its plan, whose length it writes to `links`. With too little room for
/// that the reply is kept for `streetsim_reply`.
#[unsafe(no_mangle)]
pub extern "C" fn streetsim_vehicle(
    alloc: Global,
    handle: &mut Streetsim,
    car: u64,
    row: &mut StreetsimVehicle,
    plan: &mut [u64],
    links: &mut usize,
) -> u32
    ensures done { result ≡ 0
        → Both (Shows (ShowsVehicle row.new (take links.new plan.new)) (Vehicle car)) handle.old.handle.held handle.new.handle.held }
    ensures long { result ≡ 3
        → Both (Keeps (LongVehicle row.new links.new plan.old) (Vehicle car)) handle.old.handle.held handle.new.handle.held }
    ensures other { result ≡ 5 → Both (Keeps (λ reply. is_vehicle reply ≡ false) (Vehicle car)) handle.old.handle.held handle.new.handle.held }
    ensures ends { (result ≢ 1) × (result ≢ 4) × (result ≤ 5) }
    ensures closed { handle.old.handle.held ≡ None → result ≡ 2 }
    ensures misused { result ≡ 2 → handle.old.handle.held ≡ None }
    ensures kept { is_some handle.new.handle.held ≡ is_some handle.old.handle.held }
{
    let Some(mut session) = handle.take(alloc) else {
        return MISUSED;
    };
    let status = vehicle(&mut session, car, row, plan, links);
    handle.put(session);
    status
}

/// Admits a vehicle, which waits at the first link of its plan, and writes its number to `car`. Where memory for the plan is refused
/// nothing is done.
#[unsafe(no_mangle)]
pub extern "C" fn streetsim_enter(
    alloc: Global,
    handle: &mut Streetsim,
    plan: &[u64],
    lane: u64,
    depart: u64,
    size: u64,
    car: &mut u64,
) -> u32
    ensures done { result ≡ 0 → Both (Answered (Enter plan.now lane depart size) (Entered car.new)) handle.old.handle.held handle.new.handle.held }
    ensures other { result ≡ 5 → Both (Keeps (λ reply. is_entered reply ≡ false) (Enter plan.now lane depart size)) handle.old.handle.held handle.new.handle.held }
    ensures ends { (result ≢ 3) × (result ≢ 4) × (result ≤ 5) }
    ensures starved { result ≡ 1 → Both NothingDone handle.old.handle.held handle.new.handle.held }
    ensures closed { handle.old.handle.held ≡ None → result ≡ 2 }
    ensures misused { result ≡ 2 → handle.old.handle.held ≡ None }
    ensures kept { is_some handle.new.handle.held ≡ is_some handle.old.handle.held }
{
    let Some(mut session) = handle.take(alloc) else {
        return MISUSED;
    };
    let status = enter(alloc, &mut session, plan, lane, depart, size, car);
    handle.put(session);
    status
}

/// Tells the rows of a detector, by its number: the running period, and the full ones, 32 at most, whose number it writes to `count`. With
/// too little room for these the reply is kept for `streetsim_reply`.
#[unsafe(no_mangle)]
pub extern "C" fn streetsim_read(
    alloc: Global,
    handle: &mut Streetsim,
    meter: u64,
    running: &mut StreetsimRunning,
    rows: &mut [StreetsimRow],
    count: &mut usize,
) -> u32
    ensures done { result ≡ 0
        → Both (Shows (ShowsRows running.new (take count.new rows.new)) (ReadMeter meter)) handle.old.handle.held handle.new.handle.held }
    ensures long { result ≡ 3
        → Both (Keeps (LongRows running.new count.new rows.old) (ReadMeter meter)) handle.old.handle.held handle.new.handle.held }
    ensures untold { result ≡ 4 → Both (Keeps (λ reply. is_rows reply ≡ true) (ReadMeter meter)) handle.old.handle.held handle.new.handle.held }
    ensures other { result ≡ 5 → Both (Keeps (λ reply. is_rows reply ≡ false) (ReadMeter meter)) handle.old.handle.held handle.new.handle.held }
    ensures ends { (result ≢ 1) × (result ≤ 5) }
    ensures closed { handle.old.handle.held ≡ None → result ≡ 2 }
    ensures misused { result ≡ 2 → handle.old.handle.held ≡ None }
    ensures kept { is_some handle.new.handle.held ≡ is_some handle.old.handle.held }
{
    let Some(mut session) = handle.take(alloc) else {
        return MISUSED;
    };
    let status = read(alloc, &mut session, meter, running, rows, count);
    handle.put(session);
    status
}

/// Closes the session, and frees its memory. Does nothing where none is open.
#[unsafe(no_mangle)]
pub extern "C" fn streetsim_close(alloc: Global, handle: &mut Streetsim)
    ensures { handle.new.handle.held ≡ None }
{
    let _ = handle.take(alloc);
}
