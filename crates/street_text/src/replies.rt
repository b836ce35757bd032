//! From a reply to its line. `street_line` and replays call it for each reply.
ghost use Rattle.std.specs.Prelude.{◌≡◌, IfOk, nat_lt, Some, None, if◌then◌else◌};
ghost use Rattle.serde_json.specs.Data.{object, no_members};
ghost use Rattle.street_text.specs.ReplyLines.{line_of, number_at, refused_data, ended_data, vehicle_data, reply_data, reply_line};
ghost use Rattle.street_base.specs.declared.reply.Reply.TheVariants.{Rows, Lane};
ghost use Rattle.street_base.specs.declared.reply.Whereabouts.TheVariants.{Cell, Buffer, Waiting, Ended};

use crate::fields::{Field, object_line};
use std::alloc::Global;
use street_base::{
    BufferEntry, CellEntry, End, Listing, MeterRow, Refusal, Reply, RunningRow, Starved, Stretch,
    WaitingEntry, Whereabouts,
};

/// The line that tells why a command was refused: number and name of the refusal, and where it has them the part and place of the
/// fault.
fn refused(alloc: Global, refusal: Refusal) -> Result<Vec<u8>, Starved>
    ensures { IfOk result (λ text. text.items ≡ line_of (refused_data refusal)) }
{
    let number = Field::Number(refusal.number());
    let name = Field::Text(refusal.name());
    match refusal {
        Refusal::BadNetwork { part, at } => object_line(
            alloc,
            &[
                ("at", Field::Number(at)),
                ("error", number),
                ("name", name),
                ("part", Field::Text(part.name())),
            ],
        ),
        Refusal::BadPlan { at } | Refusal::BadSignal { at } => object_line(
            alloc,
            &[("at", Field::Number(at)), ("error", number), ("name", name)],
        ),
        _ => object_line(alloc, &[("error", number), ("name", name)]),
    }
}

/// The size of a vehicle, in cells, as a reply tells it: none where it is 1.
fn told_size(size: u64) -> Option<u64>
    ensures { result ≡ (if nat_lt 1 size then Some size else None) }
{
    if size > 1 { Some(size) } else { None }
}

/// A vehicle that has not ended, on its lane or before it.
#[derive(Clone, Copy)]
struct OnLane {
    car: u64,
    link: u64,
    lane: u64,
    size: u64,
}

impl OnLane {
    /// The vehicle of this number, on this lane or before it; its size is in cells.
    fn new(car: u64, link: u64, lane: u64, size: u64) -> OnLane
        ensures { result ≡ record { car = car; link = link; lane = lane; size = size } }
    {
        OnLane {
            car,
            link,
            lane,
            size,
        }
    }
}

/// The line of a vehicle in a cell of its lane. Cells count from 0; the speed is in cells a step.
fn in_cell(
    alloc: Global,
    at: OnLane,
    cell: u64,
    speed: u64,
    plan: &[u64],
) -> Result<Vec<u8>, Starved>
    ensures { IfOk result (λ text. text.items
        ≡ line_of (vehicle_data at.car (Cell at.link at.lane cell speed at.size plan.now))) }
{
    object_line(
        alloc,
        &[
            ("car", Field::Number(at.car)),
            ("cell", Field::Number(cell)),
            ("lane", Field::Number(at.lane)),
            ("link", Field::Number(at.link)),
            ("plan", Field::Numbers(plan)),
            ("size", Field::Optional(told_size(at.size))),
            ("speed", Field::Number(speed)),
            ("state", Field::Text("cell")),
        ],
    )
}

/// The line of a vehicle in the buffer of its lane, which it may leave from step `ready` on. The speed is in cells a step.
fn in_buffer(
    alloc: Global,
    at: OnLane,
    ready: u64,
    speed: u64,
    plan: &[u64],
) -> Result<Vec<u8>, Starved>
    ensures { IfOk result (λ text. text.items
        ≡ line_of (vehicle_data at.car (Buffer at.link at.lane ready speed at.size plan.now))) }
{
    object_line(
        alloc,
        &[
            ("car", Field::Number(at.car)),
            ("lane", Field::Number(at.lane)),
            ("link", Field::Number(at.link)),
            ("plan", Field::Numbers(plan)),
            ("ready", Field::Number(ready)),
            ("size", Field::Optional(told_size(at.size))),
            ("speed", Field::Number(speed)),
            ("state", Field::Text("buffer")),
        ],
    )
}

/// The line of a vehicle that waits for its lane, which it may enter from step `depart` on.
fn waiting(alloc: Global, at: OnLane, depart: u64, plan: &[u64]) -> Result<Vec<u8>, Starved>
    ensures { IfOk result (λ text. text.items
        ≡ line_of (vehicle_data at.car (Waiting at.link at.lane depart at.size plan.now))) }
{
    object_line(
        alloc,
        &[
            ("car", Field::Number(at.car)),
            ("depart", Field::Number(depart)),
            ("lane", Field::Number(at.lane)),
            ("link", Field::Number(at.link)),
            ("plan", Field::Numbers(plan)),
            ("size", Field::Optional(told_size(at.size))),
            ("state", Field::Text("waiting")),
        ],
    )
}

/// The line of a vehicle that has ended in step `step`. The state is `arrived` or `taken`.
fn ended_as(alloc: Global, car: u64, state: &str, step: u64) -> Result<Vec<u8>, Starved>
    ensures { IfOk result (λ text. text.items ≡ line_of (ended_data car state.now step)) }
{
    object_line(
        alloc,
        &[
            ("car", Field::Number(car)),
            ("state", Field::Text(state)),
            ("step", Field::Number(step)),
        ],
    )
}

/// The line of a vehicle that has ended: by arriving, or by being taken out, and in which step.
fn ended(alloc: Global, car: u64, end: &End) -> Result<Vec<u8>, Starved>
    ensures { IfOk result (λ text. text.items ≡ line_of (vehicle_data car (Ended end.now))) }
{
    match end {
        End::Arrived { step } => ended_as(alloc, car, "arrived", *step),
        End::Taken { step } => ended_as(alloc, car, "taken", *step),
    }
}

/// The line that tells where the vehicle of a number is: in a cell, in a buffer, waiting, or ended.
fn vehicle(alloc: Global, car: u64, whereabouts: &Whereabouts) -> Result<Vec<u8>, Starved>
    ensures { IfOk result (λ text. text.items ≡ line_of (vehicle_data car whereabouts.now)) }
{
    match whereabouts {
        Whereabouts::Cell {
            link,
            lane,
            cell,
            speed,
            size,
            plan,
        } => in_cell(
            alloc,
            OnLane::new(car, *link, *lane, *size),
            *cell,
            *speed,
            plan.as_slice(),
        ),
        Whereabouts::Buffer {
            link,
            lane,
            ready,
            speed,
            size,
            plan,
        } => in_buffer(
            alloc,
            OnLane::new(car, *link, *lane, *size),
            *ready,
            *speed,
            plan.as_slice(),
        ),
        Whereabouts::Waiting {
            link,
            lane,
            depart,
            size,
            plan,
        } => waiting(
            alloc,
            OnLane::new(car, *link, *lane, *size),
            *depart,
            plan.as_slice(),
        ),
        Whereabouts::Ended(end) => ended(alloc, car, end),
    }
}

/// The line of the rows of a detector: the running row as `now`, the full ones as `rows`.
fn rows(alloc: Global, now: &RunningRow, rows: &Listing<MeterRow>) -> Result<Vec<u8>, Starved>
    ensures { IfOk result (λ text. text.items ≡ line_of (reply_data (Rows now.now rows.now))) }
{
    object_line(
        alloc,
        &[
            ("now", Field::Running(now)),
            ("rows", Field::Rows(rows.as_slice())),
        ],
    )
}

/// The line that tells who is on a lane or waits for it, and which stretches of its cells are closed.
fn lane(
    alloc: Global,
    buffer: &Listing<BufferEntry>,
    cells: &Listing<CellEntry>,
    closed: &Listing<Stretch>,
    waiting: &Listing<WaitingEntry>,
) -> Result<Vec<u8>, Starved>
    ensures { IfOk result (λ text. text.items
        ≡ line_of (reply_data (Lane buffer.now cells.now closed.now waiting.now))) }
{
    object_line(
        alloc,
        &[
            ("buffer", Field::Buffer(buffer.as_slice())),
            ("cells", Field::Cells(cells.as_slice())),
            ("closed", Field::Stretches(closed.as_slice())),
            ("waiting", Field::Waiting(waiting.as_slice())),
        ],
    )
}

/// The line of a JSON object of one number, under this name.
fn one_number(alloc: Global, name: &str, number: u64) -> Result<Vec<u8>, Starved>
    ensures { IfOk result (λ text. text.items ≡ line_of (object (number_at name.now number no_members))) }
{
    object_line(alloc, &[(name, Field::Number(number))])
}

/// The line of a reply: one JSON object, its keys in byte order, and LF.
///
/// # Errors
///
/// `Starved` where there was no memory for it.
#[tactic(auto, unfolding(crate::specs::ReplyLines::reply_line))]
pub fn reply_text(alloc: Global, reply: &Reply) -> Result<Vec<u8>, Starved>
    ensures { IfOk result (λ text. text.items ≡ reply_line reply.now) }
{
    match reply {
        Reply::Loaded {
            links,
            nodes,
            turns,
        } => object_line(
            alloc,
            &[
                ("links", Field::Number(*links)),
                ("nodes", Field::Number(*nodes)),
                ("turns", Field::Number(*turns)),
            ],
        ),
        Reply::Signalled { cycle } => one_number(alloc, "cycle", *cycle),
        Reply::Entered { car } => one_number(alloc, "car", *car),
        Reply::Clock { clock } => one_number(alloc, "clock", *clock),
        Reply::Short { clock, short } => object_line(
            alloc,
            &[
                ("clock", Field::Number(*clock)),
                ("short", Field::Number(*short)),
            ],
        ),
        Reply::Closed { closed } => one_number(alloc, "closed", *closed),
        Reply::Taken { taken } => one_number(alloc, "taken", *taken),
        Reply::Placed { meter } => one_number(alloc, "meter", *meter),
        Reply::Rows { now, rows: list } => rows(alloc, now, list),
        Reply::Vehicle { car, whereabouts } => vehicle(alloc, *car, whereabouts),
        Reply::Lane {
            buffer,
            cells,
            closed,
            waiting,
        } => lane(alloc, buffer, cells, closed, waiting),
        Reply::Census {
            admitted,
            arrived,
            buffers,
            cells,
            clock,
            taken,
            waiting,
        } => object_line(
            alloc,
            &[
                ("admitted", Field::Number(*admitted)),
                ("arrived", Field::Number(*arrived)),
                ("buffers", Field::Number(*buffers)),
                ("cells", Field::Number(*cells)),
                ("clock", Field::Number(*clock)),
                ("taken", Field::Number(*taken)),
                ("waiting", Field::Number(*waiting)),
            ],
        ),
        Reply::Refused(refusal) => refused(alloc, *refusal),
        Reply::Starved => object_line(alloc, &[("starved", Field::Flag(true))]),
    }
}
