//! The text of each command.

use std::alloc::Global;
use std::process::Abort;
use std::test::Fail;
use street_base::{Command, GreenSpec, LinkSpec, Listing, NetSpec, NodeSpec, PhaseSpec, TurnSpec};
use street_text::command_text;

fn listing<T: Copy>(alloc: Global, entries: &[T]) -> Result<Listing<T>, Fail> {
    Ok(Listing::from_vec(Vec::from_slice(alloc, entries)?))
}

fn check_text(rt: &(impl Abort + AllocGlobal), command: &Command, want: &str) -> Result<(), Fail> {
    let text = command_text(rt.alloc(), command)?;
    assert_eq!(rt; text.as_slice(), want.as_bytes(), "at {want}");
    Ok(())
}

/// The commands have these texts.
fn check_texts(rt: &(impl Abort + AllocGlobal), texts: &[(Command, &str)]) -> Result<(), Fail> {
    for (command, want) in texts {
        check_text(rt, command, want)?;
    }
    Ok(())
}

#[test]
fn prints_each_command_of_numbers(rt: HostRuntime) -> Result<(), Fail> {
    let (link, lane, first, last) = (10, 1, 3, 7);
    let texts = [
        (
            Command::Advance { steps: 5 },
            "{\"cmd\":\"advance\",\"steps\":5}",
        ),
        (
            Command::CloseLane {
                link,
                lane,
                first,
                last,
            },
            "{\"cmd\":\"close\",\"first\":3,\"lane\":1,\"last\":7,\"link\":10}",
        ),
        (
            Command::ReopenLane {
                link,
                lane,
                first,
                last,
            },
            "{\"cmd\":\"reopen\",\"first\":3,\"lane\":1,\"last\":7,\"link\":10}",
        ),
        (
            Command::TakeOut { car: u64::MAX },
            "{\"car\":18446744073709551615,\"cmd\":\"takeout\"}",
        ),
        (
            Command::PlaceMeter {
                link,
                lane,
                cell: 4,
                period: 60,
            },
            "{\"cell\":4,\"cmd\":\"meter\",\"lane\":1,\"link\":10,\"period\":60}",
        ),
        (
            Command::ReadMeter { meter: 2 },
            "{\"cmd\":\"read\",\"meter\":2}",
        ),
        (
            Command::Vehicle { car: 0 },
            "{\"car\":0,\"cmd\":\"vehicle\"}",
        ),
        (
            Command::Lane { link, lane },
            "{\"cmd\":\"lane\",\"lane\":1,\"link\":10}",
        ),
        (Command::Count, "{\"cmd\":\"count\"}"),
    ];
    check_texts(&rt, &texts)
}

#[test]
fn prints_an_entry(rt: HostRuntime) -> Result<(), Fail> {
    let enter = Command::Enter {
        plan: listing(rt.alloc(), &[10, 20])?,
        lane: 0,
        depart: 3,
        size: 1,
    };
    check_text(
        &rt,
        &enter,
        "{\"cmd\":\"enter\",\"depart\":3,\"lane\":0,\"plan\":[10,20]}",
    )
}

#[test]
fn prints_an_entry_of_three_cells(rt: HostRuntime) -> Result<(), Fail> {
    let enter = Command::Enter {
        plan: listing(rt.alloc(), &[10, 20])?,
        lane: 0,
        depart: 3,
        size: 3,
    };
    check_text(
        &rt,
        &enter,
        "{\"cmd\":\"enter\",\"depart\":3,\"lane\":0,\"plan\":[10,20],\"size\":3}",
    )
}

/// A phase that lasts so long, with these greens.
fn phase(alloc: Global, duration: u64, greens: &[GreenSpec]) -> Result<PhaseSpec, Fail> {
    Ok(PhaseSpec {
        duration,
        greens: listing(alloc, greens)?,
    })
}

/// A phase of two greens, and one of none.
fn phases(alloc: Global) -> Result<Vec<PhaseSpec>, Fail> {
    let green = GreenSpec {
        link: 10,
        lane: 0,
        next: 20,
    };
    let mut phases = Vec::new(alloc);
    phases.push(phase(alloc, 8, &[green, GreenSpec { lane: 1, ..green }])?)?;
    phases.push(phase(alloc, 2, &[])?)?;
    Ok(phases)
}

#[test]
fn prints_a_signal(rt: HostRuntime) -> Result<(), Fail> {
    let signal = Command::Signal {
        node: 2,
        offset: 6,
        phases: Listing::from_vec(phases(rt.alloc())?),
    };
    check_text(
        &rt,
        &signal,
        "{\"cmd\":\"signal\",\"node\":2,\"offset\":6,\"phases\":[[8,[[10,0,20],[10,1,20]]],[2,[]]]}",
    )
}

/// A load of two nodes, a link and a turn.
fn load(alloc: Global) -> Result<NetSpec, Fail> {
    let node = NodeSpec {
        id: 1,
        residence: 3,
        capacity: 2,
    };
    let link = LinkSpec {
        id: 10,
        from: 1,
        to: 2,
        lanes: 1,
        length: 9,
        limit: 5,
    };
    let turn = TurnSpec {
        link: 10,
        lane: 0,
        next: 20,
        next_lane: 1,
    };
    let nodes = listing(alloc, &[node, NodeSpec { id: 2, ..node }])?;
    let links = listing(alloc, &[link])?;
    let turns = listing(alloc, &[turn])?;
    Ok(NetSpec {
        nodes,
        links,
        turns,
        zone: 6,
        dawdle: 200,
        change: 500,
        seed: 42,
        start: 0,
    })
}

#[test]
fn prints_a_load(rt: HostRuntime) -> Result<(), Fail> {
    let load = Command::Load(load(rt.alloc())?);
    check_text(
        &rt,
        &load,
        "{\"change\":500,\"cmd\":\"load\",\"dawdle\":200,\"links\":[[10,1,2,1,9,5]],\"nodes\":[[1,3,2],[2,3,2]],\"seed\":42,\"start\":0,\"turns\":[[10,0,20,1]],\"zone\":6}",
    )
}
