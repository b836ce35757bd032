//! Lines that are commands, and lines that are none.

use std::alloc::{AllocError, Global};
use std::process::Abort;
use std::test::Fail;
use street_base::{Command, GreenSpec, LinkSpec, NetSpec, NodeSpec, PhaseSpec, TurnSpec};
use street_text::{LineFault, LineReader, read_command};

/// The name of a command.
fn name(command: &Command) -> &'static str {
    match command {
        Command::Load(_) => "load",
        Command::Enter { .. } => "enter",
        Command::Signal { .. } => "signal",
        Command::Advance { .. } => "advance",
        Command::CloseLane { .. } => "close",
        Command::ReopenLane { .. } => "reopen",
        Command::TakeOut { .. } => "takeout",
        Command::PlaceMeter { .. } => "meter",
        Command::ReadMeter { .. } => "read",
        Command::Vehicle { .. } => "vehicle",
        Command::Lane { .. } => "lane",
        Command::Count => "count",
    }
}

/// What a line is to a reader that has read another line, which has escapes and more numbers than most.
fn read_next(alloc: Global, line: &[u8]) -> Result<Command, LineFault> {
    let mut reader = LineReader::new(alloc);
    let before = br#"{"\u0063md":"enter","plan":[7,8,9],"lane":3,"depart":4,"size":2,"lane":5}"#;
    let _read = reader.read(alloc, before);
    reader.read(alloc, line)
}

/// The name of the command or of the fault that was read.
fn kind(read: Result<Command, LineFault>) -> &'static str {
    match read {
        Ok(command) => name(&command),
        Err(fault) => fault.name(),
    }
}

/// A line, which this number tells from the others, reads as this command or fault.
fn check_kind(rt: &(impl Abort + AllocGlobal), number: usize, line: &[u8], want: &str) {
    assert!(rt;
        kind(read_command(rt.alloc(), line)) == want,
        "no {want} at {number}"
    );
    assert!(rt;
        kind(read_next(rt.alloc(), line)) == want,
        "no {want} at {number}, as a next line"
    );
}

/// Numbers as they may be written, and what a line with them is.
static NUMBERS: [(&str, &str); 20] = [
    ("5", "advance"),
    ("0", "advance"),
    ("18446744073709551615", "advance"),
    ("18446744073709551616", "BadCommand"),
    ("1.0", "BadCommand"),
    ("1e3", "BadCommand"),
    ("1E0", "BadCommand"),
    ("10e-1", "BadCommand"),
    ("-0", "BadCommand"),
    ("-1", "BadCommand"),
    (r#""5""#, "BadCommand"),
    ("[5]", "BadCommand"),
    ("null", "BadCommand"),
    ("true", "BadCommand"),
    ("01", "NotJson"),
    ("+1", "NotJson"),
    ("1.", "NotJson"),
    ("NaN", "NotJson"),
    ("1e999", "NotJson"),
    ("", "NotJson"),
];

#[test]
fn numbers_are_digits_alone(rt: HostRuntime) -> Result<(), Fail> {
    for (at, (number, want)) in NUMBERS.iter().enumerate() {
        let line = format!(in rt.alloc(); "{{\"cmd\":\"advance\",\"steps\":{number}}}")?;
        check_kind(&rt, at, line.as_bytes(), want);
    }
    Ok(())
}

/// Odd lines, and what they are.
static ODD_LINES: [(&[u8], &str); 40] = [
    (br#"{"steps":5,"cmd":"advance"}"#, "advance"),
    (
        b" \t{ \"cmd\" : \"advance\" , \"steps\" : 5 } \r",
        "advance",
    ),
    (
        br#"{"cmd":"advance","steps":5,"x":[1,{"y":null}]}"#,
        "advance",
    ),
    (br#"{"cmd":"advance","steps":"x","steps":5}"#, "advance"),
    (br#"{"cmd":"advance","steps":5,"steps":"x"}"#, "BadCommand"),
    (br#"{"\u0063md":"\u0061dvance","steps":5}"#, "advance"),
    (br#"{"cmd":"vehicle","car":0}"#, "vehicle"),
    (br#"{"cmd":"enter","plan":[],"lane":7,"depart":0}"#, "enter"),
    (
        br#"{"cmd":"enter","plan":[1,2.5],"lane":0,"depart":0}"#,
        "BadCommand",
    ),
    (
        br#"{"cmd":"enter","plan":[[1]],"lane":0,"depart":0}"#,
        "BadCommand",
    ),
    (
        br#"{"cmd":"enter","plan":1,"lane":0,"depart":0}"#,
        "BadCommand",
    ),
    (br#"{"cmd":"enter","plan":[1],"lane":0}"#, "BadCommand"),
    (br#"{"cmd":"advance"}"#, "BadCommand"),
    (br#"{"cmd":"Advance","steps":5}"#, "BadCommand"),
    (br#"{"Cmd":"advance","steps":5}"#, "BadCommand"),
    (br#"{"cmd":"halt"}"#, "BadCommand"),
    (br#"{"cmd":5}"#, "BadCommand"),
    (br#"{"steps":5}"#, "BadCommand"),
    (b"{}", "BadCommand"),
    (b"[]", "BadCommand"),
    (br#"["cmd","advance"]"#, "BadCommand"),
    (br#""advance""#, "BadCommand"),
    (b"5", "BadCommand"),
    (b"null", "BadCommand"),
    (b"", "NotJson"),
    (b"  ", "NotJson"),
    (b"x", "NotJson"),
    (b"[1,]", "NotJson"),
    (br#"{"cmd":"advance","steps":5,}"#, "NotJson"),
    (br#"{"cmd":"advance","steps":5} x"#, "NotJson"),
    (br#"{"cmd":"advance","steps":5}{}"#, "NotJson"),
    (br#"{"cmd":"advance","steps":5"#, "NotJson"),
    (b"{'cmd':'advance','steps':5}", "NotJson"),
    (
        b"{\"cmd\":\"advance\",\"steps\":5,\"x\":\"a\tb\"}",
        "NotJson",
    ),
    (br#"{"cmd":"advance","steps":5,"x":"\ud800"}"#, "NotJson"),
    (
        br#"{"cmd":"advance","steps":5,"x":"\ud83d\ude00"}"#,
        "advance",
    ),
    (br#"{"cmd":"advance","steps":5,"x":1e999}"#, "NotJson"),
    (
        b"{\"cmd\":\"advance\",\"steps\":5,\"x\":\"\xff\"}",
        "NotJson",
    ),
    (b"\xff", "NotJson"),
    (b"\xef\xbb\xbf{\"cmd\":\"advance\",\"steps\":5}", "NotJson"),
];

#[test]
fn odd_lines(rt: HostRuntime) {
    for (at, (line, want)) in ODD_LINES.iter().enumerate() {
        check_kind(&rt, at, line, want);
    }
}

/// An advance with so many lists in one another beside its fields.
fn nested(alloc: Global, lists: usize) -> Result<Vec<u8>, AllocError> {
    let mut line = Vec::from_slice(alloc, b"{\"cmd\":\"advance\",\"steps\":5,\"x\":")?;
    line.resize(line.len().saturating_add(lists), b'[')?;
    line.resize(line.len().saturating_add(lists), b']')?;
    line.push(b'}')?;
    Ok(line)
}

#[test]
fn nesting_is_read_to_127_levels(rt: HostRuntime) -> Result<(), Fail> {
    for (lists, want) in [(126, "advance"), (127, "NotJson"), (1000, "NotJson")] {
        let line = nested(rt.alloc(), lists)?;
        check_kind(&rt, lists, line.as_slice(), want);
    }
    Ok(())
}

/// An advance behind so many spaces.
fn spaced(alloc: Global, spaces: usize) -> Result<Vec<u8>, AllocError> {
    let mut line = vec![in alloc; b' '; spaces]?;
    line.extend_from_slice(b"{\"cmd\":\"advance\",\"steps\":5}")?;
    Ok(line)
}

#[test]
fn a_line_has_at_most_1048576_bytes(rt: HostRuntime) -> Result<(), Fail> {
    for (spaces, want) in [(1_048_549, "advance"), (1_048_550, "LineTooLong")] {
        let line = spaced(rt.alloc(), spaces)?;
        check_kind(&rt, spaces, line.as_slice(), want);
    }
    let blank = vec![in rt.alloc(); b' '; 3_000_000]?;
    check_kind(&rt, blank.len(), blank.as_slice(), "LineTooLong");
    Ok(())
}

#[test]
fn lines_around_the_longest_that_is_read_in_one_pass(rt: HostRuntime) -> Result<(), Fail> {
    for spaces in [4_068, 4_069, 4_070] {
        let line = spaced(rt.alloc(), spaces)?;
        check_kind(&rt, spaces, line.as_slice(), "advance");
    }
    Ok(())
}

/// What a load has: the lengths of its lists, the numbers of the last entry of each, and its values.
#[derive(Clone, Copy)]
struct Load {
    counts: [usize; 3],
    node: [u64; 3],
    link: [u64; 6],
    turn: [u64; 4],
    values: [u64; 5],
}

/// The numbers of a node.
fn node_numbers(node: &NodeSpec) -> [u64; 3] {
    [node.id, node.residence, node.capacity]
}

/// The numbers of a link.
fn link_numbers(link: &LinkSpec) -> [u64; 6] {
    [
        link.id,
        link.from,
        link.to,
        link.lanes,
        link.length,
        link.limit,
    ]
}

/// The numbers of a turn.
fn turn_numbers(turn: &TurnSpec) -> [u64; 4] {
    [turn.link, turn.lane, turn.next, turn.next_lane]
}

/// What a load has, where none of its lists is empty.
fn seen(net: &NetSpec) -> Option<Load> {
    let (nodes, links, turns) = (
        net.nodes.as_slice(),
        net.links.as_slice(),
        net.turns.as_slice(),
    );
    Some(Load {
        counts: [nodes.len(), links.len(), turns.len()],
        node: node_numbers(nodes.last()?),
        link: link_numbers(links.last()?),
        turn: turn_numbers(turns.last()?),
        values: [net.zone, net.dawdle, net.change, net.seed, net.start],
    })
}

/// What the load of a line has.
fn load_of(alloc: Global, line: &[u8]) -> Option<Load> {
    match read_command(alloc, line) {
        Ok(Command::Load(net)) => seen(&net),
        _ => None,
    }
}

#[test]
fn reads_the_fields_of_a_load(rt: HostRuntime) {
    let line =
        b"{\"cmd\":\"load\",\"nodes\":[[1,2,3],[4,5,6]],\"links\":[[10,1,4,2,7,5]],\"turns\":[[10,1,10,0]],\"zone\":8,\"dawdle\":9,\"change\":11,\"seed\":18446744073709551615,\"start\":12}";
    let Some(load) = load_of(rt.alloc(), line) else {
        panic!(&rt; "no load")
    };
    assert!(rt; load.counts == [2, 1, 1]);
    assert!(rt; load.node == [4, 5, 6]);
    assert!(rt; load.link == [10, 1, 4, 2, 7, 5]);
    assert!(rt; load.turn == [10, 1, 10, 0]);
    assert!(rt; load.values == [8, 9, 11, u64::MAX, 12]);
}

/// The links of a plan of two.
fn two_links(plan: &[u64]) -> Option<[u64; 2]> {
    match plan {
        [first, second] => Some([*first, *second]),
        _ => None,
    }
}

/// The links of the plan of an entry, its lane, its departure and its size.
fn enter_of(read: Result<Command, LineFault>) -> Option<([u64; 2], u64, u64, u64)> {
    match read {
        Ok(
            Command::Enter {
                plan,
                lane,
                depart,
                size,
            },
        ) => Some((two_links(plan.as_slice())?, lane, depart, size)),
        _ => None,
    }
}

#[test]
fn reads_the_fields_of_an_enter(rt: HostRuntime) {
    let line = b"{\"cmd\":\"enter\",\"depart\":3,\"plan\":[20,10],\"lane\":1}";
    assert!(rt; enter_of(read_command(rt.alloc(), line)) == Some(([20, 10], 1, 3, 1)));
    assert!(rt; enter_of(read_next(rt.alloc(), line)) == Some(([20, 10], 1, 3, 1)));
}

#[test]
fn reads_the_size_of_an_enter(rt: HostRuntime) {
    let line = b"{\"cmd\":\"enter\",\"depart\":3,\"plan\":[20,10],\"lane\":1,\"size\":3}";
    assert!(rt; enter_of(read_command(rt.alloc(), line)) == Some(([20, 10], 1, 3, 3)));
    assert!(rt; enter_of(read_next(rt.alloc(), line)) == Some(([20, 10], 1, 3, 3)));
}

/// Sizes as they may be written, and those that are read: whether a vehicle may have one is tested by the machine.
static SIZES: [(&str, Option<u64>); 11] = [
    ("1", Some(1)),
    ("4", Some(4)),
    ("0", Some(0)),
    ("5", Some(5)),
    ("18446744073709551615", Some(18446744073709551615)),
    ("18446744073709551616", None),
    ("-1", None),
    ("1.5", None),
    (r#""x""#, None),
    ("null", None),
    ("[1]", None),
];

/// The size of the entry that a line reads as; nothing where it is a bad command.
fn size_of(rt: &impl Abort, read: Result<Command, LineFault>) -> Option<u64> {
    match read {
        Ok(Command::Enter { size, .. }) => Some(size),
        read => {
            assert!(rt; matches!(read, Err(LineFault::BadCommand)));
            None
        }
    }
}

#[test]
fn sizes_are_digits_alone(rt: HostRuntime) -> Result<(), Fail> {
    for (size, want) in SIZES.iter() {
        let line = format!(in rt.alloc();
            "{{\"cmd\":\"enter\",\"depart\":0,\"lane\":0,\"plan\":[10],\"size\":{size}}}"
        )?;
        let read = read_command(rt.alloc(), line.as_bytes());
        assert!(rt; size_of(&rt, read) == *want, "size {size}");
        let read = read_next(rt.alloc(), line.as_bytes());
        assert!(rt; size_of(&rt, read) == *want, "size {size}, as a next line");
    }
    Ok(())
}

/// The numbers of a command, up to four of them, in the order of its fields.
fn numbers(command: &Command) -> Option<[u64; 4]> {
    match command {
        Command::CloseLane {
            link,
            lane,
            first,
            last,
        } => Some([*link, *lane, *first, *last]),
        Command::ReopenLane {
            link,
            lane,
            first,
            last,
        } => Some([*link, *lane, *first, *last]),
        Command::PlaceMeter {
            link,
            lane,
            cell,
            period,
        } => Some([*link, *lane, *cell, *period]),
        Command::Lane { link, lane } => Some([*link, *lane, 0, 0]),
        _ => None,
    }
}

/// The name of the command of a line, and its numbers.
fn numbers_of(read: Result<Command, LineFault>) -> Option<(&'static str, [u64; 4])> {
    match read {
        Ok(command) => Some((name(&command), numbers(&command)?)),
        Err(_) => None,
    }
}

/// Lines of these commands, what they are, and their numbers.
static LINES_WITH_NUMBERS: [(&[u8], &str, [u64; 4]); 4] = [
    (
        br#"{"cmd":"close","link":10,"lane":1,"first":3,"last":7}"#,
        "close",
        [10, 1, 3, 7],
    ),
    (
        br#"{"cmd":"reopen","link":10,"lane":1,"first":3,"last":7}"#,
        "reopen",
        [10, 1, 3, 7],
    ),
    (
        br#"{"cmd":"meter","link":10,"lane":1,"cell":4,"period":60}"#,
        "meter",
        [10, 1, 4, 60],
    ),
    (
        br#"{"cmd":"lane","link":10,"lane":1}"#,
        "lane",
        [10, 1, 0, 0],
    ),
];

#[test]
fn reads_the_numbers_of_each_other_command(rt: HostRuntime) {
    for (line, name, numbers) in &LINES_WITH_NUMBERS {
        let want = Some((*name, *numbers));
        assert!(rt;
            numbers_of(read_command(rt.alloc(), line)) == want,
            "at {name}"
        );
        assert!(rt;
            numbers_of(read_next(rt.alloc(), line)) == want,
            "at {name}, as a next line"
        );
    }
}

/// The node and the offset of a signal of two phases, their durations, how many greens they have, and the last green of the
/// first.
type TwoPhases = ((u64, u64), (u64, u64), (usize, usize), GreenSpec);

/// The durations of two phases, how many greens they have, and the last green of the first.
fn two_phases(phases: &[PhaseSpec]) -> Option<((u64, u64), (usize, usize), GreenSpec)> {
    let [first, second] = phases else {
        return None;
    };
    let (greens, rest) = (first.greens.as_slice(), second.greens.as_slice());
    let durations = (first.duration, second.duration);
    Some((durations, (greens.len(), rest.len()), *greens.last()?))
}

/// The signal of a line.
fn signal_of(alloc: Global, line: &[u8]) -> Option<TwoPhases> {
    match read_command(alloc, line) {
        Ok(
            Command::Signal {
                node,
                offset,
                phases,
            },
        ) => {
            let (durations, counts, green) = two_phases(phases.as_slice())?;
            Some(((node, offset), durations, counts, green))
        }
        _ => None,
    }
}

#[test]
fn reads_the_phases_of_a_signal(rt: HostRuntime) {
    let line =
        b"{\"cmd\":\"signal\",\"node\":2,\"offset\":6,\"phases\":[[8,[[10,0,20],[11,1,21]]],[2,[]]]}";
    let Some((names, durations, counts, green)) = signal_of(rt.alloc(), line) else {
        panic!(&rt; "no signal of two phases")
    };
    assert!(rt; names == (2, 6) && durations == (8, 2) && counts == (2, 0));
    assert!(rt; green.link == 11 && green.lane == 1 && green.next == 21);
}

/// Lines with names and fields right or wrong, and what they are.
static NAMED_LINES: [(&[u8], &str); 16] = [
    (br#"{"cmd":"takeout","car":1}"#, "takeout"),
    (br#"{"cmd":"read","meter":0}"#, "read"),
    (br#"{"cmd":"count"}"#, "count"),
    (br#"{"cmd":"count","x":[1]}"#, "count"),
    (br#"{"cmd":"takeout","meter":1}"#, "BadCommand"),
    (br#"{"cmd":"take_out","car":1}"#, "BadCommand"),
    (br#"{"cmd":"read","car":0}"#, "BadCommand"),
    (br#"{"cmd":"lane","lane":0}"#, "BadCommand"),
    (
        br#"{"cmd":"close","link":10,"lane":0,"first":1}"#,
        "BadCommand",
    ),
    (
        br#"{"cmd":"meter","link":10,"lane":0,"cell":1,"period":-1}"#,
        "BadCommand",
    ),
    (
        br#"{"cmd":"signal","node":2,"offset":0,"phases":[]}"#,
        "signal",
    ),
    (
        br#"{"cmd":"signal","node":2,"offset":0,"phases":[[10]]}"#,
        "BadCommand",
    ),
    (
        br#"{"cmd":"signal","node":2,"offset":0,"phases":[[10,[],0]]}"#,
        "BadCommand",
    ),
    (
        br#"{"cmd":"signal","node":2,"offset":0,"phases":[10,[]]}"#,
        "BadCommand",
    ),
    (
        br#"{"cmd":"signal","node":2,"offset":0,"phases":[[10,[[1,0]]]]}"#,
        "BadCommand",
    ),
    (
        br#"{"cmd":"signal","node":2,"offset":0,"phases":[[10,[[1,0,2,0]]]]}"#,
        "BadCommand",
    ),
];

#[test]
fn each_command_has_its_name_and_all_its_fields(rt: HostRuntime) {
    for (at, (line, want)) in NAMED_LINES.iter().enumerate() {
        check_kind(&rt, at, line, want);
    }
}

/// How a load may end, and what it then is.
static LOAD_ENDS: [(&str, &str); 10] = [
    (r#""seed":0"#, "load"),
    (r#""seed":0,"start":7"#, "load"),
    (r#""seed":0,"start":null"#, "BadCommand"),
    (r#""seed":0,"start":-1"#, "BadCommand"),
    (r#""start":7"#, "BadCommand"),
    (r#""seed":0,"nodes":[[1,1]]"#, "BadCommand"),
    (r#""seed":0,"nodes":[[1,1,2,2]]"#, "BadCommand"),
    (r#""seed":0,"links":[[10,1,1,1,10]]"#, "BadCommand"),
    (r#""seed":0,"turns":[[10,0,10,0,0]]"#, "BadCommand"),
    (r#""seed":0,"turns":[10]"#, "BadCommand"),
];

#[test]
fn start_may_be_absent_but_no_other_field(rt: HostRuntime) -> Result<(), Fail> {
    for (at, (rest, want)) in LOAD_ENDS.iter().enumerate() {
        let line = format!(in rt.alloc();
            "{{\"cmd\":\"load\",\"nodes\":[[1,1,2]],\"links\":[],\"turns\":[],\"zone\":0,\"dawdle\":0,\"change\":0,{rest}}}"
        )?;
        check_kind(&rt, at, line.as_bytes(), want);
    }
    Ok(())
}

/// The start of the load of a line.
fn start_of(alloc: Global, line: &[u8]) -> Option<u64> {
    match read_command(alloc, line) {
        Ok(Command::Load(net)) => Some(net.start),
        _ => None,
    }
}

#[test]
fn a_load_without_a_start_starts_at_0(rt: HostRuntime) {
    let line =
        b"{\"cmd\":\"load\",\"nodes\":[],\"links\":[],\"turns\":[],\"zone\":0,\"dawdle\":0,\"change\":0,\"seed\":0}";
    assert!(rt; start_of(rt.alloc(), line) == Some(0));
}

#[test]
fn faults_have_numbers_and_names(rt: HostRuntime) {
    for (fault, number, name) in [
        (LineFault::LineTooLong, Some(22), "LineTooLong"),
        (LineFault::NotJson, Some(20), "NotJson"),
        (LineFault::BadCommand, Some(21), "BadCommand"),
        (LineFault::Starved, None, "Starved"),
    ] {
        assert!(rt;
            fault.number() == number && fault.name() == name,
            "at {name}"
        );
    }
}
