//! Texts whose output and counts are known beforehand.

use std::alloc::{AllocError, Global};
use street_line::{FaultKind, Tally};

/// A text, how it is read, and how the run over an engine with nothing loaded ends where nothing fails.
pub(super) struct Case {
    pub(super) name: &'static str,
    /// How many bytes `x` stand before the text.
    pub(super) before: usize,
    pub(super) text: &'static [u8],
    pub(super) is_endless: bool,
    /// The most commands that are served.
    pub(super) places: u128,
    /// The most reads of the run.
    pub(super) most_reads: u32,
    /// The most bytes of a read.
    pub(super) piece: usize,
    /// The reads of the run.
    pub(super) reads: usize,
    pub(super) output: &'static [u8],
    /// How many writers fail in turn, each after so many bytes more.
    pub(super) writers: usize,
    pub(super) step: usize,
    pub(super) kind: Option<FaultKind>,
    pub(super) tally: Tally,
}

/// A vehicle goes over one link, and is told of after it arrived.
pub(super) const ARRIVES: &[u8] =
    br#"{"cmd":"load","nodes":[[1,1,2],[2,1,2],[3,1,2]],"links":[[10,1,2,1,10,5],[20,2,3,1,10,5]],"turns":[[10,0,20,0]],"zone":0,"dawdle":0,"change":0,"seed":0}
{"cmd":"enter","plan":[10],"lane":0,"depart":0}
{"cmd":"advance","steps":5}
{"cmd":"vehicle","car":0}
"#;

pub(super) const ARRIVES_OUTPUT: &[u8] = br#"{"links":2,"nodes":3,"turns":1}
{"car":0}
{"clock":5}
{"car":0,"state":"arrived","step":4}
"#;

/// What stands behind a line of a byte too much: lines that do not read, and two that do.
const FAULTY: &[u8] =
    b"\n\xff\n[]\n{\"cmd\":\"advance\",\"steps\":-1}\n{\"cmd\":\"count\",\"x\":[1]}\n{\"cmd\":\"count\"}";

const FAULTY_OUTPUT: &[u8] = br#"{"error":22,"name":"LineTooLong"}
{"error":20,"name":"NotJson"}
{"error":21,"name":"BadCommand"}
{"error":21,"name":"BadCommand"}
{"error":1,"name":"NotLoaded"}
{"error":1,"name":"NotLoaded"}
"#;

const COUNTS: &[u8] = br#"{"cmd":"count"}
{"cmd":"count"}
{"cmd":"count"}
"#;

const COUNTS_OUTPUT: &[u8] = br#"{"error":1,"name":"NotLoaded"}
{"error":1,"name":"NotLoaded"}
"#;

const ONE_PLACE: &[u8] = b"{\"cmd\":\"count\"}\n{\"cmd\":\"count\"}\n";

const ONE_PLACE_OUTPUT: &[u8] = br#"{"error":1,"name":"NotLoaded"}
{"error":23,"name":"Full"}
"#;

impl Case {
    /// The whole text.
    pub(super) fn whole_text(&self, alloc: Global) -> Result<Vec<u8>, AllocError> {
        let mut text = vec![in alloc; b'x'; self.before]?;
        text.extend_from_slice(self.text)?;
        Ok(text)
    }
}

pub(super) static CASES: [Case; 6] = [
    Case {
        name: "a vehicle arrives, read byte by byte",
        before: 0,
        text: ARRIVES,
        is_endless: false,
        places: 100,
        most_reads: 1_000_000_000,
        piece: 1,
        reads: 256,
        output: ARRIVES_OUTPUT,
        writers: 91,
        step: 1,
        kind: None,
        tally: Tally {
            lines: 4,
            calls: 4,
            replies: 4,
            bytes: 91,
        },
    },
    Case {
        name: "a vehicle arrives, read in parts",
        before: 0,
        text: ARRIVES,
        is_endless: false,
        places: 100,
        most_reads: 1_000_000_000,
        piece: 60,
        reads: 6,
        output: ARRIVES_OUTPUT,
        writers: 91,
        step: 1,
        kind: None,
        tally: Tally {
            lines: 4,
            calls: 4,
            replies: 4,
            bytes: 91,
        },
    },
    Case {
        name: "faulty lines",
        before: 1_048_577,
        text: FAULTY,
        is_endless: false,
        places: 100,
        most_reads: 1_000_000_000,
        piece: 4096,
        reads: 258,
        output: FAULTY_OUTPUT,
        writers: 192,
        step: 1,
        kind: None,
        tally: Tally {
            lines: 6,
            calls: 2,
            replies: 6,
            bytes: 192,
        },
    },
    Case {
        name: "a place for one call",
        before: 0,
        text: ONE_PLACE,
        is_endless: false,
        places: 1,
        most_reads: 1_000_000_000,
        piece: 1,
        reads: 33,
        output: ONE_PLACE_OUTPUT,
        writers: 58,
        step: 1,
        kind: None,
        tally: Tally {
            lines: 2,
            calls: 2,
            replies: 2,
            bytes: 58,
        },
    },
    Case {
        name: "lines without end",
        before: 0,
        text: COUNTS,
        is_endless: true,
        places: 100,
        most_reads: 40,
        piece: 1,
        reads: 40,
        output: COUNTS_OUTPUT,
        writers: 62,
        step: 1,
        kind: Some(FaultKind::Endless),
        tally: Tally {
            lines: 2,
            calls: 2,
            replies: 2,
            bytes: 62,
        },
    },
    Case {
        name: "no reads",
        before: 0,
        text: COUNTS,
        is_endless: true,
        places: 100,
        most_reads: 0,
        piece: 1,
        reads: 0,
        output: b"",
        writers: 0,
        step: 1,
        kind: Some(FaultKind::Endless),
        tally: Tally {
            lines: 0,
            calls: 0,
            replies: 0,
            bytes: 0,
        },
    },
];
