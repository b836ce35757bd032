//! Streams that count what they give and take, and bytes that go out in parts.

use std::alloc::Global;
use std::io;
use std::io::{Read, Write};
use std::process::Abort;
use std::test::Fail;
use street_base::Starved;
use street_stream::{Counted, FaultKind, PartialLine, Tally, flush_out, write_reply, write_text};

/// Takes bytes while there is room, three at most at a time, and then fails or takes none.
#[derive(Drop)]
struct SlowWriter {
    taken: Vec<u8>,
    room: usize,
    fails: bool,
}

impl Write for SlowWriter {
    fn write(&mut self, bytes: &[u8]) -> io::Result<usize> {
        for (count, byte) in bytes.iter().enumerate().take(3) {
            if self.taken.len() >= self.room {
                return match count {
                    0 if self.fails => Err(io::Error::from(io::ErrorKind::BrokenPipe)),
                    _ => Ok(count),
                };
            }
            self.taken.push(*byte)?;
        }
        Ok(bytes.len().min(3))
    }

    fn flush(&mut self) -> io::Result<()> {
        if self.fails {
            return Err(io::Error::from(io::ErrorKind::BrokenPipe));
        }
        Ok(())
    }
}

/// Room for bytes, and whether a full writer fails.
#[derive(Clone, Copy)]
struct Room {
    room: usize,
    fails: bool,
}

/// How many bytes were sent where not all were, how often the writer was called, how often it failed and how often it took
/// none.
#[derive(Clone, Copy, PartialEq, Eq)]
struct Sent {
    sent: Option<usize>,
    calls: u64,
    failures: u64,
    empty_writes: u64,
}

/// Seven bytes sent into this room, and what was taken.
fn sent_into(alloc: Global, room: Room) -> (Sent, Vec<u8>) {
    let mut writer = Counted::new(SlowWriter {
        taken: Vec::new(alloc),
        room: room.room,
        fails: room.fails,
    });
    let sent = write_text(&mut writer, b"{\"a\":1}").err();
    let told = Sent {
        sent,
        calls: writer.calls(),
        failures: writer.failures(),
        empty_writes: writer.empty_writes(),
    };
    (told, writer.into_inner().taken)
}

/// Those seven bytes go out so.
fn check_sent(
    rt: &(impl Abort + AllocGlobal),
    room: usize,
    fails: bool,
    calls: u64,
    failures: u64,
    empty_writes: u64,
) {
    let (told, taken) = sent_into(rt.alloc(), Room { room, fails });
    let want = Sent {
        sent: (room < 7).then_some(room),
        calls,
        failures,
        empty_writes,
    };
    let holds = told == want && b"{\"a\":1}".get(..room) == Some(taken.as_slice());
    assert!(rt; holds, "at {room}");
}

#[test]
fn replies_go_out_in_parts(rt: HostRuntime) {
    check_sent(&rt, 7, false, 3, 0, 0);
    check_sent(&rt, 6, true, 3, 1, 0);
    check_sent(&rt, 6, false, 3, 0, 1);
    check_sent(&rt, 4, true, 3, 1, 0);
    check_sent(&rt, 0, false, 1, 0, 1);
}

/// The counts of a tally.
fn counts(tally: &Tally) -> (u128, u128, u128, u128) {
    (tally.lines, tally.calls, tally.replies, tally.bytes)
}

/// Two replies to a writer that takes eight bytes.
fn write_two(rt: &impl Abort, writer: &mut Counted<SlowWriter>) {
    let mut tally = Tally {
        lines: 2,
        calls: 1,
        replies: 1,
        bytes: 5,
    };
    let first = write_reply(writer, b"{\"a\":1}", &mut tally);
    assert!(rt; first == Ok(()) && counts(&tally) == (2, 1, 2, 12));
    let second = write_reply(writer, b"{\"a\":1}", &mut tally);
    assert!(rt; second == Err(FaultKind::Write) && counts(&tally) == (2, 1, 2, 13));
}

#[test]
fn replies_are_counted(rt: HostRuntime) -> Result<(), Fail> {
    let mut writer = Counted::new(SlowWriter {
        taken: Vec::new(rt.alloc()),
        room: 8,
        fails: true,
    });
    write_two(&rt, &mut writer);
    assert!(rt; flush_out(&mut writer) == Err(FaultKind::Write));
    assert!(rt; writer.failures() == 2);
    Ok(())
}

/// How many bytes a read of at most two gave.
fn read_two(reader: &mut Counted<&[u8]>) -> Result<usize, &'static str> {
    let mut buffer = [0u8; 2];
    reader.read(&mut buffer).or(Err("a fault"))
}

#[test]
fn reads_are_counted(rt: HostRuntime) -> Result<(), Fail> {
    let mut reader = Counted::new(b"abc".as_slice());
    for count in [2, 1, 0] {
        assert!(rt; read_two(&mut reader)? == count);
    }
    assert!(rt; reader.calls() == 3);
    assert!(rt; reader.failures() == 0 && reader.empty_writes() == 0);
    Ok(())
}

/// Whether each read but the first came behind a flush, with one more behind this writer.
fn is_prompt_behind(reader: &mut Counted<&[u8]>, writer: &Counted<Vec<u8>>) -> bool {
    let mut buffer = [0u8; 2];
    reader.read_behind(writer, &mut buffer).is_ok() && reader.is_prompt()
}

#[test]
fn reads_behind_a_flush_are_told(rt: HostRuntime) -> Result<(), Fail> {
    let mut reader = Counted::new(b"abcdefgh".as_slice());
    let mut writer = Counted::new(Vec::new(rt.alloc()));
    assert!(rt; is_prompt_behind(&mut reader, &writer));
    assert!(rt; write_text(&mut writer, b"x") == Ok(()) && flush_out(&mut writer) == Ok(()));
    assert!(rt; is_prompt_behind(&mut reader, &writer));
    assert!(rt; write_text(&mut writer, b"y") == Ok(()));
    assert!(rt; !is_prompt_behind(&mut reader, &writer));
    assert!(rt; flush_out(&mut writer) == Ok(()));
    assert!(rt; !is_prompt_behind(&mut reader, &writer) && reader.calls() == 4);
    Ok(())
}

/// The bytes that are kept, and whether they are blank.
fn check_part(rt: &impl Abort, part: &PartialLine, bytes: &[u8], is_blank: bool) {
    assert!(rt; part.as_slice() == bytes && part.is_blank() == is_blank);
}

#[test]
fn one_byte_more_is_kept(rt: HostRuntime) -> Result<(), Fail> {
    let mut part = PartialLine::new(rt.alloc(), 3);
    part.extend(b" \t")?;
    part.extend(b"")?;
    part.extend(b"\r\r\r")?;
    check_part(&rt, &part, b" \t\r\r", true);
    part.extend(b"x")?;
    assert!(rt; !part.is_blank());
    part.clear();
    check_part(&rt, &part, b"", true);
    part.extend(b"  abc")?;
    check_part(&rt, &part, b"  ab", false);
    Ok(())
}
