//! A session that is kept on a disk of the tests, which has room for so many bytes and fails at a call; and what goes on from each
//! byte at which a crash may have cut it off. What is wanted was worked out by hand.
ghost use Rattle.std.specs.Prelude.{◌≡◌, false, true};

use std::alloc::Global;
use std::cell::Cell;
use std::io;
use std::io::Read;
use std::process::Abort;
use std::test::Fail;
use street_base::{Command, Refusal, Reply};
use street_line::{
    BeginFault, Counted, KeptFault, KeptFile, KeptNotices, RedoFault, RedoneLines, ServeFault,
    Served, Service, redo_log, serve_on,
};
use street_stream::WriteAheadLog;

/// A service with a clock, which refuses all but advances.
#[derive(Drop)]
struct Toy {
    clock: u64,
}

impl Service for Toy {
    ghost serves = { λ old command served new. Unit {0} };

    ghost ready = { Unit {0} };

    fn serve(&mut self, command: Command) -> Served {
        if let Command::Advance { steps } = command {
            self.clock = self.clock.saturating_add(steps);
            return Served::Answered(Reply::Clock { clock: self.clock });
        }
        Served::Answered(Reply::Refused(Refusal::NotLoaded))
    }
}

/// A disk with room for so many bytes, which makes so many calls and then fails. A sync that fails forgets what it was to write:
/// reads still give it, and no later sync writes it.
#[derive(Drop)]
struct Disk {
    held: Vec<u8>,
    stays: Vec<u8>,
    forgotten: usize,
    room: usize,
    calls: usize,
    syncs: usize,
    has_failed: bool,
}

impl Disk {
    /// An empty disk.
    fn new(alloc: Global, room: usize, calls: usize) -> Disk
        ensures { result.has_failed ≡ false }
    {
        Disk {
            held: Vec::new(alloc),
            stays: Vec::new(alloc),
            forgotten: 0,
            room,
            calls,
            syncs: 0,
            has_failed: false,
        }
    }

    /// The disk for the next program, of which no call fails.
    fn mend(&mut self)
        ensures { self.new.has_failed ≡ false }
    {
        self.room = 1_000;
        self.calls = 99;
        self.has_failed = false;
    }

    /// A failure, which is noted.
    fn fail(&mut self) -> io::Error
        ensures { self.new.has_failed ≡ true }
    {
        self.has_failed = true;
        io::Error::from(io::ErrorKind::StorageFull)
    }

    /// Whether one call more is made.
    fn is_called(&mut self) -> bool
        ensures { self.new.has_failed ≡ self.old.has_failed }
    {
        if self.calls == 0 {
            return false;
        }
        self.calls -= 1;
        true
    }

    /// Writes what is to be written; where something before it was forgotten there are NULs.
    fn write_out(&mut self) -> io::Result<()>
        ensures { self.new.has_failed ≡ self.old.has_failed }
    {
        self.stays.resize(self.forgotten.max(self.stays.len()), 0)?;
        let behind = self.held.get(self.stays.len()..).unwrap_or(&[]);
        self.stays.extend_from_slice(behind)?;
        self.forgotten = 0;
        Ok(())
    }
}

impl WriteAheadLog for Disk {
    ghost use Rattle.std.specs.Prelude.{◌≡◌, None, true};

    ghost held = { λ disk. None };

    ghost synced = { λ disk. None };

    ghost has_failed = { λ disk. disk.has_failed ≡ true };

    fn append(&mut self, bytes: &[u8]) -> io::Result<usize> {
        let room = self.room.saturating_sub(self.held.len());
        let count = room.min(bytes.len());
        if !self.is_called() || count == 0 {
            return Err(self.fail());
        }
        match self.held.extend_from_slice(&bytes[..count]) {
            Ok(()) => Ok(count),
            Err(_) => Err(self.fail()),
        }
    }

    fn sync(&mut self) -> io::Result<()> {
        if !self.is_called() {
            self.forgotten = self.held.len();
            return Err(self.fail());
        }
        self.syncs = self.syncs.saturating_add(1);
        match self.write_out() {
            Ok(()) => Ok(()),
            Err(_) => Err(self.fail()),
        }
    }
}

impl KeptFile for Disk {
    ghost use Rattle.std.specs.Prelude.{⊤};

    ghost withdrawn = { λ disk. ⊤ };

    fn read_at(&self, at: u64, buffer: &mut [u8]) -> io::Result<usize> {
        let rest = self.held.get(index_of(at)..).unwrap_or(&[]);
        let count = rest.len().min(buffer.len());
        buffer[..count].copy_from_slice(&rest[..count]);
        Ok(count)
    }

    fn renew(&mut self, size: u64) -> io::Result<()> {
        if !self.is_called() {
            return Err(self.fail());
        }
        self.held.truncate(index_of(size));
        self.stays.clear();
        self.forgotten = 0;
        match self.write_out() {
            Ok(()) => Ok(()),
            Err(_) => Err(self.fail()),
        }
    }

    fn withdraw(&mut self) {
        if self.is_called() {
            self.held.truncate(self.stays.len());
        }
    }
}

/// A place in memory.
fn index_of(at: u64) -> usize {
    usize::try_from(at).unwrap_or(usize::MAX)
}

/// Notes how many lines were done again.
#[derive(Drop)]
struct Told {
    lines: Cell<u128>,
}

impl KeptNotices for Told {
    ghost use Rattle.std.specs.Prelude.{⊤};

    ghost noted = { λ told redo. ⊤ };

    fn note_redone(&self, redo: RedoneLines) {
        self.lines.set(redo.lines);
    }
}

/// Gives so many bytes at a time.
#[derive(Drop)]
struct Pieces<'a> {
    text: &'a [u8],
    size: usize,
}

impl<'a> Read for Pieces<'a> {
    ghost use Rattle.std.specs.Prelude.{None};

    ghost remaining = { λ pieces. None };

    fn read(&mut self, buffer: &mut [u8]) -> io::Result<usize> {
        let size = self.size.min(buffer.len());
        self.text.read(&mut buffer[..size])
    }
}

/// The lines of the session, the last with no line end.
const LINES: &[u8] =
    b"{\"cmd\":\"advance\",\"steps\":1}\n{\"cmd\":\"count\"}\n\n{\"cmd\":\"advance\",\"steps\":2}\nno command\n{\"cmd\":\"advance\",\"steps\":4}";

/// What is kept of it.
const KEPT: &[u8] =
    b"{\"cmd\":\"advance\",\"steps\":1}\n{\"cmd\":\"advance\",\"steps\":2}\n{\"cmd\":\"advance\",\"steps\":4}\n";

/// Its replies.
const REPLIES: &[u8] =
    b"{\"clock\":1}\n{\"error\":1,\"name\":\"NotLoaded\"}\n{\"clock\":3}\n{\"error\":20,\"name\":\"NotJson\"}\n{\"clock\":7}\n";

/// The clock after so many lines of what is kept.
fn clock_after(lines: u128) -> u64 {
    match lines {
        0 => 0,
        1 => 1,
        2 => 3,
        _ => 7,
    }
}

/// How many lines that were done, and may change the traffic, were answered by these replies.
fn changes_in(replies: &[u8]) -> u128 {
    let mut count = 0u128;
    for line in replies.split(|byte| *byte == b'\n') {
        if line.starts_with(b"{\"clock\":") && line.ends_with(b"}") {
            count = count.saturating_add(1);
        }
    }
    count
}

/// Goes on from this disk with the session, so many bytes a read: how it ended, and the replies.
fn served(
    alloc: Global,
    disk: &mut Disk,
    size: usize,
) -> (Result<RedoneLines, ServeFault>, u128, Vec<u8>)
    requires { disk.old.has_failed ≡ false }
{
    let mut toy = Toy { clock: 0 };
    let told = Told {
        lines: Cell::new(0),
    };
    let mut reader = Counted::new(Pieces { text: LINES, size });
    let mut writer = Counted::new(Vec::new(alloc));
    let run = serve_on(alloc, &mut toy, disk, &told, &mut reader, &mut writer);
    (run, told.lines.get(), writer.into_inner())
}

/// A session goes on from each byte at which a crash may have cut off the disk: all that was answered is there.
fn check_crashes(rt: &(impl Abort + AllocGlobal), disk: &Disk, replies: &[u8]) -> Result<(), Fail> {
    for cut in disk.stays.len()..disk.held.len().saturating_add(1) {
        let left = disk.held.get(..cut).unwrap_or(&[]);
        let mut toy = Toy { clock: 0 };
        let redo = redo_log(rt.alloc(), &mut toy, &mut Counted::new(left));
        let Ok(redo) = redo else {
            assert!(rt; false, "a text that was cut off is not done again");
            continue;
        };
        assert!(rt;
            redo.lines >= changes_in(replies),
            "what was answered is lost"
        );
        assert_eq!(rt; toy.clock, clock_after(redo.lines));
    }
    Ok(())
}

/// A second program on the disk goes on from at least what was answered, and what it answers is on the disk behind that.
fn check_next(
    rt: &(impl Abort + AllocGlobal),
    disk: &mut Disk,
    replies: &[u8],
) -> Result<(), Fail> {
    disk.mend();
    let (run, told, _replies) = served(rt.alloc(), disk, 4_096);
    assert!(rt;
        run.is_ok_and(|redo| redo.lines == told),
        "it did not go on"
    );
    assert!(rt; told >= changes_in(replies), "what was answered is lost");
    let mut toy = Toy { clock: 0 };
    let redo = redo_log(
        rt.alloc(),
        &mut toy,
        &mut Counted::new(disk.stays.as_slice()),
    );
    assert!(rt;
        redo.is_ok_and(|redo| redo.lines == told.saturating_add(3)),
        "a line is lost"
    );
    assert_eq!(rt; toy.clock, clock_after(told).saturating_add(7));
    Ok(())
}

/// The session on a disk with so much room that makes so many calls, and then a second one.
fn check_disk(
    rt: &(impl Abort + AllocGlobal),
    room: usize,
    calls: usize,
    size: usize,
) -> Result<(), Fail> {
    let mut disk = Disk::new(rt.alloc(), room, calls);
    let (run, _told, replies) = served(rt.alloc(), &mut disk, size);
    if disk.has_failed {
        assert!(rt;
            run == Err(ServeFault::Begin(BeginFault::Settle))
                || run == Err(ServeFault::Session(KeptFault::Log)),
            "another fault is told"
        );
        assert!(rt;
            REPLIES.starts_with(replies.as_slice()),
            "there are other replies"
        );
        assert!(rt;
            KEPT.starts_with(disk.held.as_slice()),
            "other lines are kept"
        );
    } else {
        assert!(rt;
            run == Ok(RedoneLines { lines: 0, bytes: 0 }),
            "it did not end"
        );
        assert_eq!(rt; replies.as_slice(), REPLIES);
        assert_eq!(rt; disk.stays.as_slice(), KEPT);
    }
    check_crashes(rt, &disk, replies.as_slice())?;
    check_next(rt, &mut disk, replies.as_slice())
}

#[test]
fn a_disk_fails_at_each_byte(rt: HostRuntime) -> Result<(), Fail> {
    for size in [1, 7, 4_096] {
        for room in 0..KEPT.len().saturating_add(1) {
            check_disk(&rt, room, 99, size)?;
        }
    }
    Ok(())
}

/// What is there is written anew, and each of three lines is appended and synced.
#[test]
fn a_disk_fails_at_each_call(rt: HostRuntime) -> Result<(), Fail> {
    for size in [1, 7, 4_096] {
        for calls in 0..8 {
            check_disk(&rt, 1_000, calls, size)?;
        }
    }
    Ok(())
}

/// One read of many lines is one sync, and a read of questions none.
#[test]
fn a_read_is_one_sync(rt: HostRuntime) -> Result<(), Fail> {
    let mut disk = Disk::new(rt.alloc(), 1_000, 99);
    let (run, _told, _replies) = served(rt.alloc(), &mut disk, 4_096);
    assert!(rt; run.is_ok(), "it did not end");
    // One for the read, and one for the last line, which has no line end.
    assert_eq!(rt; disk.syncs, 2);
    Ok(())
}

/// A session goes on behind the lines of each torn file, and behind NULs that a crash may leave in it; how many were done again is told.
#[test]
fn a_torn_file_goes_on(rt: HostRuntime) -> Result<(), Fail> {
    for cut in 0..KEPT.len().saturating_add(1) {
        for torn in [b"".as_slice(), b"\0", b"\0\0\n", b"\0\nno command\n"] {
            let mut disk = Disk::new(rt.alloc(), 1_000, 99);
            let left = KEPT.get(..cut).unwrap_or(&[]);
            disk.held.extend_from_slice(left)?;
            disk.held.extend_from_slice(torn)?;
            check_next(&rt, &mut disk, b"")?;
            let ended = left.iter().filter(|byte| **byte == b'\n').count();
            let lines = disk.held.iter().filter(|byte| **byte == b'\n').count();
            assert_eq!(rt; lines, ended.saturating_add(3));
        }
    }
    Ok(())
}

/// How a session goes on from a file that has this text, which stays where the session does not.
fn run_from(
    rt: &(impl Abort + AllocGlobal),
    text: &[u8],
) -> Result<Result<RedoneLines, ServeFault>, Fail> {
    let mut disk = Disk::new(rt.alloc(), 2_000_000, 99);
    disk.held.extend_from_slice(text)?;
    let (run, _told, _replies) = served(rt.alloc(), &mut disk, 4_096);
    if run.is_err() {
        assert_eq!(rt; disk.held.as_slice(), text);
    }
    Ok(run)
}

/// A file of no whole line is a session's where its first byte is a command's and it is no longer than a line.
#[test]
fn a_file_of_another_is_left(rt: HostRuntime) -> Result<(), Fail> {
    let none = RedoneLines { lines: 0, bytes: 0 };
    for text in [b"".as_slice(), b" \t\r", b"\0\0\0\n", b" {\"cmd\"", b"{"] {
        assert!(rt; run_from(&rt, text)? == Ok(none), "it is not cut off");
    }
    for text in [b"x".as_slice(), b" \t\r[", b"\xff\xfe{"] {
        assert!(rt;
            run_from(&rt, text)? == Err(ServeFault::Begin(BeginFault::Foreign)),
            "it is cut off"
        );
    }
    let mut long = Vec::new(rt.alloc());
    long.resize(1_048_576, b'{')?;
    assert!(rt;
        run_from(&rt, long.as_slice())? == Ok(none),
        "it is not cut off"
    );
    long.push(b'{')?;
    assert!(rt;
        run_from(&rt, long.as_slice())? == Err(ServeFault::Begin(BeginFault::Foreign)),
        "it is cut off"
    );
    Ok(())
}

/// How doing this text again ends.
fn stop(alloc: Global, text: &[u8]) -> Option<RedoFault> {
    let mut toy = Toy { clock: 0 };
    redo_log(alloc, &mut toy, &mut Counted::new(text)).err()
}

#[test]
fn bad_lines_are_told(rt: HostRuntime) -> Result<(), Fail> {
    let alloc = rt.alloc();
    assert_eq!(rt; stop(alloc, b""), None);
    assert_eq!(rt;
        stop(alloc, b"\n \t\n{\"cmd\":\"advance\",\"steps\":1}\nno comm"),
        None
    );
    assert_eq!(rt;
        stop(alloc, b"no command\n"),
        Some(RedoFault::BadLine { line: 1 })
    );
    assert_eq!(rt;
        stop(
            alloc,
            b"{\"cmd\":\"advance\",\"steps\":1}\n\n{\"cmd\":\"count\"}\n"
        ),
        Some(RedoFault::BadLine { line: 3 })
    );
    Ok(())
}
