//! Whole runs over streams in memory. What is wanted was worked out by hand from the rules of lines and of motion.

mod cases;
mod faults;
mod runs;

use std::alloc::{AllocError, Global};
use std::process::Abort;
use std::test::Fail;
use street_base::{Command, Reply};
use street_line::{Counted, Served, Service, Tally, run_lines};

/// A service with a clock, which has no place for vehicles.
#[derive(Drop)]
struct Toy {
    clock: u64,
}

impl Service for Toy {
    ghost serves = { λ old command served new. Unit {0} };

    ghost ready = { Unit {0} };

    fn serve(&mut self, command: Command) -> Served {
        if let Command::Advance { steps } = command {
            self.clock = self.clock.saturating_add(steps);
            return Served::Answered(Reply::Clock { clock: self.clock });
        }
        Served::Full
    }
}

/// Lines that are blank, commands and none, among them one too long, and a last one with no line end.
fn text(alloc: Global) -> Result<Vec<u8>, AllocError> {
    let mut text = Vec::from_slice(alloc, b"{\"cmd\":\"advance\",\"steps\":5}\n \t\r\n")?;
    text.extend_from_slice(b"{\"cmd\":\"advance\",\"steps\":-1}\r\n\xff\n")?;
    text.extend_from_slice(vec![in alloc; b'x'; 1_048_577]?.as_slice())?;
    text.push(b'\n')?;
    text.extend_from_slice(vec![in alloc; b' '; 3_000_000]?.as_slice())?;
    text.extend_from_slice(
        b"\n\n{\"cmd\":\"vehicle\",\"car\":0}\n{\"cmd\":\"advance\",\"steps\":2}",
    )?;
    Ok(text)
}

/// The tally of a run over that service, what was written, and the clock then.
fn served(alloc: Global, text: &[u8]) -> (Option<Tally>, Vec<u8>, u64) {
    let mut reader = Counted::new(text);
    let mut writer = Counted::new(Vec::new(alloc));
    let mut toy = Toy { clock: 0 };
    let tally = run_lines(alloc, &mut toy, &mut reader, &mut writer).ok();
    (tally, writer.into_inner(), toy.clock)
}

#[test]
fn serves_a_text(rt: HostRuntime) -> Result<(), Fail> {
    let text = text(rt.alloc())?;
    let want =
        b"{\"clock\":5}\n{\"error\":21,\"name\":\"BadCommand\"}\n{\"error\":20,\"name\":\"NotJson\"}\n{\"error\":22,\"name\":\"LineTooLong\"}\n{\"error\":23,\"name\":\"Full\"}\n{\"clock\":7}\n";
    let (tally, written, clock) = served(rt.alloc(), text.as_slice());
    assert_eq!(rt; written.as_slice(), want.as_slice());
    assert_eq!(rt; clock, 7);
    assert_eq!(rt;
        tally,
        Some(Tally {
            lines: 9,
            calls: 3,
            replies: 6,
            bytes: want.len() as u128,
        })
    );
    Ok(())
}
