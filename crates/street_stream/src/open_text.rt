//! A text whose lines are handled a part at a time, as its bytes come: `street_line` handles kept sessions so, and
//! lines that are done again. `whole_lines` finds where the last whole line of some bytes ends. `cut_off_text` is a law
//! that only proofs call: of a text that is cut off, the ended lines are the first of the whole text's.
ghost use Rattle.std.specs.Prelude.{◌≡◌, ◌+◌, ◌<◌, ◌≤◌, ◌^◌, ◌++◌, List, ℕ, [], IfOk, IfErr, IfSome, IsNone, length, take};
ghost use Rattle.street_stream.specs.Faults.{IsCausedByLine};
ghost use Rattle.street_stream.specs.Lines.{cut, if_any};
ghost use Rattle.street_stream.specs.OpenTexts.{HaltsAtEnd, HaltsIn, HandlesTo, IsOpen};

use crate::answer::Halt;
use crate::counted::Counted;
use crate::driver::{Progress, feed, finish};
use crate::handler::LineHandler;
use crate::part::PartialLine;
use crate::tally::Tally;
use memchr::memrchr;
use std::alloc::Global;
use std::io::Write;

/// A text as far as it has come: of its last line, which has not ended, no more is kept than tells what it says.
#[derive(Drop)]
pub struct OpenText {
    progress: Progress,
}

/// Nothing was done.
const NOTHING: Tally = Tally {
    lines: 0,
    calls: 0,
    replies: 0,
    bytes: 0,
};

impl OpenText {
    /// A text of which nothing has come, whose lines may have `most` bytes, LF not counted. Takes no memory.
    pub fn new(alloc: Global, most: usize) -> OpenText
        ensures { IsOpen most result [] }
    {
        OpenText {
            progress: Progress {
                part: PartialLine::new(alloc, most),
                tally: NOTHING,
            },
        }
    }

    /// Takes up the next bytes of the text: each line that ends in them is handled and its reply written, with no flush, and what
    /// comes after the last LF is kept. The tally is that of the lines that end in these bytes.
    ///
    /// # Errors
    ///
    /// Those of `drive_lines` but of its reads and flushes. The text can not go on then.
    pub fn feed<H: LineHandler, W: Write>(
        &mut self,
        alloc: Global,
        handler: &mut H,
        writer: &mut Counted<W>,
        bytes: &[u8],
    ) -> Result<Tally, Halt<H::Stop>>
        requires ready { H.ready }
        requires few { length bytes.now < 2 ^ 62 }
        ensures handled { (line : List ℕ) → IsOpen H.meaning.longest self.old line → IfOk result (HandlesTo H.meaning W.contents
            handler.old writer.old (cut (line ++ bytes.now)).0 handler.new writer.new) }
        ensures open { (line : List ℕ) → IsOpen H.meaning.longest self.old line → IfOk result (λ tally.
            IsOpen H.meaning.longest self.new (cut (line ++ bytes.now)).1) }
        ensures halted { (line : List ℕ) → IsOpen H.meaning.longest self.old line → IfErr result (λ halt.
            HaltsIn H.meaning handler.old (line ++ bytes.now) handler.new halt.cause halt.tally) }
        ensures caused { IfErr result (λ halt. IsCausedByLine halt.cause writer.new) }
    {
        self.progress.tally = NOTHING;
        match feed(alloc, handler, writer, &mut self.progress, bytes) {
            Ok(()) => Ok(self.progress.tally),
            Err(cause) => Err(Halt {
                cause,
                tally: self.progress.tally,
            }),
        }
    }

    /// Handles the last line of the text, which has ended, where bytes stand behind its last LF. The tally is that of this line:
    /// all 0 where there is none.
    ///
    /// # Errors
    ///
    /// Those of [`feed`](Self::feed).
    pub fn finish<H: LineHandler, W: Write>(
        mut self,
        alloc: Global,
        handler: &mut H,
        writer: &mut Counted<W>,
    ) -> Result<Tally, Halt<H::Stop>>
        requires ready { H.ready }
        ensures handled { (line : List ℕ) → IsOpen H.meaning.longest self line → IfOk result (HandlesTo H.meaning W.contents
            handler.old writer.old (if_any line) handler.new writer.new) }
        ensures halted { (line : List ℕ) → IsOpen H.meaning.longest self line → IfErr result (λ halt.
            HaltsAtEnd H.meaning handler.old line handler.new halt.cause halt.tally) }
        ensures caused { IfErr result (λ halt. IsCausedByLine halt.cause writer.new) }
    {
        self.progress.tally = NOTHING;
        match finish(alloc, handler, writer, &mut self.progress) {
            Ok(()) => Ok(self.progress.tally),
            Err(cause) => Err(Halt {
                cause,
                tally: self.progress.tally,
            }),
        }
    }
}

/// How many of these bytes stand up to the last LF, it included; none where there is no LF.
pub fn whole_lines(bytes: &[u8]) -> Option<usize>
    ensures within { IfSome result (λ n. n ≤ length bytes.now) }
    ensures some { IfSome result (λ n. (seen : List ℕ) → n + length (cut (seen ++ bytes.now)).1 ≡ length bytes.now) }
    ensures none { IsNone result → (seen : List ℕ) → (cut (seen ++ bytes.now)).1 ≡ (cut seen).1 ++ bytes.now }
{
    match memrchr(b'\n', bytes) {
        Some(at) => Some(at + 1),
        None => None,
    }
}

/// A law, for proofs; the call does nothing. Of a text that is cut off after any byte the lines that have ended are the first of
/// the whole text's.
pub fn cut_off_text()
    ensures { (text : List ℕ) (n : ℕ) → (rest : List (List ℕ)) × ((cut text).0 ≡ (cut (take n text)).0 ++ rest) }
{}
