//! A line as far as it was read. A line of spaces, tabs and CR alone is blank, however long it is. `driver.rt` gathers a line
//! in it.
ghost use Rattle.std.specs.Prelude.{◌≡◌, List, ℕ, [], ◌++◌, OnOk};
ghost use Rattle.std.specs.List.{list_all};
ghost use Rattle.street_stream.specs.Lines.{is_space, is_blank, kept, IsPart};

use std::alloc::Global;
use street_base::Starved;

/// Whether a byte is a space, a tab or a CR.
fn is_space(byte: u8) -> bool
    ensures { result ≡ is_space byte }
{
    byte == b' ' || byte == b'\t' || byte == b'\r'
}

/// The first bytes of a line, one more than a line may have, and whether all of it is blank.
#[derive(Drop)]
pub struct PartialLine {
    bytes: Vec<u8>,
    is_blank: bool,
    most: usize,
}

/// Whether these bytes are spaces, tabs and CR alone.
fn are_spaces(bytes: &[u8]) -> bool
    ensures { result ≡ list_all is_space bytes.now }
{
    bytes.iter().all(|byte| is_space(*byte))
}

/// Puts the next bytes of a line behind those that are held of it, up to `most` + 1 in all: enough to tell whether it has more than
/// `most`.
///
/// # Errors
///
/// `Starved` where there was no memory for them.
fn keep(held: &mut Vec<u8>, bytes: &[u8], most: usize) -> Result<(), Starved>
    ensures { (line : List ℕ) → held.old.items ≡ kept most line → OnOk result (held.new.items ≡ kept most (line ++ bytes.now)) }
{
    if held.len() > most {
        return Ok(());
    }
    let room = (most - held.len()).saturating_add(1);
    held.extend_from_slice(&bytes[..room.min(bytes.len())])?;
    Ok(())
}

impl PartialLine {
    /// Nothing of a line that may have `most` bytes, LF not counted. Takes no memory.
    pub fn new(alloc: Global, most: usize) -> PartialLine
        ensures { IsPart most result [] }
    {
        PartialLine {
            bytes: Vec::new(alloc),
            is_blank: true,
            most,
        }
    }

    /// Takes the next bytes of the line, none of which is LF. Those beyond the most that a line may have, and one more, are only
    /// looked at for whether the line is blank.
    ///
    /// # Errors
    ///
    /// `Starved` where there was no memory for them.
    pub fn extend(&mut self, bytes: &[u8]) -> Result<(), Starved>
        ensures { (most : ℕ) (line : List ℕ) → IsPart most self.old line → OnOk result (IsPart most self.new (line ++ bytes.now)) }
    {
        keep(&mut self.bytes, bytes, self.most)?;
        self.is_blank = self.is_blank && are_spaces(bytes);
        Ok(())
    }

    /// Begins the next line, of which nothing has come. The memory is kept for it.
    pub fn clear(&mut self)
        ensures { (most : ℕ) (line : List ℕ) → IsPart most self.old line → IsPart most self.new [] }
    {
        self.bytes.clear();
        self.is_blank = true;
    }

    /// What is kept of the line: its first bytes, one more than a line may have at most.
    pub fn as_slice(&self) -> &[u8]
        ensures { (most : ℕ) (line : List ℕ) → IsPart most self.now line → result.now ≡ kept most line }
    {
        self.bytes.as_slice()
    }

    /// Whether all of the line that has come, kept or not, is spaces, tabs and CR.
    pub fn is_blank(&self) -> bool
        ensures { (most : ℕ) (line : List ℕ) → IsPart most self.now line → result ≡ is_blank line }
    {
        self.is_blank
    }
}
