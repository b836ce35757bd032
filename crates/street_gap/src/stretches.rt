//! The closed cells of a lane that has some, as a list of stretches that is searched by halving. `low` and `high` are positions
//! in the list. `closures.rt` alone calls it.
ghost use Rattle.std.specs.Prelude.{◌≡◌, ◌↔◌, ℕ, ◌+◌, ◌-◌, ◌<◌, ◌≤◌, not, ◌&&◌, ◌||◌, true, false};
ghost use Rattle.std.specs.Prelude.{IsTrue, [], ◌∷◌, ◌++◌, length, take, drop, count_by, OnOk, OnErr};
ghost use Rattle.street_gap.specs.Prelude.{is_between, is_in, IsRising, IsWithin, closed_marks, entrance_after, closed_count};
ghost use Rattle.street_gap.specs.Inside.{IsCut};

use crate::closures::Stretch;
use std::alloc::Global;
use std::marker::Model;
use street_base::{CellNo, Starved};

/// Closed stretches, each as long as possible, in rising order.
#[derive(Drop)]
pub(crate) struct Stretches {
    stretches: Vec<Stretch>,
}

impl Model for Stretches {
    ghost use Rattle.std.specs.Prelude.{List};
    ghost use Rattle.street_gap.specs.declared.closures.Stretch.{Stretch as Closed};
    ghost use Rattle.street_gap.specs.Prelude.{IsRising};

    ghost Value = { List Closed };

    ghost view = { λ c. c.stretches.items };

    ghost invariant = { λ c. IsRising c.stretches.items };
}

/// How many of the stretches end below the cell: the position of the first that does not.
fn ending_below(stretches: &[Stretch], cell: CellNo) -> usize
    requires { IsRising stretches.now }
    ensures { IsCut (λ s. s.last < cell) (λ s. cell ≤ s.last) stretches.now result }
{
    stretches.partition_point(|stretch| stretch.last < cell)
}

/// How many of the stretches begin at the cell or below it: the position of the first that begins above it. It stands apart from
/// the walks, as few lanes have closed cells.
#[cold]
#[inline(never)]
fn beginning_by(stretches: &[Stretch], cell: CellNo) -> usize
    requires { IsRising stretches.now }
    ensures { IsCut (λ s. s.first ≤ cell) (λ s. cell < s.first) stretches.now result }
{
    stretches.partition_point(|stretch| stretch.first <= cell)
}

/// How many of the stretches begin at most one cell above this one. The others are apart from a stretch that ends in this cell:
/// an open cell lies between.
fn beginning_beside(stretches: &[Stretch], cell: CellNo) -> usize
    requires { IsRising stretches.now }
    ensures { IsCut (λ s. s.first - 1 ≤ cell) (λ s. cell < s.first - 1) stretches.now result }
{
    stretches.partition_point(|stretch| stretch.first.saturating_sub(1) <= cell)
}

/// Takes out the stretches at the positions from `low` up to, but not including, `high`; those behind them move up.
fn remove_from(stretches: &mut Vec<Stretch>, low: usize, high: usize)
    requires ordered { low ≤ high }
    requires inside { high ≤ length stretches.old.items }
    ensures { stretches.new.items ≡ take low stretches.old.items ++ drop high stretches.old.items }
{
    stretches.drain(low..high);
}

/// Writes a stretch in place of those at the positions from `low` up to, but not including, `high`, which are one or more.
fn replace(stretches: &mut Vec<Stretch>, low: usize, high: usize, stretch: Stretch)
    requires some { low < high }
    requires inside { high ≤ length stretches.old.items }
    ensures { stretches.new.items ≡ take low stretches.old.items ++ stretch ∷ drop high stretches.old.items }
{
    stretches[low] = stretch;
    remove_from(stretches, low + 1, high);
}

/// Writes two stretches in place of those at the positions from `low` up to, but not including, `high`, which are one or more.
///
/// # Errors
/// Out of memory, and nothing changed. It is asked for only where the two take the place of one.
fn replace_by_two(
    stretches: &mut Vec<Stretch>,
    low: usize,
    high: usize,
    left: Stretch,
    right: Stretch,
) -> Result<(), Starved>
    requires some { low < high }
    requires inside { high ≤ length stretches.old.items }
    ensures ok { OnOk result (stretches.new.items ≡ take low stretches.old.items ++ left ∷ right ∷ drop high stretches.old.items) }
    ensures err { OnErr result ((stretches.new.items ≡ stretches.old.items) × (high ≡ low + 1)) }
{
    if high - low == 1 {
        stretches.insert(low, left)?;
        stretches[high] = right;
    } else {
        stretches[low] = left;
        replace(stretches, low + 1, high, right);
    }
    Ok(())
}

/// How many cells lie on the stretches together.
fn cells_on(stretches: &[Stretch]) -> u64
    requires { IsRising stretches.now }
    ensures { result ≡ closed_count stretches.now }
{
    let mut cells = 0;
    for stretch in stretches {
        cells += u64::from(stretch.last - stretch.first) + 1;
    }
    cells
}

impl Stretches {
    /// No stretches: no cell is closed. `alloc` is for those that come later.
    pub(crate) fn new(alloc: Global) -> Stretches
        ensures { result ≡ [] }
    {
        Stretches {
            stretches: Vec::new(alloc),
        }
    }

    /// Whether there are no stretches: no cell is closed.
    pub(crate) fn is_empty(&self) -> bool
        ensures { IsTrue result ↔ (self.now ≡ []) }
    {
        self.stretches.is_empty()
    }

    /// The closed stretches, each as long as possible, in rising order.
    pub(crate) fn stretches(&self) -> &[Stretch]
        ensures all { result.now ≡ self.now }
        ensures longest { IsRising self.now }
    {
        self.stretches.as_slice()
    }

    /// How many cells are closed.
    pub(crate) fn count_closed(&self) -> u64
        ensures { (count : ℕ) → IsWithin self.now count → result ≡ count_by (λ closed. closed) (closed_marks self.now count) }
    {
        cells_on(&self.stretches)
    }

    /// Whether the cell is closed.
    pub(crate) fn is_closed(&self, cell: CellNo) -> bool
        ensures { result ≡ is_in self.now cell }
    {
        let at = ending_below(&self.stretches, cell);
        at < self.stretches.len() && self.stretches[at].first <= cell
    }

    /// The least entrance above the cell: the first cell of a closed stretch. None where no stretch begins above the cell.
    pub(crate) fn entrance_after(&self, cell: CellNo) -> Option<CellNo>
        ensures { (count : ℕ) → IsWithin self.now count → result ≡ entrance_after (closed_marks self.now count) cell }
    {
        let at = beginning_by(&self.stretches, cell);
        if at < self.stretches.len() {
            Some(self.stretches[at].first)
        } else {
            None
        }
    }

    /// Closes the cells from `first` to `last`, both included; cells that are closed stay so.
    ///
    /// # Errors
    /// Out of memory, and nothing changed. It is asked for only where neither these cells nor the two beside them are
    /// closed.
    pub(crate) fn close(&mut self, first: CellNo, last: CellNo) -> Result<(), Starved>
        requires { first ≤ last }
        ensures ok { OnOk result ((x : ℕ) → is_in self.new x ≡ (is_in self.old x || is_between first last x)) }
        ensures err { OnErr result (self.new ≡ self.old) }
        ensures apart { OnErr result ((x : ℕ) → first ≤ x + 1 → x ≤ last + 1 → is_in self.old x ≡ false) }
    {
        let low = ending_below(&self.stretches, first.saturating_sub(1));
        let high = beginning_beside(&self.stretches, last);
        if high <= low {
            self.stretches.insert(low, Stretch { first, last })?;
            return Ok(());
        }
        let lowest = self.stretches[low].first;
        let highest = self.stretches[high - 1].last;
        let joined = Stretch {
            first: first.min(lowest),
            last: last.max(highest),
        };
        replace(&mut self.stretches, low, high, joined);
        Ok(())
    }

    /// Opens the cells from `first` to `last`, both included; cells that are open stay so.
    ///
    /// # Errors
    /// Out of memory, and nothing changed. It is asked for only where these cells and the two beside them are closed,
    /// so that a stretch is split.
    pub(crate) fn reopen(&mut self, first: CellNo, last: CellNo) -> Result<(), Starved>
        requires { first ≤ last }
        ensures ok { OnOk result ((x : ℕ) → is_in self.new x ≡ (is_in self.old x && not (is_between first last x))) }
        ensures err { OnErr result (self.new ≡ self.old) }
        ensures within { OnErr result ((x : ℕ) → first ≤ x + 1 → x ≤ last + 1 → is_in self.old x ≡ true) }
    {
        let low = ending_below(&self.stretches, first);
        let high = beginning_by(&self.stretches, last);
        if high <= low {
            return Ok(());
        }
        let lowest = self.stretches[low].first;
        let highest = self.stretches[high - 1].last;
        match (lowest < first, last < highest) {
            (false, false) => remove_from(&mut self.stretches, low, high),
            (true, false) => {
                let left = Stretch {
                    first: lowest,
                    last: first - 1,
                };
                replace(&mut self.stretches, low, high, left);
            }
            (false, true) => {
                let right = Stretch {
                    first: last + 1,
                    last: highest,
                };
                replace(&mut self.stretches, low, high, right);
            }
            (true, true) => {
                let left = Stretch {
                    first: lowest,
                    last: first - 1,
                };
                let right = Stretch {
                    first: last + 1,
                    last: highest,
                };
                replace_by_two(&mut self.stretches, low, high, left, right)?;
            }
        }
        Ok(())
    }
}
