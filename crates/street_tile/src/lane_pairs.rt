//! Which of a tile's lanes begin a link of two lanes, so that lane changes pass over the links of one lane. `cut.rt` makes the
//! table at a load, and `change.rt` goes by it.
ghost use Rattle.std.specs.Prelude.{ℕ, ◌<◌, ◌≤◌, length, IfOk};
ghost use Rattle.street_tile.specs.Prelude.{BeginsNoPair, AreNextPairs};

use std::alloc::{AllocError, Global};
use street_base::Place;

/// The first of these lanes, from the one at `from` on, behind which the other lane of its link stands; their count where there
/// is none.
fn pair_from(own: &[Place], from: usize) -> usize
    requires { from ≤ length own.now }
    ensures not_before { from ≤ result }
    ensures within { result ≤ length own.now }
    ensures passed { (k : ℕ) → from ≤ k → k < result → BeginsNoPair own.now k }
{
    for n in from..own.len() {
        if n + 1 < own.len() && own[n + 1].lane != 0 {
            return n;
        }
    }
    own.len()
}

/// For each of these lanes the next one behind it that begins a link of two lanes; their count where none does.
///
/// # Errors
/// Memory was refused.
pub(crate) fn next_pairs(alloc: Global, own: &[Place]) -> Result<Vec<usize>, AllocError>
    ensures { IfOk result (λ pairs. AreNextPairs own.now pairs.items) }
{
    let mut pairs = Vec::with_capacity(alloc, own.len())?;
    let mut next = 0;
    for n in 0..own.len() {
        if next <= n {
            next = pair_from(own, n + 1);
        }
        pairs.push(next)?;
    }
    Ok(pairs)
}
