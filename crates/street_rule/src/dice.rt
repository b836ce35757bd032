//! The dice of a network, with what was drawn lately kept. Which word of a vehicle's stream is which draw stands in `draws.rt`.
//! Motion and lane changes ask it for each vehicle.

ghost use Rattle.std.specs.Prelude.{◌≡◌, ℕ, ◌+◌, ◌-◌, ◌*◌, ◌/◌, ◌%◌, ◌^◌, ◌<◌, ◌==◌, ◌++◌, nat_lt, replicate, IfOk, IsTrue, ◌↔◌};
ghost use Rattle.street_base.specs.Prelude.{key_of_seed, lane_draw, dawdle_draw};
ghost use Rattle.street_rule.specs.Prelude.{Odds, IsKept, Asked};

use crate::draws::generator;
use rand_chacha::ChaCha20Rng;
use rand_core::utils::NextWord;
use std::alloc::Global;
use std::marker::Model;
use std::simd::prelude::*;
use street_base::{CarNo, Starved, Step};

/// The draws of one vehicle in 32 steps, from `32 * block` on: two bits for each step, the first step's the lowest. The lower
/// one of a step says whether the vehicle may change lane, the other whether it dawdles; of odds that leave no choice (0, and
/// 1,000 or more) they tell nothing, and are not asked.
#[derive(Clone, Copy)]
struct KeptDraws {
    number: CarNo,
    block: u32,
    bits: u64,
}

/// The dice of a network: whether a vehicle dawdles, and whether it may change lane, each with its chance, of 1,000.
///
/// A contract sees the seed and the odds. What is kept is not seen: an answer is the same whatever is kept.
#[derive(Drop)]
pub struct Dice {
    rng: ChaCha20Rng,
    seed: u64,
    dawdle: u16,
    change: u16,
    // Whether these odds leave a choice to the draws, which is asked for each vehicle and step.
    dawdle_drawn: bool,
    change_drawn: bool,
    // Draws at the places that callers name, mostly by the key of the vehicle.
    kept: Vec<KeptDraws>,
    // Draws of vehicles that lost their place, by the number modulo the length.
    aside: Vec<KeptDraws>,
}

/// How many vehicles' draws are put aside at most.
const MOST_ASIDE: usize = 8_192;

impl Model for Dice {
    ghost use Rattle.street_rule.specs.Prelude.{Odds, IsSound};

    ghost Value = { Odds };

    ghost view = { λ d. record { seed = d.seed; dawdle = d.dawdle; change = d.change } };

    ghost invariant = { λ d. IsSound d.rng.key d.seed d.dawdle d.change d.dawdle_drawn d.change_drawn d.kept.items d.aside.items };
}

/// Whether some draws (0 to 999) are below the odds (of 1,000) and some are not.
fn leaves_choice(odds: u16) -> bool
    ensures { IsTrue result ↔ (0 < odds) × (odds < 1000) }
{
    0 < odds && odds < 1000
}

/// The greatest word of the cipher whose draw is below the odds (of 1,000), where these leave a choice; else some word, as the
/// bits are not asked then. To compare words with it spares the scaling of each to a draw.
fn last_of(odds: u16) -> u32
    ensures { 0 < odds → odds < 1000 → result ≡ (odds * 2 ^ 32 - 1) / 1000 }
{
    let odds = u64::from(odds.clamp(1, 999));
    ((odds * 4_294_967_296 - 1) / 1000) as u32
}

/// Whether the bit `at` is 1; the lowest is bit 0.
fn bit(bits: u64, at: u32) -> bool
    requires { at < 64 }
    ensures { result ≡ (bits / 2 ^ at % 2 == 1) }
{
    (bits >> at) % 2 == 1
}

/// Whether the draws that are kept are those of this vehicle in this block of 32 steps.
fn is_for(kept: KeptDraws, number: CarNo, block: u32) -> bool
    ensures { IsTrue result ↔ (kept.number ≡ number) × (kept.block ≡ block) }
{
    kept.number == number && kept.block == block
}

/// Asks for four words, and answers a bit for each, the first word's the lowest: whether the word is at most `lane` (the first and
/// the third) or `slow` (the others). `lane` and `slow` are the last words of the two odds. The four are compared at once.
#[inline(always)]
fn four(rng: &mut ChaCha20Rng, lane: u32, slow: u32) -> u64
    ensures bound { result < 16 }
    ensures asked { rng.old.word_pos + 4 < 2 ^ 68 → Asked 4 lane slow rng.old rng.new result }
{
    let first = rng.next_word();
    let second = rng.next_word();
    let third = rng.next_word();
    let fourth = rng.next_word();
    let words = u32x4::from_array([first, second, third, fourth]);
    words
        .simd_le(u32x4::from_array([lane, slow, lane, slow]))
        .to_bitmask()
}

/// As [`four`], of sixteen words: sixteen bits, the first word's the lowest.
#[inline(always)]
fn sixteen(rng: &mut ChaCha20Rng, lane: u32, slow: u32) -> u64
    ensures bound { result < 2 ^ 16 }
    ensures asked { rng.old.word_pos + 16 < 2 ^ 68 → Asked 16 lane slow rng.old rng.new result }
{
    let first = four(rng, lane, slow);
    let second = four(rng, lane, slow);
    let third = four(rng, lane, slow);
    let fourth = four(rng, lane, slow);
    first + second * 16 + third * 256 + fourth * 4_096
}

/// Draws for a vehicle in a block of 32 steps, by the odds of dawdling and of a lane change: 64 words, asked from a multiple of 64
/// on, are one call of the cipher. With no loop the compiler may know the place of each word, and then none asks whether that call
/// is due.
fn drawn(rng: &mut ChaCha20Rng, number: CarNo, block: u32, dawdle: u16, change: u16) -> KeptDraws
    ensures kept { IsKept rng.old.key dawdle change result }
    ensures number { result.number ≡ number }
    ensures block { result.block ≡ block }
    ensures key { rng.new.key ≡ rng.old.key }
{
    rng.set_word_pos(u128::from(block) * 64);
    rng.set_stream(u64::from(number));
    let lane = last_of(change);
    let slow = last_of(dawdle);
    let first = sixteen(rng, lane, slow);
    let second = sixteen(rng, lane, slow);
    let third = sixteen(rng, lane, slow);
    let fourth = sixteen(rng, lane, slow);
    let low = first + second * 65_536;
    let high = third + fourth * 65_536;
    KeptDraws {
        number,
        block,
        bits: low + high * 4_294_967_296,
    }
}

/// Adds copies of `first` until there are so many places. Where there are as many already, it adds none.
///
/// # Errors
///
/// `Starved` where memory was refused; what was added till then stays.
fn grow(kept: &mut Vec<KeptDraws>, first: KeptDraws, places: usize) -> Result<(), Starved>
    ensures { (n : ℕ) × (kept.new.items ≡ kept.old.items ++ replicate n first) }
{
    for _ in kept.len()..places {
        kept.push(first)?;
    }
    Ok(())
}

impl Dice {
    /// The dice of a network of this seed, dawdle and change (chances, of 1,000), with places to keep the draws of so many
    /// vehicles.
    ///
    /// # Errors
    ///
    /// `Starved` where memory was refused.
    pub fn new(
        alloc: Global,
        seed: u64,
        dawdle: u16,
        change: u16,
        places: usize,
    ) -> Result<Dice, Starved>
        ensures { IfOk result (λ dice. let odds : Odds = record { seed = seed; dawdle = dawdle; change = change } in dice ≡ odds) }
    {
        let mut rng = generator(seed);
        let first = drawn(&mut rng, 0, 0, dawdle, change);
        let kept = vec![in alloc; first; places]?;
        let aside = vec![in alloc; first; places.min(MOST_ASIDE)]?;
        Ok(Dice {
            rng,
            seed,
            dawdle,
            change,
            dawdle_drawn: leaves_choice(dawdle),
            change_drawn: leaves_choice(change),
            kept,
            aside,
        })
    }

    /// Draws to fill new places with: those kept at the first place, which need no cipher, or else those of vehicle 0.
    fn some_draws(&mut self) -> KeptDraws
        ensures kept { IsKept (key_of_seed self.old.seed) self.old.dawdle self.old.change result }
        ensures same { self.new ≡ self.old }
    {
        if let Some(first) = self.kept.first() {
            return *first;
        }
        drawn(&mut self.rng, 0, 0, self.dawdle, self.change)
    }

    /// Makes room to keep the draws of so many vehicles, and never gives room back. Every answer stays what it was, also where
    /// memory is refused.
    ///
    /// # Errors
    ///
    /// `Starved` where memory was refused.
    pub fn reserve(&mut self, places: usize) -> Result<(), Starved>
        ensures { self.new ≡ self.old }
    {
        if places <= self.kept.len() {
            return Ok(());
        }
        let first = self.some_draws();
        grow(&mut self.aside, first, places.min(MOST_ASIDE))?;
        grow(&mut self.kept, first, places)
    }

    /// The draws kept at the place `at` are put aside, as their vehicle gives up that place: where it is asked for at another
    /// place, they are found again, unless others were put over them. Without such a place nothing is done. Takes no memory.
    pub fn put_aside(&mut self, at: usize)
        ensures { self.new ≡ self.old }
    {
        let count = self.aside.len();
        if at < self.kept.len() && count > 0 {
            let kept = self.kept[at];
            self.aside[kept.number as usize % count] = kept;
        }
    }

    /// The draws kept at one place are kept at another too, to which their vehicle has gone. Without one of the places nothing
    /// is done. Takes no memory.
    pub fn follow(&mut self, from: usize, to: usize)
        ensures { self.new ≡ self.old }
    {
        let count = self.kept.len();
        if from < count && to < count {
            self.kept[to] = self.kept[from];
        }
    }

    /// The draws of a vehicle in the 32 steps from `32 * block` on: those that were put aside, or else drawn now. It stands apart
    /// from the walk of a lane, which calls it mostly once a vehicle in 32 steps, and needs the registers for itself.
    #[cold]
    #[inline(never)]
    fn aside_or_drawn(&mut self, number: CarNo, block: u32) -> KeptDraws
        ensures kept { IsKept (key_of_seed self.old.seed) self.old.dawdle self.old.change result }
        ensures number { result.number ≡ number }
        ensures block { result.block ≡ block }
        ensures same { self.new ≡ self.old }
    {
        let count = self.aside.len();
        if count > 0 {
            let kept = self.aside[number as usize % count];
            if is_for(kept, number, block) {
                return kept;
            }
        }
        drawn(&mut self.rng, number, block, self.dawdle, self.change)
    }

    /// The draws of a vehicle in the step's block of 32 steps: those kept at the place `at` if they are of this vehicle and block,
    /// else those put aside or drawn now. They are kept at `at` from now on, where there is such a place.
    fn look(&mut self, at: usize, step: Step, number: CarNo) -> KeptDraws
        ensures kept { IsKept (key_of_seed self.old.seed) self.old.dawdle self.old.change result }
        ensures number { result.number ≡ number }
        ensures block { result.block ≡ step / 32 }
        ensures same { self.new ≡ self.old }
    {
        let block = step / 32;
        if at < self.kept.len() {
            let kept = self.kept[at];
            if is_for(kept, number, block) {
                return kept;
            }
        }
        let kept = self.aside_or_drawn(number, block);
        if at < self.kept.len() {
            self.kept[at] = kept;
        }
        kept
    }

    /// Whether the vehicle dawdles in the step. Its draws are kept at the place `at`, where there is such a place: any
    /// number that is seldom another vehicle's serves, as its key or its number. Takes no memory.
    pub fn dawdles(&mut self, at: usize, step: Step, number: CarNo) -> bool
        ensures value { result ≡ nat_lt (dawdle_draw self.old.seed number step) self.old.dawdle }
        ensures same { self.new ≡ self.old }
    {
        if !self.dawdle_drawn {
            return self.dawdle > 0;
        }
        let kept = self.look(at, step, number);
        bit(kept.bits, 2 * (step % 32) + 1)
    }

    /// Whether the draw of a step lets the vehicle change lane. Its draws are kept at the place `at`, as those of
    /// [`Dice::dawdles`] are. Takes no memory.
    pub fn may_change(&mut self, at: usize, step: Step, number: CarNo) -> bool
        ensures value { result ≡ nat_lt (lane_draw self.old.seed number step) self.old.change }
        ensures same { self.new ≡ self.old }
    {
        if !self.change_drawn {
            return self.change > 0;
        }
        let kept = self.look(at, step, number);
        bit(kept.bits, 2 * (step % 32))
    }
}
