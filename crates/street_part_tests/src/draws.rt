//! Draws that other implementations of ChaCha20 gave.

use std::process::Abort;
use std::test::Fail;
use street_base::Starved;
use street_rule::{Dice, draw};

/// A seed, a vehicle and a place, and their draw.
type Known = (u64, u32, u32, u16);

const KNOWN: [Known; 17] = [
    (0, 0, 0, 679),
    (0, 0, 1, 563),
    (0, 0, 2, 896),
    (0, 0, 3, 159),
    (0, 0, 6, 800),
    (0, 0, 8, 485),
    (0, 0, 15, 524),
    (0, 0, 16, 745),
    (0, 0, 17, 477),
    (0, 1, 0, 839),
    (0, 1, 1, 982),
    (0, 999_999, 0, 38),
    (1, 0, 0, 484),
    (1, 0, 3, 520),
    (4_294_967_296, 0, 0, 709),
    (18_446_744_073_709_551_615, 999_999, 1_999_999_999, 327),
    (42, 7, 123_456, 61),
];

#[test]
fn draws_are_the_known_ones(rt: HostRuntime) {
    for known in KNOWN {
        let (seed, car, place, want) = known;
        assert!(rt; draw(seed, car, u64::from(place)) == want, "no {want}");
    }
}

/// What the dice answer at a place, where the draws are kept.
fn answer(dice: &mut Dice, at: usize, car: u32, place: u32) -> bool {
    if place % 2 == 0 {
        dice.may_change(at, place / 2, car)
    } else {
        dice.dawdles(at, place / 2, car)
    }
}

/// The dice answer so, wherever it is kept or put aside and however often it is asked.
fn check_answers(rt: &impl Abort, dice: &mut Dice, known: Known, wanted: bool) {
    let (_, car, place, want) = known;
    for at in [0, 1, 0, 2] {
        assert!(rt; answer(dice, at, car, place) == wanted, "no {want}");
        dice.put_aside(at);
    }
}

/// With odds at a known draw the answer is no.
fn check_at_draw(rt: &(impl Abort + AllocGlobal), known: Known) -> Result<(), Starved> {
    let (seed, _, _, want) = known;
    let mut dice = Dice::new(rt.alloc(), seed, want, want, 1)?;
    check_answers(rt, &mut dice, known, false);
    Ok(())
}

/// With odds just above a known draw the answer is yes.
fn check_above(rt: &(impl Abort + AllocGlobal), known: Known) -> Result<(), Starved> {
    let (seed, _, _, want) = known;
    let more = want.saturating_add(1);
    let mut dice = Dice::new(rt.alloc(), seed, more, more, 0)?;
    dice.reserve(2)?;
    check_answers(rt, &mut dice, known, true);
    Ok(())
}

#[test]
fn dice_answer_by_the_known_draws(rt: HostRuntime) -> Result<(), Fail> {
    for known in KNOWN {
        check_at_draw(&rt, known)?;
        check_above(&rt, known)?;
    }
    Ok(())
}

/// The dice answer so in a hundred steps.
fn check_sure(rt: &impl Abort, dice: &mut Dice, wanted: bool) {
    for step in 0..100u32 {
        let dawdles = dice.dawdles(0, step, 3);
        let may_change = dice.may_change(0, step, 3);
        assert!(rt; dawdles == wanted && may_change == wanted, "at {step}");
    }
}

/// Whom odds of 0 ask for never dawdles and never changes.
#[test]
fn odds_of_none(rt: HostRuntime) -> Result<(), Fail> {
    let mut dice = Dice::new(rt.alloc(), 7, 0, 0, 4)?;
    check_sure(&rt, &mut dice, false);
    Ok(())
}

/// Whom odds of 1,000 ask for always does both.
#[test]
fn odds_of_all(rt: HostRuntime) -> Result<(), Fail> {
    let mut dice = Dice::new(rt.alloc(), 7, 1000, 1000, 4)?;
    check_sure(&rt, &mut dice, true);
    Ok(())
}
