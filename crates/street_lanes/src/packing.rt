//! Vehicles in memory in the order in which they stand on the road. The last phase of a tile calls it in each eighth step.
ghost use Rattle.std.specs.Prelude.{◌≡◌, ◌*◌, ◌^◌, ◌<◌, ◌≤◌, length};
ghost use Rattle.street_lanes.specs.Prelude.{Packs};

use crate::lanes::Lanes;
use crate::lists::{buffer_list, cells_list};
use street_base::Step;
use street_rule::Dice;
use street_yard::{ListId, Yard};

/// The fewest who come to cells until keys are given anew.
const FEWEST: usize = 8_192;

/// The fewest in cells and buffers whom new keys serve. What walks read of fewer stays in the processor's cache in any order.
const CROWD: u64 = 4_096;

/// Keys are given anew in steps that are multiples of this, so that workers who share steps mostly do it in the same one. They wait
/// for the slowest of them in each step.
const TOGETHER: Step = 8;

/// The cars on a list, from the front, take the spare keys from position `from` among these on, and the draws kept for them follow;
/// where no more are spare they keep their keys. Answers `from` and how many cars are on the list, added.
fn pack_list(yard: &mut Yard, dice: &mut Dice, list: ListId, from: usize) -> usize
    requires { list.0 < length yard.old.lists }
    ensures packs { Packs yard.old yard.new }
    ensures dice { dice.new ≡ dice.old }
{
    let mut at = from;
    let mut cursor = yard.list_front(list);
    for _car in 0..yard.list_len(list) {
        let Some(key) = cursor else {
            return at;
        };
        let next = yard.renew(key, at);
        dice.follow(key.index(), next.index());
        at = at.saturating_add(1);
        cursor = yard.behind(next);
    }
    at
}

/// The cars in the cells and in the buffers of so many lanes take spare keys one after another; answers how many cars these are.
fn pack_lanes(yard: &mut Yard, dice: &mut Dice, lanes: usize) -> usize
    requires few { lanes < 2 ^ 32 }
    requires lists { 3 * lanes ≤ length yard.old.lists }
    ensures packs { Packs yard.old yard.new }
    ensures dice { dice.new ≡ dice.old }
{
    let mut at = 0;
    for lane in 0..lanes {
        at = pack_list(yard, dice, cells_list(lane), at);
        at = pack_list(yard, dice, buffer_list(lane), at);
    }
    at
}

impl Lanes {
    /// Gives the vehicles in cells and buffers keys in the order in which they stand: a walk along a lane is then one along memory.
    /// Does so in a step that is a multiple of 8, once at least 8,192 have come to cells since it did, and half as many as stood
    /// in cells and buffers then; never while fewer than 4,096 are there. Nothing else changes. Takes no memory.
    pub fn pack(&mut self, clock: Step)
        ensures { self.new ≡ self.old }
    {
        if clock % TOGETHER != 0 || self.come < FEWEST.max(self.packed / 2) {
            return;
        }
        let totals = self.yard.totals();
        if totals[0].saturating_add(totals[1]) < CROWD {
            return;
        }
        self.come = 0;
        self.yard.sort_spare();
        self.packed = pack_lanes(&mut self.yard, &mut self.dice, self.extents.len());
    }
}
