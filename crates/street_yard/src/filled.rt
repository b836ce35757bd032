//! Which lists have a key, a bit each, so that the next one that has is found without a look at each of them. The lists of one
//! kind of 64 lanes have a word together, and the words of the three kinds of these lanes lie side by side. `list_table.rt`
//! keeps one, and `street_tile` one for those who come to lanes.
ghost use Rattle.std.specs.Prelude.{◌≡◌, ◌^◌, ◌*◌, ◌<◌, ◌==◌, not, true, false, length, replicate, IfOk, slice_index_or, slice_set};

use crate::names::ListKind;
use std::alloc::{AllocError, Global};
use std::marker::Model;

/// Which lists have a key, by their numbers.
#[derive(Drop)]
pub struct FilledLists {
    // Three words for each 64 lanes, one of each kind.
    words: Vec<u64>,
}

impl Model for FilledLists {
    ghost use Rattle.std.specs.Prelude.{List, Bool};

    ghost Value = { List Bool };

    ghost use Rattle.street_yard.specs.Bits.{bits_of, AreWords};

    ghost view = { λ f. bits_of f.words.items };

    ghost invariant = { λ f. AreWords f.words.items };
}

impl FilledLists {
    ghost use Rattle.street_yard.specs.Kinds.{class_of};
    ghost use Rattle.street_yard.specs.Bits.{IsNextBit};

    /// No list has a key, of so many and some more.
    ///
    /// # Errors
    /// Memory was refused.
    pub fn new(alloc: Global, lists: usize) -> Result<Self, AllocError>
        requires { lists < 2 ^ 32 }
        ensures many { IfOk result (λ f. lists < length f) }
        ensures none { IfOk result (λ f. f ≡ replicate (length f) false) }
    {
        let words = vec![in alloc; 0u64; 3 * (lists / 192 + 1)]?;
        Ok(FilledLists { words })
    }

    /// Writes whether a list has a key, of which it had `before` and has `after`.
    #[inline]
    pub(crate) fn recount(&mut self, list: usize, before: u32, after: u32)
        requires within { list < length self.old }
        requires before { slice_index_or self.old list false ≡ not (before == 0) }
        ensures { self.new ≡ slice_set self.old list (not (after == 0)) }
    {
        if before == 0 {
            if after != 0 {
                self.add(list);
            }
        } else if after == 0 {
            self.remove(list);
        }
    }

    /// Writes that a list has a key.
    #[inline]
    pub fn add(&mut self, list: usize)
        requires { list < length self.old }
        ensures { self.new ≡ slice_set self.old list true }
    {
        let lane = list / 3;
        self.words[3 * (lane / 64) + list % 3] |= 1 << (lane % 64);
    }

    /// Writes that a list has no key.
    #[inline]
    pub fn remove(&mut self, list: usize)
        requires { list < length self.old }
        ensures { self.new ≡ slice_set self.old list false }
    {
        let lane = list / 3;
        self.words[3 * (lane / 64) + list % 3] &= !(1 << (lane % 64));
    }

    /// The first lane, from `lane` on, whose list of this kind has a key; none where none has.
    #[inline]
    pub fn next(&self, kind: ListKind, lane: usize) -> Option<usize>
        requires { 3 * lane < length self.now }
        ensures { IsNextBit self.now (class_of kind) lane result }
    {
        let group = lane / 64;
        let word = self.words[3 * group + kind.class()] & (u64::MAX << (lane % 64));
        if word != 0 {
            return Some(64 * group + word.trailing_zeros() as usize);
        }
        self.next_from(kind, group + 1)
    }

    /// The first lane, from `64 * group` on, whose list of this kind has a key; none where none has.
    fn next_from(&self, kind: ListKind, group: usize) -> Option<usize>
        ensures { IsNextBit self.now (class_of kind) (64 * group) result }
    {
        for at in group..self.words.len() / 3 {
            let word = self.words[3 * at + kind.class()];
            if word != 0 {
                return Some(64 * at + word.trailing_zeros() as usize);
            }
        }
        None
    }
}
