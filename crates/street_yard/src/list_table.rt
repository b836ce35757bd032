//! The first and the last key of each list, how many keys it has, how many are on all lists of a kind together, and which lane
//! is the next with somebody on its list of a kind. A lane has three lists with three numbers in a row: its cells, its buffer,
//! and those who wait. So the remainder of a list's number by 3 tells of which kind it is. `yard.rt` keeps one.
ghost use Rattle.std.specs.Prelude.{◌≡◌, ◌^◌, ◌<◌, ◌≤◌, ◌/◌, length, map, replicate, IfOk, slice_index_or, slice_set};

use crate::filled::FilledLists;
use crate::hot::Neighbour;
use crate::names::ListKind;
use std::alloc::{AllocError, Global};
use std::marker::Model;

/// The first and the last key of a list, nobody where it is empty, and how many keys it has.
#[derive(Clone, Copy)]
pub(crate) struct ListRow {
    pub(crate) front: Neighbour,
    pub(crate) back: Neighbour,
    pub(crate) count: u32,
}

/// What is kept of a list beside its first key.
#[derive(Clone, Copy)]
struct BackAndCount {
    back: Neighbour,
    count: u32,
}

/// The rows of all lists by number, in two tables: the first keys, for which a step asks many lists, lie close together. The
/// totals, and which lists have keys, stand beside them.
#[derive(Drop)]
pub(crate) struct ListTable {
    fronts: Vec<Neighbour>,
    rests: Vec<BackAndCount>,
    // How many keys are on the lists whose number leaves this remainder by 3.
    totals: [u64; 3],
    filled: FilledLists,
}

impl Model for ListTable {
    ghost use Rattle.std.specs.Prelude.{List};
    ghost use Rattle.street_yard.specs.declared.list_table.ListRow.{ListRow as Row};

    ghost Value = { List Row };

    ghost use Rattle.street_yard.specs.Prelude.{joined, AreListed};

    ghost view = { λ l. joined l.fronts.items l.rests.items };

    ghost invariant = { λ l. AreListed l.fronts.items l.rests.items l.totals l.filled };
}

impl ListTable {
    ghost use Rattle.street_yard.specs.Prelude.{no_row, thirds, class_of, HasNoKeys, IsFirstBut};

    /// The table of so many lists, none of which has a key.
    ///
    /// # Errors
    /// Memory was refused.
    pub(crate) fn new(alloc: Global, lists: usize) -> Result<Self, AllocError>
        requires { lists < 2 ^ 32 }
        ensures { IfOk result (λ l. l ≡ replicate lists no_row) }
    {
        let nobody = BackAndCount {
            back: Neighbour::nobody(),
            count: 0,
        };
        let fronts = vec![in alloc; Neighbour::nobody(); lists]?;
        let rests = vec![in alloc; nobody; lists]?;
        let filled = FilledLists::new(alloc, lists)?;
        Ok(ListTable {
            fronts,
            rests,
            totals: [0; 3],
            filled,
        })
    }

    /// The first key of a list, by its number; nobody where it is empty.
    #[inline]
    pub(crate) fn front(&self, list: usize) -> Neighbour
        requires { list < length self.now }
        ensures { result ≡ (slice_index_or self.now list no_row).front }
    {
        self.fronts[list]
    }

    /// The last key of a list, by its number; nobody where it is empty.
    #[inline]
    pub(crate) fn back(&self, list: usize) -> Neighbour
        requires { list < length self.now }
        ensures { result ≡ (slice_index_or self.now list no_row).back }
    {
        self.rests[list].back
    }

    /// How many keys a list has, by its number.
    #[inline]
    pub(crate) fn count(&self, list: usize) -> u32
        requires { list < length self.now }
        ensures { result ≡ (slice_index_or self.now list no_row).count }
    {
        self.rests[list].count
    }

    /// The first lane, from `lane` on, whose list of this kind has a key; the count of lanes where none has.
    #[inline]
    pub(crate) fn next_filled(&self, kind: ListKind, lane: usize) -> usize
        requires { lane ≤ length self.now / 3 }
        ensures { IsFirstBut (HasNoKeys self.now (class_of kind)) lane (length self.now / 3) result }
    {
        match self.filled.next(kind, lane) {
            Some(next) => next,
            None => self.rests.len() / 3,
        }
    }

    /// How many keys are on lists 0, 3, 6 .. together, on lists 1, 4, 7 .., and on lists 2, 5, 8 ..
    pub(crate) fn totals(&self) -> [u64; 3]
        ensures { result ≡ thirds (map (λ e. e.count) self.now) }
    {
        self.totals
    }

    /// The row of a list, by its number: its first key, its last key and its count.
    #[inline]
    pub(crate) fn get(&self, list: usize) -> ListRow
        requires { list < length self.now }
        ensures { result ≡ slice_index_or self.now list result }
    {
        let rest = self.rests[list];
        ListRow {
            front: self.fronts[list],
            back: rest.back,
            count: rest.count,
        }
    }

    /// Writes the row of a list, by its number; the totals follow its count, and so does whether it has keys.
    #[inline]
    pub(crate) fn set(&mut self, list: usize, row: ListRow)
        requires { list < length self.old }
        ensures { self.new ≡ slice_set self.old list row }
    {
        let class = list % 3;
        let before = self.rests[list].count;
        let others = self.totals[class] - u64::from(before);
        self.totals[class] = others + u64::from(row.count);
        self.filled.recount(list, before, row.count);
        self.fronts[list] = row.front;
        self.rests[list] = BackAndCount {
            back: row.back,
            count: row.count,
        };
    }
}
