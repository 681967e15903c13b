//! An index of a deep stack: how many entries each span has, and where the oldest may stand.
ghost use Rattle.std.specs.HashMap.{get};
ghost use Rattle.std.specs.Prelude.{◌≡◌, ◌+◌, ◌∷◌, ℕ, List, [], IfOk, IfSome, OnSome, nat_eq, not};
ghost use Rattle.std.specs.Bool.{OnTrue};
ghost use Rattle.span_core.specs.Span.{number_of};
ghost use Rattle.span_store.specs.LaneStack.{leave, leaves_for_good, stands};
ghost use Rattle.span_store.specs.private.Index.{Counts, Indexes, counted, times};

use span_core::Id;
use std::alloc::{AllocError, Global};
use std::collections::HashMap;

/// An index of fewer entries is let go. It is made of twice as many, so not made anew each time.
const SHALLOW: usize = 40;

/// What is kept of a span.
#[derive(Clone, Copy)]
pub(crate) struct Posting {
    /// How many entries it has.
    count: usize,
    /// The serial of the oldest one.
    serial: u64,
}

/// How many entries each span of a stack has. An entry gets the next serial as it is put in, and
/// keeps it, so they stay in order.
#[derive(Drop)]
pub(crate) struct Table {
    postings: HashMap<u64, Posting>,
    /// The serials of the entries, oldest first. They find places, at which callers look first: no
    /// answer rests on them.
    serials: Vec<u64>,
    next: u64,
}

impl Table {
    /// A table of no entry, with memory for so many.
    fn with_capacity(alloc: Global, count: usize) -> Result<Table, AllocError>
        ensures { IfOk result (λ t. Counts t []) }
    {
        let postings = HashMap::with_capacity(alloc, count)?;
        let serials = Vec::with_capacity(alloc, count)?;
        Ok(Table {
            postings,
            serials,
            next: 0,
        })
    }

    /// Puts an entry of a span in front. Answers whether the table still counts all.
    #[inline(never)]
    fn push(&mut self, id: Id, duplicate: bool) -> bool
        ensures { OnTrue result ((xs : List ℕ) → duplicate ≡ stands (number_of id) xs
            → Counts self.old xs → Counts self.new (number_of id ∷ xs)) }
    {
        let serial = self.next;
        let Some(posting) = self.next_posting(id, duplicate, serial) else {
            return false;
        };
        if self.serials.push(serial).is_err() {
            return false;
        }
        self.next = serial.wrapping_add(1);
        match self.postings.insert(id.into_u64(), posting) {
            Ok(_) => true,
            Err(_) => false,
        }
    }

    /// What is kept of a span that gets an entry more, of this serial.
    fn next_posting(&self, id: Id, duplicate: bool, serial: u64) -> Option<Posting>
        ensures { IfSome result (λ p. (xs : List ℕ) → duplicate ≡ stands (number_of id) xs
            → Counts self.now xs → p.count ≡ times (number_of id) xs + 1) }
    {
        if !duplicate {
            return Some(Posting { count: 1, serial });
        }
        let posting = self.postings.get(&id.into_u64())?;
        let count = posting.count.checked_add(1)?;
        Some(Posting {
            count,
            serial: posting.serial,
        })
    }

    /// Takes out the newest entry of a span, at this place. Answers whether the table still counts
    /// all, and there are enough for a table.
    #[inline(never)]
    fn pop(&mut self, id: Id, duplicate: bool, place: usize) -> bool
        ensures { OnTrue result ((xs : List ℕ) → not duplicate ≡ leaves_for_good (number_of id) xs
            → Counts self.old xs → Counts self.new (leave (number_of id) xs)) }
    {
        take_serial(&mut self.serials, place);
        if self.serials.len() < SHALLOW {
            return false;
        }
        let number = id.into_u64();
        if !duplicate {
            self.postings.remove(&number);
            return true;
        }
        let Some(posting) = self.postings.get(&number) else {
            return false;
        };
        let fewer = Posting {
            count: posting.count.saturating_sub(1),
            serial: posting.serial,
        };
        match self.postings.insert(number, fewer) {
            Ok(_) => true,
            Err(_) => false,
        }
    }

    /// Whether the span has an entry.
    #[inline(never)]
    fn has(&self, id: Id) -> bool
        ensures { (xs : List ℕ) → Counts self.now xs → result ≡ stands (number_of id) xs }
    {
        match self.postings.get(&id.into_u64()) {
            Some(posting) => posting.count > 0,
            None => false,
        }
    }

    /// Where the entry may stand of a span that has one alone.
    #[inline(never)]
    fn guess(&self, id: Id) -> Option<usize>
        ensures { OnSome result ((xs : List ℕ) → Counts self.now xs
            → times (number_of id) xs ≡ 1) }
    {
        let posting = self.postings.get(&id.into_u64())?;
        if posting.count != 1 {
            return None;
        }
        self.serials.binary_search(&posting.serial).ok()
    }
}

/// Takes the serial out that stands at this place.
fn take_serial(serials: &mut Vec<u64>, place: usize) {
    if place < serials.len() {
        serials.remove(place);
    }
}

/// A table of a stack's entries; or none, where the stack isn't deep, or for want of memory.
#[derive(Drop)]
pub(crate) struct Index {
    table: Option<Table>,
}

impl Index {
    /// No table.
    pub(crate) fn none() -> Index
        ensures { (xs : List ℕ) → Indexes result xs }
    {
        Index { table: None }
    }

    /// A table of no entry, with memory for so many, if there is that.
    pub(crate) fn with_capacity(alloc: Global, count: usize) -> Index
        ensures { Indexes result [] }
    {
        match Table::with_capacity(alloc, count) {
            Ok(table) => Index { table: Some(table) },
            Err(_) => Index { table: None },
        }
    }

    #[inline(always)]
    pub(crate) fn is_none(&self) -> bool {
        self.table.is_none()
    }

    /// Puts an entry of a span in front, which is a duplicate or isn't.
    #[inline(always)]
    pub(crate) fn add(&mut self, id: Id, duplicate: bool)
        ensures { (xs : List ℕ) → duplicate ≡ stands (number_of id) xs
            → Indexes self.old xs → Indexes self.new (number_of id ∷ xs) }
    {
        let Some(table) = &mut self.table else {
            return;
        };
        if !table.push(id, duplicate) {
            self.clear();
        }
    }

    /// Takes out the newest entry of a span, at this place, which is a duplicate or isn't.
    #[inline(always)]
    pub(crate) fn remove(&mut self, id: Id, duplicate: bool, place: usize)
        ensures { (xs : List ℕ) → not duplicate ≡ leaves_for_good (number_of id) xs
            → Indexes self.old xs → Indexes self.new (leave (number_of id) xs) }
    {
        let Some(table) = &mut self.table else {
            return;
        };
        if !table.pop(id, duplicate, place) {
            self.clear();
        }
    }

    /// Lets the table go.
    #[inline(never)]
    fn clear(&mut self)
        ensures { (xs : List ℕ) → Indexes self.new xs }
    {
        self.table = None;
    }

    /// Whether the span has an entry, if there is a table.
    pub(crate) fn holds(&self, id: Id) -> Option<bool>
        ensures { IfSome result (λ b. (xs : List ℕ) → Indexes self.now xs
            → b ≡ stands (number_of id) xs) }
    {
        match &self.table {
            Some(table) => Some(table.has(id)),
            None => None,
        }
    }

    /// Where the entry may stand of a span that has one alone, if there is a table.
    #[inline(always)]
    pub(crate) fn place(&self, id: Id) -> Option<usize>
        ensures { OnSome result ((xs : List ℕ) → Indexes self.now xs
            → times (number_of id) xs ≡ 1) }
    {
        match &self.table {
            Some(table) => table.guess(id),
            None => None,
        }
    }
}
