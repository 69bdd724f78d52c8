// The entries of a table of contents.
ghost use Rattle.std.specs.Prelude.{◌≡◌, Some};
ghost use Rattle.delivery.specs.Texts.{entry_text};

use crate::{Delivery, Kind};
use std::fmt;
use std::ops::Range;

/// A line of the table: what the body describes, and where it lies.
#[derive(Clone, Copy, Debug, PartialEq, Eq)]
pub struct Entry {
    pub kind: Kind,
    pub place: u16,
    pub length: u16,
}

impl fmt::Display for Entry {
    ghost output = { λ entry. Some (entry_text entry) };

    fn fmt<W: fmt::Write>(&self, f: &mut fmt::Formatter<W>) -> fmt::Result {
        write!(f, "{} at {}, {} bytes", self.kind, self.place, self.length)
    }
}

/// Gives the entries of a delivery, in the order of their numbers.
#[derive(Debug, Drop)]
pub struct Entries<'a> {
    pub(crate) delivery: Delivery<'a>,
    pub(crate) numbers: Range<usize>,
    ghost ends: { numbers.end ≡ delivery.table.count },
}

impl Iterator for Entries<'_> {
    ghost use Rattle.std.specs.Iterator.{YieldsFirst, item_count};
    ghost use Rattle.delivery.specs.Opened.{entries_left};

    type Item = Entry;

    ghost next_gives = { YieldsFirst entries_left };

    ghost remaining = { item_count entries_left };

    #[tactic(auto, using(crate::proofs::Listed::one_left, crate::proofs::Listed::some_left))]
    fn next(&mut self) -> Option<Entry> {
        self.delivery.entry(self.numbers.next()?)
    }
}
