// Opening a delivery, and what an opened one gives.
ghost use Rattle.std.specs.Prelude.{◌≡◌, None};
ghost use Rattle.delivery.specs.Opening.{refusal_of};

use crate::contents::Table;
use crate::{DeliveryRefusal, Entries, Entry, Kind};

/// A part of the delivery, with its place.
#[derive(Clone, Copy, Debug, PartialEq, Eq)]
pub struct Body<'a> {
    pub bytes: &'a [u8],
    pub place: usize,
}

/// An opened delivery: no reason to refuse it applies.
#[derive(Clone, Copy, Debug)]
pub struct Delivery<'a> {
    table: Table<'a>,
    ghost opened: { refusal_of table.bytes.now ≡ None },
}

impl<'a> Delivery<'a> {
    ghost use Rattle.std.specs.Prelude.{◌≤◌, length, IfOk, OnOk};
    ghost use Rattle.std.specs.Option.{option_map};
    ghost use Rattle.std.specs.Result.{result_err, result_map_both};
    ghost use Rattle.delivery.specs.Opened.{opening, contents, GivesAll, entry_at, entries_from, entries_left, body_at, body_part};
    ghost use Rattle.delivery.specs.Opening.{most_entries};
    ghost use Rattle.delivery.specs.Rules.{RefusedRightly, BodiesApart};

    /// Checks the table of contents, and refuses with the first reason that applies.
    #[tactic(auto, using(crate::proofs::Refused::gives_all, crate::proofs::Refused::bodies_apart))]
    pub fn open(bytes: &'a [u8]) -> Result<Delivery<'a>, DeliveryRefusal>
        ensures value { result_map_both contents (λ e. e) result ≡ opening bytes.now }
        ensures rightly { RefusedRightly bytes.now (result_err result) }
        ensures given { IfOk result (λ d. GivesAll (contents d)) }
        ensures apart { OnOk result (BodiesApart bytes.now) }
    {
        let table = Table::find(bytes)?;
        table.check_entries()?;
        table.check_sharing()?;
        Ok(Delivery { table })
    }

    /// How many entries the table lists.
    pub fn entry_count(&self) -> usize
        ensures { result ≡ (contents self.now).count }
    {
        self.table.count
    }

    /// An entry by its number, from 0.
    pub fn entry(&self, number: usize) -> Option<Entry>
        ensures { result ≡ entry_at (contents self.now) number }
    {
        if number >= self.table.count {
            return None;
        }
        let line = self.table.line(number);
        Some(Entry {
            kind: Kind::try_from(line.kind).ok()?,
            place: line.place,
            length: line.length,
        })
    }

    /// The entries that the table lists, in order.
    #[tactic(auto, using(crate::proofs::Listed::few_entries))]
    pub fn entries(&self) -> Entries<'a>
        ensures all { entries_left result ≡ entries_from (contents self.now) 0 }
        ensures few { length (entries_left result) ≤ most_entries }
    {
        Entries {
            delivery: *self,
            numbers: 0..self.table.count,
        }
    }

    /// The body of an entry, as a part of the delivery.
    #[tactic(auto, using(crate::proofs::Refused::inside))]
    pub fn body(&self, number: usize) -> Option<Body<'a>>
        ensures { option_map body_part result ≡ body_at (contents self.now) number }
    {
        if number >= self.table.count {
            return None;
        }
        let line = self.table.line(number);
        let place = usize::from(line.place);
        Some(Body {
            bytes: &self.table.bytes[place..place + usize::from(line.length)],
            place,
        })
    }
}
