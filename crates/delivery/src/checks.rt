// The checks of a table's entries, in their order.
ghost use Rattle.std.specs.Prelude.{◌≡◌, ◌<◌, None};
ghost use Rattle.std.specs.Option.{option_map};
ghost use Rattle.promise.specs.First.{first_below};
ghost use Rattle.delivery.specs.Opened.{unless_refused};
ghost use Rattle.delivery.specs.Opening.{bad_entry, shares_earlier};

use crate::contents::Table;
use crate::taken::Taken;
use crate::{DeliveryRefusal, Kind};

impl Table<'_> {
    /// Refuses the first entry that has another kind, or a body not wholly after the table and inside the delivery.
    pub(crate) fn check_entries(&self) -> Result<(), DeliveryRefusal>
        ensures { result ≡ unless_refused tt (option_map DeliveryRefusal.BadEntry (first_below (bad_entry self.now.bytes.now) self.now.count)) }
    {
        match (0..self.count).find(|&number| self.is_bad(number)) {
            Some(entry) => Err(DeliveryRefusal::BadEntry(entry)),
            None => Ok(()),
        }
    }

    /// Refuses the first entry whose body shares a byte with an earlier one.
    #[tactic(auto, using(crate::proofs::Refused::body_fits, promise::proofs::Firsts::first_ends, crate::proofs::Sharing::none_marked))]
    pub(crate) fn check_sharing(&self) -> Result<(), DeliveryRefusal>
        requires { first_below (bad_entry self.now.bytes.now) self.now.count ≡ None }
        ensures { result ≡ unless_refused tt (option_map DeliveryRefusal.SharedByte (first_below (shares_earlier self.now.bytes.now) self.now.count)) }
    {
        let mut taken = Taken::none();
        for number in 0..self.count {
            let span = self.line(number).span();
            if !taken.take(span) {
                return Err(DeliveryRefusal::SharedByte(number));
            }
        }
        Ok(())
    }

    fn is_bad(&self, number: usize) -> bool
        requires { number < self.now.count }
        ensures { result ≡ bad_entry self.now.bytes.now number }
    {
        let line = self.line(number);
        let body = line.span();
        Kind::try_from(line.kind).is_err()
            || body.first().at < self.end()
            || self.bytes.len() < body.end().at
    }
}
