// The numbers of one parity between two ends.
ghost use Rattle.std.specs.Prelude.{◌≡◌};
ghost use Rattle.std.specs.Result.{result_err, result_ok};
ghost use Rattle.promise.specs.Exactly.{Exactly};
ghost use Rattle.text.specs.AddressNumber.{read_number};
ghost use Rattle.numbering.specs.Least.{Least, least_shared};
ghost use Rattle.numbering.specs.Places.{same_number, written_place};
ghost use Rattle.numbering.specs.Ranges.{RangeFault, RangeTexts, high, low, range_holds, range_past, range_reading};
ghost use Rattle.numbering.specs.Laws.Leasts.{least_lawful};
ghost use Rattle.numbering.specs.Laws.RangeLaws.{bounded};
ghost use Rattle.numbering.specs.Laws.PlaceLaws.{places_written};

use crate::Parity;
use crate::number_sets::NumberSet;
use arrayvec::ArrayVec;
use territory::{Numbering, NumberingText, PLACE_WIDTH, Territory};
use text::AddressNumber;

/// The numbers of one parity between two ends, both included. Plain values: any numbers can stand in a table, and either end can be the smaller one.
#[derive(Clone, Copy, Debug, PartialEq, Eq)]
pub struct Range {
    pub from: u32,
    pub to: u32,
    pub parity: Parity,
}

impl Range {
    fn low(&self) -> u32
        ensures { result ≡ low self.now }
    {
        self.from.min(self.to)
    }

    fn high(&self) -> u32
        ensures { result ≡ high self.now }
    {
        self.from.max(self.to)
    }
}

impl NumberSet for Range {
    ghost holds = { range_holds };

    ghost past = { range_past };

    ghost bounded = { bounded };

    #[tactic(auto, using(std::proofs::lemmas::Bool::Decides::nat_tests))]
    fn shared(&self, other: &Range) -> Range {
        let from = self.low().max(other.low());
        let to = self.high().min(other.high());
        let parity = if from <= to {
            self.parity.shared(other.parity)
        } else {
            Parity::Neither
        };
        Range { from, to, parity }
    }

    // Of two numbers in a row each parity but Neither allows one.
    fn least(&self) -> Option<AddressNumber> {
        let low = self.low();
        if self.parity.allows(low) {
            Some(AddressNumber { value: low })
        } else if low < self.high() && self.parity.allows(low + 1) {
            Some(AddressNumber { value: low + 1 })
        } else {
            None
        }
    }
}

impl Territory for Range {
    type Point = AddressNumber;

    ghost holds = { λ s p. range_holds s p.value };

    ghost same = { same_number };

    ghost common = { least_shared range_holds range_past };

    ghost lawful = { least_lawful _ _ bounded };

    fn holds(&self, point: AddressNumber) -> bool {
        (self.low()..=self.high()).contains(&point.value) && self.parity.allows(point.value)
    }

    fn same(a: AddressNumber, b: AddressNumber) -> bool {
        a == b
    }

    fn common(&self, other: &Self) -> Option<AddressNumber>
        ensures value { result ≡ least_shared range_holds range_past self.now other.now }
        ensures least { Least range_holds self.now other.now result }
    {
        self.least_shared(other)
    }
}

impl Numbering for Range {
    ghost reading = { range_reading };

    ghost place = { read_number };

    ghost written = { written_place };

    ghost writes = { places_written };

    // The ends, and a parity that agrees with them.
    #[tactic(auto, using(crate::specs::Laws::RangeLaws::exactly_told))]
    fn read(from: &[u8], to: &[u8], parity: &[u8]) -> Result<Range, NumberingText>
        ensures value { result ≡ range_reading from.now to.now parity.now }
        ensures exactly { Exactly (RangeTexts from.now to.now parity.now) (result_ok result) }
        ensures at_fault { RangeFault from.now to.now parity.now (result_err result) }
    {
        let from = AddressNumber::read(from).ok_or(NumberingText::First)?;
        let to = AddressNumber::read(to).ok_or(NumberingText::Second)?;
        let parity = Parity::read(parity)
            .filter(|parity| parity.agrees(from.value, to.value))
            .ok_or(NumberingText::Third)?;
        Ok(Range {
            from: from.value,
            to: to.value,
            parity,
        })
    }

    fn read_place(text: &[u8]) -> Option<AddressNumber> {
        AddressNumber::read(text)
    }

    fn write_place(point: AddressNumber) -> ArrayVec<u8, PLACE_WIDTH> {
        point.write()
    }
}
