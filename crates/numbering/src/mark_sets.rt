// Numbers in a row, each held or not.
ghost use Rattle.std.specs.Prelude.{◌≡◌, ◌/◌, ◌^◌};
ghost use Rattle.std.specs.Result.{result_err, result_ok};
ghost use Rattle.promise.specs.Exactly.{Exactly};
ghost use Rattle.text.specs.AddressNumber.{read_number};
ghost use Rattle.numbering.specs.Least.{Least, least_shared};
ghost use Rattle.numbering.specs.Marks.{MarksFault, MarksTexts, first_number, marks_hold, marks_past, marks_reading};
ghost use Rattle.numbering.specs.Places.{same_number, written_place};
ghost use Rattle.numbering.specs.Laws.Leasts.{least_lawful};
ghost use Rattle.numbering.specs.Laws.MarkLaws.{bounded};
ghost use Rattle.numbering.specs.Laws.PlaceLaws.{places_written};

use crate::hexadecimal::read_hexadecimal;
use crate::number_sets::NumberSet;
use arrayvec::ArrayVec;
use territory::{Numbering, NumberingText, PLACE_WIDTH, Territory};
use text::AddressNumber;

const GREATEST_NUMBER: u32 = 999_999;

// The first number from which the last of all marks is the greatest number.
const GREATEST_FIRST: u32 = GREATEST_NUMBER - (u64::BITS - 1);

/// Number `first + i` is held where bit `i` is set, up to the greatest number. Plain values: any can stand in a table.
#[derive(Clone, Copy, Debug, PartialEq, Eq)]
pub struct Marks {
    pub first: u32,
    pub bits: u64,
}

impl NumberSet for Marks {
    ghost holds = { marks_hold };

    ghost past = { marks_past };

    ghost bounded = { bounded };

    #[tactic(auto, using(crate::specs::Laws::MarkLaws::shares))]
    fn shared(&self, other: &Marks) -> Marks {
        let first = self.first.max(other.first);
        Marks {
            first,
            bits: bits_from(self.bits, first - self.first)
                & bits_from(other.bits, first - other.first),
        }
    }

    #[tactic(auto, using(crate::specs::Laws::MarkLaws::none_marked, crate::specs::Laws::MarkLaws::past_greatest, crate::specs::Laws::MarkLaws::lowest_past, crate::specs::Laws::MarkLaws::at_lowest))]
    fn least(&self) -> Option<AddressNumber> {
        if self.bits == 0 || self.first > GREATEST_NUMBER {
            return None;
        }
        let value = self.first + self.bits.trailing_zeros();
        if value > GREATEST_NUMBER {
            return None;
        }
        Some(AddressNumber { value })
    }
}

impl Territory for Marks {
    type Point = AddressNumber;

    ghost holds = { λ s p. marks_hold s p.value };

    ghost same = { same_number };

    ghost common = { least_shared marks_hold marks_past };

    ghost lawful = { least_lawful _ _ bounded };

    #[tactic(auto, using(crate::specs::Laws::MarkLaws::told_by_bit))]
    fn holds(&self, point: AddressNumber) -> bool {
        let number = point.value;
        self.first <= number
            && number <= GREATEST_NUMBER
            && bits_from(self.bits, number - self.first) % 2 == 1
    }

    fn same(a: AddressNumber, b: AddressNumber) -> bool {
        a == b
    }

    fn common(&self, other: &Self) -> Option<AddressNumber>
        ensures value { result ≡ least_shared marks_hold marks_past self.now other.now }
        ensures least { Least marks_hold self.now other.now result }
    {
        self.least_shared(other)
    }
}

impl Numbering for Marks {
    ghost reading = { marks_reading };

    ghost place = { read_number };

    ghost written = { written_place };

    ghost writes = { places_written };

    // The first number, the bits in hexadecimal, and an empty text.
    #[tactic(auto, using(crate::specs::Laws::MarkLaws::exactly_told))]
    fn read(first: &[u8], bits: &[u8], rest: &[u8]) -> Result<Marks, NumberingText>
        ensures value { result ≡ marks_reading first.now bits.now rest.now }
        ensures exactly { Exactly (MarksTexts first.now bits.now rest.now) (result_ok result) }
        ensures at_fault { MarksFault first.now bits.now rest.now (result_err result) }
    {
        let first = read_first(first).ok_or(NumberingText::First)?;
        let bits = read_hexadecimal(bits).ok_or(NumberingText::Second)?;
        if !rest.is_empty() {
            return Err(NumberingText::Third);
        }
        Ok(Marks {
            first: first.value,
            bits,
        })
    }

    fn read_place(text: &[u8]) -> Option<AddressNumber> {
        AddressNumber::read(text)
    }

    fn write_place(point: AddressNumber) -> ArrayVec<u8, PLACE_WIDTH> {
        point.write()
    }
}

fn read_first(text: &[u8]) -> Option<AddressNumber>
    ensures { result ≡ first_number text.now }
{
    AddressNumber::read(text).filter(|first| first.value <= GREATEST_FIRST)
}

// The bits from a place on: none where the place is past them.
fn bits_from(bits: u64, place: u32) -> u64
    ensures { result ≡ bits / 2 ^ place }
{
    if place < u64::BITS { bits >> place } else { 0 }
}
