// A small numbering to learn from: the lots 0 to 9 of a park, from a first to a last one.
// Its must-fail edits show that the laws of a numbering bite.
#![tactic(auto)]

ghost use Rattle.std.specs.Prelude.{◌≡◌, ◌&&◌, ◌==◌, nat_le, refl};
ghost use Rattle.lots.specs.Lots.{lowest_shared, reading_of, lot_of, written_lot};
ghost use Rattle.std.proofs.Common.{rules, arith};
ghost use Rattle.std.proofs.lemmas.Bool.{eq-eqb};
ghost use Rattle.lots.specs.Laws.LotsWritten.{one_digit, back};

use arrayvec::ArrayVec;
use territory::{Numbering, NumberingText, PLACE_WIDTH, Territory};

/// A lot of the park, by its number.
#[derive(Clone, Copy, Debug, PartialEq, Eq)]
pub struct Lot {
    pub number: u8,
}

/// The lots from a first to a last one, both included.
#[derive(Clone, Copy, Debug, PartialEq, Eq)]
pub struct Lots {
    pub first: u8,
    pub last: u8,
}

impl Territory for Lots {
    type Point = Lot;

    ghost holds = { λ s p. nat_le s.first p.number && nat_le p.number s.last };

    ghost same = { λ p q. (p.number == q.number) };

    ghost common = { λ s t. lowest_shared s.first s.last t.first t.last };

    ghost lawful = { Prim.search rules };

    fn holds(&self, point: Lot) -> bool {
        (self.first..=self.last).contains(&point.number)
    }

    fn same(a: Lot, b: Lot) -> bool {
        a == b
    }

    fn common(&self, other: &Self) -> Option<Lot> {
        let number = self.first.max(other.first);
        (number <= self.last.min(other.last)).then_some(Lot { number })
    }
}

impl Numbering for Lots {
    ghost reading = { reading_of };

    ghost place = { lot_of };

    ghost written = { written_lot };

    ghost writes = { record {
      some_bytes = λ p. omega arith;
      few_bytes = λ p. omega arith;
      reads_back = λ text p e. (p, back p (one_digit text p e), eq-eqb p.number p.number refl);
    } };

    fn read(first: &[u8], second: &[u8], third: &[u8]) -> Result<Lots, NumberingText> {
        let first = read_lot(first).ok_or(NumberingText::First)?;
        let last = read_lot(second).ok_or(NumberingText::Second)?;
        if !third.is_empty() {
            return Err(NumberingText::Third);
        }
        Ok(Lots {
            first: first.number,
            last: last.number,
        })
    }

    fn read_place(text: &[u8]) -> Option<Lot> {
        read_lot(text)
    }

    fn write_place(point: Lot) -> ArrayVec<u8, PLACE_WIDTH> {
        let mut out = ArrayVec::new();
        out.push(b'0' + point.number % 10);
        out
    }
}

// One digit.
fn read_lot(text: &[u8]) -> Option<Lot>
    ensures { result ≡ lot_of text.now }
{
    match text {
        [digit @ b'0'..=b'9'] => Some(Lot {
            number: digit - b'0',
        }),
        _ => None,
    }
}
