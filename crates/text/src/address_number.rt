// Address numbers, and the decimal texts that they are read from and written as.
ghost use Rattle.std.specs.Prelude.{◌≡◌, ◌≤◌, length, Some};
ghost use Rattle.promise.specs.Exactly.{Exactly};
ghost use Rattle.text.specs.AddressNumber.{NotPast, NumberText, ReadsBack, digits_value, most_digits, read_number, written_number, written_width};

use arrayvec::ArrayVec;
use itoa::Buffer;
use std::fmt;

const MOST_DIGITS: usize = 6;

// As wide as the text of a place of any kind.
const WRITTEN_WIDTH: usize = 14;

/// A number of an address. A plain value: any `u32` can stand in a table; those read are at most 999999.
#[derive(Clone, Copy, Debug, PartialEq, Eq)]
pub struct AddressNumber {
    pub value: u32,
}

impl AddressNumber {
    /// Reads one to six digits, without a leading zero except "0" itself.
    #[tactic(auto, using(crate::proofs::NumberLaws::number_exactly, crate::proofs::NumberLaws::reads_back), unfolding(crate::specs::AddressNumber::read_number))]
    pub fn read(text: &[u8]) -> Option<AddressNumber>
        ensures reads { result ≡ read_number text.now }
        ensures exactly { Exactly (NumberText text.now) result }
        ensures not_past { NotPast result }
        ensures reads_back { ReadsBack }
    {
        if text.is_empty() || text.len() > MOST_DIGITS || matches!(text, [b'0', _, ..]) {
            return None;
        }
        digits_value(text).map(|value| AddressNumber { value })
    }

    /// The decimal digits.
    #[tactic(auto, using(std::proofs::lemmas::Fmt::decimal_nonempty))]
    pub fn write(self) -> ArrayVec<u8, WRITTEN_WIDTH>
        ensures writes { result.items ≡ written_number self }
        ensures width { (1 ≤ length result.items) × (length result.items ≤ written_width) }
    {
        let mut out = ArrayVec::new();
        out.try_extend_from_slice(Buffer::new().format(self.value).as_bytes())
            .unwrap();
        out
    }
}

impl fmt::Display for AddressNumber {
    ghost output = { λ number. Some (written_number number) };

    fn fmt<W: fmt::Write>(&self, f: &mut fmt::Formatter<W>) -> fmt::Result {
        write!(f, "{}", self.value)
    }
}

#[tactic(auto, unfolding(crate::specs::AddressNumber::digits_value))]
fn digits_value(text: &[u8]) -> Option<u32>
    requires { length text.now ≤ most_digits }
    ensures { result ≡ digits_value text.now }
{
    let mut value = 0;
    for byte in text {
        value = value * 10 + char::from(*byte).to_digit(10)?;
    }
    Some(value)
}
