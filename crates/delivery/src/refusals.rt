// Why a delivery is not opened.
ghost use Rattle.std.specs.Prelude.{◌≡◌, Some};
ghost use Rattle.delivery.specs.Refusals.{refusal_number};
ghost use Rattle.delivery.specs.Texts.{refusal_text};

use std::error::Error;
use std::fmt;

/// The reasons for which a delivery is not opened, in the order in which they are looked for.
#[derive(Clone, Copy, Debug, PartialEq, Eq)]
pub enum DeliveryRefusal {
    /// The size is out of limits, or too many entries are listed, or the table does not fit.
    NoTable,
    /// This entry has another kind, or a body not wholly after the table and inside the delivery.
    BadEntry(usize),
    /// The body of this entry shares a byte with an earlier one.
    SharedByte(usize),
}

impl DeliveryRefusal {
    /// The number of the reason in the list of refusals.
    pub fn number(self) -> u8
        ensures { result ≡ refusal_number self }
    {
        match self {
            DeliveryRefusal::NoTable => 1,
            DeliveryRefusal::BadEntry(_) => 2,
            DeliveryRefusal::SharedByte(_) => 3,
        }
    }
}

impl fmt::Display for DeliveryRefusal {
    ghost output = { λ refusal. Some (refusal_text refusal) };

    fn fmt<W: fmt::Write>(&self, f: &mut fmt::Formatter<W>) -> fmt::Result {
        let number = self.number();
        match self {
            DeliveryRefusal::NoTable => write!(f, "delivery refused {number}"),
            DeliveryRefusal::BadEntry(entry) | DeliveryRefusal::SharedByte(entry) => {
                write!(f, "delivery refused {number} {entry}")
            }
        }
    }
}

impl Error for DeliveryRefusal {}
