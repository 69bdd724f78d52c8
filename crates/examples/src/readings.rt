// What is read of the texts of an example, and how it is said.
use arrayvec::ArrayVec;
use numbering::{Marks, Range};
use std::fmt;
use territory::{NumberingText, PLACE_WIDTH};
use text::AddressNumber;

#[derive(Drop)]
pub(crate) enum Reading {
    Accepted,
    Refused,
    RefusedAt(NumberingText),
    Tenths(i64),
    Number(AddressNumber),
    // The lengths of its parts.
    Identifier { local: usize, agency: usize },
    Name(String),
    Range(Range),
    Marks(Marks),
    Holds(bool),
    Place(ArrayVec<u8, PLACE_WIDTH>),
    NothingShared,
    OfNoKind,
}

impl fmt::Display for Reading {
    fn fmt<W: fmt::Write>(&self, f: &mut fmt::Formatter<W>) -> fmt::Result {
        match self {
            Reading::Accepted => write!(f, "accepted"),
            Reading::Refused => write!(f, "refused"),
            Reading::RefusedAt(text) => write!(f, "refused at text {}", number_of(*text)),
            Reading::Tenths(tenths) => write!(f, "{tenths}"),
            Reading::Number(number) => write!(f, "{number}"),
            Reading::Identifier { local, agency } => {
                write!(f, "local of {local} bytes, agency of {agency}")
            }
            Reading::Name(name) => f.write_str(name.as_str()),
            Reading::Range(range) => write!(f, "{} to {}", range.from, range.to),
            Reading::Marks(marks) => {
                write!(f, "{} from {}", marks.bits.count_ones(), marks.first)
            }
            Reading::Holds(holds) => write!(f, "{}", if *holds { "yes" } else { "no" }),
            Reading::Place(place) => write_bytes(f, place.as_slice()),
            Reading::NothingShared => write!(f, "none"),
            Reading::OfNoKind => write!(f, "of no kind that is known"),
        }
    }
}

fn number_of(text: NumberingText) -> u8 {
    match text {
        NumberingText::First => 1,
        NumberingText::Second => 2,
        NumberingText::Third => 3,
    }
}

fn write_bytes<W: fmt::Write>(f: &mut fmt::Formatter<W>, bytes: &[u8]) -> fmt::Result {
    for byte in bytes {
        write!(f, "{}", char::from(*byte))?;
    }
    Ok(())
}
