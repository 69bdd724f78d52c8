// Why a body is refused.
ghost use Rattle.std.specs.Prelude.{◌≡◌, Some};
ghost use Rattle.record.specs.Refusals.{refusal_number};
ghost use Rattle.record.specs.Texts.{refusal_text};
ghost use Rattle.record.specs.declared.refusals.BodyRefusal.TheVariants.{Broken};

use delivery::FieldPastEnd;
use std::error::Error;
use std::fmt;

/// The reasons for which a body is refused, in the order in which they are looked for.
#[derive(Clone, Copy, Debug, PartialEq, Eq)]
pub enum BodyRefusal {
    /// The place of a field that passes the body's end, or of the first byte left over.
    Broken(usize),
    /// The number of the first field at fault, from 1, and the place of its length byte.
    Field { number: usize, place: usize },
    /// The Effective is not before the Expire.
    Lifetime,
}

impl BodyRefusal {
    /// The number of the reason in the list of refusals.
    pub fn number(self) -> u8
        ensures { result ≡ refusal_number self }
    {
        match self {
            BodyRefusal::Broken(_) => 4,
            BodyRefusal::Field { .. } => 5,
            BodyRefusal::Lifetime => 6,
        }
    }
}

impl fmt::Display for BodyRefusal {
    ghost output = { λ refusal. Some (refusal_text refusal) };

    fn fmt<W: fmt::Write>(&self, f: &mut fmt::Formatter<W>) -> fmt::Result {
        let reason = self.number();
        match self {
            BodyRefusal::Broken(place) => write!(f, "body refused {reason} {place}"),
            BodyRefusal::Field { number, place } => {
                write!(f, "body refused {reason} {number} {place}")
            }
            BodyRefusal::Lifetime => write!(f, "body refused {reason}"),
        }
    }
}

impl Error for BodyRefusal {}

impl From<FieldPastEnd> for BodyRefusal {
    ghost from_gives = { λ past refusal. refusal ≡ Broken past.place };

    fn from(past: FieldPastEnd) -> BodyRefusal {
        BodyRefusal::Broken(past.place)
    }
}
