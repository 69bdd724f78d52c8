// Instants, and the W3C XML Schema dateTime texts that tell them.

ghost use Rattle.std.specs.Prelude.{◌≡◌};
ghost use Rattle.promise.specs.Exactly.{Exactly};
ghost use Rattle.instant.specs.DateTime.{Tells};
ghost use Rattle.instant.specs.Limits.{SomeWithin};
ghost use Rattle.instant.specs.Reading.{tenths_in, instant_in};

use crate::local_time::LocalTime;
use crate::zone::zone_minutes;

/// Tenths of a second from 1970-01-01T00:00:00Z, negative before it.
#[derive(Clone, Copy, Debug, PartialEq, Eq, PartialOrd, Ord)]
pub struct Instant {
    pub tenths: i64,
}

// The tenths of a second that the text begins with, 0 where it has no fraction, and the text after them.
#[tactic(auto, using(crate::proofs::Fronts::two_before, std::proofs::lemmas::List::take_all))]
fn split_tenths(text: &[u8]) -> (u8, &[u8])
    ensures tenths { result.0 ≡ (tenths_in text.now).0 }
    ensures rest { result.1.now ≡ (tenths_in text.now).1 }
{
    match text {
        [b'.', digit @ b'0'..=b'9', rest @ ..] => (digit - b'0', rest),
        _ => (0, text),
    }
}

impl Instant {
    /// Reads `YYYY-MM-DDThh:mm:ss`, a point and a digit or neither, and `Z` or a sign and `hh:mm`.
    #[tactic(auto, using(crate::proofs::Bounds::exactly_read, crate::proofs::Times::short_of_local), unfolding(crate::specs::Reading::instant_in))]
    pub fn read(text: &[u8]) -> Option<Instant>
        ensures meaning { result ≡ instant_in text.now }
        ensures exactly { Exactly (Tells text.now) result }
        ensures within { SomeWithin result }
    {
        let (local, rest) = text.split_at_checked(LocalTime::FORM.len())?;
        let seconds = LocalTime::read(local)?.seconds_from_1970()?;
        let (tenths, zone) = split_tenths(rest);
        let ahead = zone_minutes(zone)?;
        Some(Instant {
            tenths: 10 * seconds + i64::from(tenths) - 600 * ahead,
        })
    }
}
