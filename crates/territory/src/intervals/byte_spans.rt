// Spans of the bytes of a delivery.
ghost use Rattle.std.specs.Prelude.{◌≡◌, ◌+◌};
ghost use Rattle.territory.specs.BytePlaces.{byte_place};
ghost use Rattle.territory.specs.Stretches.{from_to};

use crate::{BytePlace, Interval};

/// The bytes from a first place up to, but without, an end place.
pub type ByteSpan = Interval<BytePlace>;

impl Interval<BytePlace> {
    /// So many bytes from a place on.
    pub fn of_length(place: u16, length: u16) -> ByteSpan
        ensures { from_to result.first result.end ≡ from_to (byte_place place) (byte_place (place + length)) }
    {
        let first = usize::from(place);
        let end = first + usize::from(length);
        Interval {
            first: BytePlace { at: first },
            end: BytePlace { at: end },
        }
    }
}
