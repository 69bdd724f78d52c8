// Time zones: how far a place's clock is ahead of UTC.

ghost use Rattle.std.specs.Prelude.{◌≡◌};
ghost use Rattle.instant.specs.Reading.{offset_in, zone_in};

use crate::form::{has_form, two_digits};

// 14:00 in minutes.
const LARGEST_OFFSET: u32 = 60 * 14;

// The minutes of `hh:mm`.
fn offset_minutes(text: &[u8]) -> Option<u32>
    ensures { result ≡ offset_in text.now }
{
    if !has_form(b"00:00", text) {
        return None;
    }
    let (hours, minutes) = (two_digits(text, 0), two_digits(text, 3));
    let offset = 60 * hours + minutes;
    (minutes <= 59 && offset <= LARGEST_OFFSET).then_some(offset)
}

/// The minutes that a zone's clock is ahead of UTC, negative where it is behind.
#[tactic(auto, using(crate::proofs::Fronts::one_alone, crate::proofs::Fronts::one_before))]
pub(crate) fn zone_minutes(text: &[u8]) -> Option<i64>
    ensures { result ≡ zone_in text.now }
{
    let (sign, offset) = text.split_first()?;
    match sign {
        b'Z' if offset.is_empty() => Some(0),
        b'+' => offset_minutes(offset).map(i64::from),
        b'-' => offset_minutes(offset).map(|minutes| -i64::from(minutes)),
        _ => None,
    }
}
