// A date and a time of day, by the clock of some place.

ghost use Rattle.std.specs.Prelude.{◌≡◌};
ghost use Rattle.instant.specs.Reading.{time_in, seconds_in};
ghost use Rattle.instant.specs.DateTime.{is_on_clock};

use crate::calendar::days_from_1970;
use crate::form::{has_form, two_digits};

#[derive(Clone, Copy)]
pub(crate) struct LocalTime {
    year: u32,
    month: u32,
    day: u32,
    hour: u32,
    minute: u32,
    second: u32,
}

impl LocalTime {
    pub(crate) const FORM: &'static [u8; 19] = b"0000-00-00T00:00:00";

    /// Reads `YYYY-MM-DDThh:mm:ss`; the numbers may still be past their limits.
    pub(crate) fn read(text: &[u8]) -> Option<LocalTime>
        ensures { result ≡ time_in text.now }
    {
        if !has_form(Self::FORM, text) {
            return None;
        }
        Some(LocalTime {
            year: 100 * two_digits(text, 0) + two_digits(text, 2),
            month: two_digits(text, 5),
            day: two_digits(text, 8),
            hour: two_digits(text, 11),
            minute: two_digits(text, 14),
            second: two_digits(text, 17),
        })
    }

    fn is_on_clock(self) -> bool
        ensures { result ≡ is_on_clock self }
    {
        self.hour <= 23 && self.minute <= 59 && self.second <= 59
    }

    /// The seconds from 1970-01-01T00:00:00 by the same clock; none if there is no such date or time of day.
    pub(crate) fn seconds_from_1970(self) -> Option<i64>
        ensures { result ≡ seconds_in self }
    {
        let days = days_from_1970(self.year, self.month, self.day)?;
        if !self.is_on_clock() {
            return None;
        }
        Some(86_400 * days + i64::from(3600 * self.hour + 60 * self.minute + self.second))
    }
}
