// The Gregorian calendar of the years 1900 to 2199.

ghost use Rattle.std.specs.Prelude.{◌≡◌, ◌-◌, true, is_some, IfSome};
ghost use Rattle.instant.specs.Calendar.{leap, days_in_month, days_of_months, days_of_years, is_date, calendar_day};
ghost use Rattle.instant.specs.Calendar.{first_year, days_from_1900};

const FIRST_YEAR: u32 = 1900;

const LAST_YEAR: u32 = 2199;

// From the year 1 on.
const LEAP_YEARS_BEFORE_1900: u32 = 460;

fn is_leap_year(year: u32) -> bool
    ensures { result ≡ leap year }
{
    (year % 4 == 0 && year % 100 != 0) || year % 400 == 0
}

fn days_in_month(year: u32, month: u32) -> u32
    ensures { result ≡ days_in_month (leap year) month }
{
    match month {
        2 if is_leap_year(year) => 29,
        2 => 28,
        4 | 6 | 9 | 11 => 30,
        _ => 31,
    }
}

fn is_date(year: u32, month: u32, day: u32) -> bool
    ensures { result ≡ is_date year month day }
{
    (FIRST_YEAR..=LAST_YEAR).contains(&year)
        && (1..=12).contains(&month)
        && 1 <= day
        && day <= days_in_month(year, month)
}

// A date that the years 1900 to 2199 have.
#[derive(Clone, Copy)]
struct Date {
    year: u32,
    month: u32,
    day: u32,
    ghost on_calendar: { is_date year month day ≡ true },
}

const EPOCH: Date = Date {
    year: 1970,
    month: 1,
    day: 1,
};

impl Date {
    fn new(year: u32, month: u32, day: u32) -> Option<Date>
        ensures found { is_some result ≡ is_date year month day }
        ensures numbers { IfSome result (λ date. (date.year ≡ year) × (date.month ≡ month) × (date.day ≡ day)) }
    {
        if is_date(year, month, day) {
            Some(Date { year, month, day })
        } else {
            None
        }
    }

    // The days of the years from 1900 up to, without, the date's.
    #[tactic(auto, using(crate::proofs::Days::rule_is_count))]
    fn days_before_year(self) -> u32
        ensures { result ≡ days_of_years (self.year - first_year) }
    {
        let last = self.year - 1;
        let leap_years = last / 4 - last / 100 + last / 400 - LEAP_YEARS_BEFORE_1900;
        365 * (self.year - FIRST_YEAR) + leap_years
    }

    // The days of the months of its year before the date's.
    #[tactic(auto, unfolding(crate::specs::Calendar::days_of_months))]
    fn days_before_month(self) -> u32
        ensures { result ≡ days_of_months (leap self.year) (self.month - 1) }
    {
        (1..self.month)
            .map(|month| days_in_month(self.year, month))
            .sum()
    }

    #[tactic(auto, using(crate::proofs::Days::days_from_1900_le))]
    fn days_from_1900(self) -> u32
        ensures { result ≡ days_from_1900 self.year self.month self.day }
    {
        self.days_before_year() + self.days_before_month() + (self.day - 1)
    }
}

/// The days from 1970-01-01 to the date, negative before it; none if the years 1900 to 2199 have no such date.
pub fn days_from_1970(year: u32, month: u32, day: u32) -> Option<i64>
    ensures { result ≡ calendar_day year month day }
{
    let date = Date::new(year, month, day)?;
    Some(i64::from(date.days_from_1900()) - i64::from(EPOCH.days_from_1900()))
}
