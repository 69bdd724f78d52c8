// Instants: tenths of a second from 1970-01-01T00:00:00Z, read from dateTime texts by the Gregorian calendar,
// and lifetimes, the stretches of time from an Effective to an Expire.
#![tactic(auto)]

mod calendar;
mod date_time;
mod form;
mod lifetimes;
mod limits;
mod local_time;
mod order;
mod zone;

pub use calendar::days_from_1970;
pub use date_time::Instant;
pub use lifetimes::Lifetime;
