// Lifetimes: the instants from an Effective up to, without, an Expire.

use crate::Instant;
use territory::Interval;

/// The instants from an Effective, its `first`, up to, without, an Expire, its `end`.
pub type Lifetime = Interval<Instant>;
