// The limits of time, which stand for a missing Effective and a missing Expire.

ghost use Rattle.std.specs.Prelude.{◌≡◌};
ghost use Rattle.promise.specs.Exactly.{Exactly};
ghost use Rattle.instant.specs.Limits.{earliest, latest, is_within, instant_or, TellsOr};

use crate::date_time::Instant;

impl Instant {
    /// Stands for a missing Effective.
    pub const EARLIEST: Instant = Instant {
        tenths: -1_000_000_000_000,
    };

    /// Stands for a missing Expire.
    pub const LATEST: Instant = Instant {
        tenths: 1_000_000_000_000,
    };

    #[tactic(auto, using(crate::proofs::Bounds::exactly_or))]
    fn read_or(missing: Instant, text: &[u8]) -> Option<Instant>
        ensures meaning { result ≡ instant_or missing text.now }
        ensures exactly { Exactly (TellsOr missing text.now) result }
    {
        if text.is_empty() {
            Some(missing)
        } else {
            Instant::read(text)
        }
    }

    /// Reads a dateTime; an empty text is the earliest instant.
    pub fn read_effective(text: &[u8]) -> Option<Instant>
        ensures meaning { result ≡ instant_or earliest text.now }
        ensures exactly { Exactly (TellsOr earliest text.now) result }
    {
        Self::read_or(Self::EARLIEST, text)
    }

    /// Reads a dateTime; an empty text is the latest instant.
    pub fn read_expire(text: &[u8]) -> Option<Instant>
        ensures meaning { result ≡ instant_or latest text.now }
        ensures exactly { Exactly (TellsOr latest text.now) result }
    {
        Self::read_or(Self::LATEST, text)
    }

    /// Whether the instant lies from the earliest up to, without, the latest.
    pub fn is_within_limits(self) -> bool
        ensures { result ≡ is_within self }
    {
        (Self::EARLIEST..Self::LATEST).contains(&self)
    }
}
