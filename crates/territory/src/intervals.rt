// Stretches that keep in their type that the first bound is never after the end.
ghost use Rattle.std.specs.Prelude.{◌≡◌, false, not, ⊤};
ghost use Rattle.std.specs.Option.{option_map};
ghost use Rattle.std.specs.Bool.{then_some};
ghost use Rattle.territory.specs.Stretches.{from_to, lies_within, meeting};
ghost use Rattle.territory.specs.Laws.Seen.{lawful_through};
ghost use Rattle.territory.specs.Laws.Stretched.{stretch_lawful};

use crate::{Bound, Stretch, Territory};
use std::alloc::AllocError;

mod byte_spans;

pub use byte_spans::ByteSpan;

/// From a first bound up to, but without, an end bound that is not before it.
pub struct Interval<B: Bound> {
    first: B,
    end: B,
    ghost ordered: { B.Bound.before end first ≡ false },
}

impl<B: Bound> Interval<B> {
    /// None where the first bound is after the end.
    pub fn new(first: B, end: B) -> Option<Interval<B>>
        ensures { option_map (λ s. from_to s.first s.end) result ≡ then_some (not (B.Bound.before end first)) (from_to first end) }
    {
        if end.precedes(first) {
            None
        } else {
            Some(Interval { first, end })
        }
    }

    /// The bound that it begins at.
    pub fn first(&self) -> B
        ensures { result ≡ self.now.first }
    {
        self.first
    }

    /// The bound that it ends before.
    pub fn end(&self) -> B
        ensures { result ≡ self.now.end }
    {
        self.end
    }
}

impl<B: Bound> Clone for Interval<B> {
    ghost is_clone = { λ interval copy. copy ≡ interval };

    ghost is_infallible = { λ _. ⊤ };

    fn clone(&self) -> Result<Interval<B>, AllocError> {
        Ok(*self)
    }
}

impl<B: Bound> Copy for Interval<B> {}

impl<B: Bound> From<Interval<B>> for Stretch<B> {
    ghost from_gives = { λ s t. t ≡ from_to s.first s.end };

    fn from(interval: Interval<B>) -> Stretch<B> {
        Stretch {
            first: interval.first,
            end: interval.end,
        }
    }
}

impl<B: Bound> Territory for Interval<B> {
    type Point = B;

    ghost holds = { λ s v. lies_within B.Bound.before s.first s.end v };

    ghost same = { B.Bound.level };

    ghost common = { λ s t. meeting B.Bound.before s.first s.end t.first t.end };

    ghost lawful = { lawful_through (λ s. from_to s.first s.end) (stretch_lawful B.Bound.total) };

    fn holds(&self, point: B) -> bool {
        Stretch::from(*self).holds(point)
    }

    fn same(a: B, b: B) -> bool {
        a.is_level_with(b)
    }

    fn common(&self, other: &Self) -> Option<B> {
        Stretch::from(*self).common(&Stretch::from(*other))
    }
}
