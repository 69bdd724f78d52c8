// The values from a first bound up to, but without, an end bound.
ghost use Rattle.std.specs.Prelude.{◌≡◌};
ghost use Rattle.territory.specs.Stretches.{lies_within, meeting, later, earlier};
ghost use Rattle.territory.specs.Laws.Stretched.{stretch_lawful};

use crate::{Bound, Territory};

/// From the first bound up to, but without, the end bound. Equal bounds hold nothing.
#[derive(Clone, Copy, Debug, PartialEq, Eq)]
pub struct Stretch<B> {
    pub first: B,
    pub end: B,
}

impl<B: Bound> Territory for Stretch<B> {
    type Point = B;

    ghost holds = { λ s v. lies_within B.Bound.before s.first s.end v };

    ghost same = { B.Bound.level };

    ghost common = { λ s t. meeting B.Bound.before s.first s.end t.first t.end };

    ghost lawful = { stretch_lawful B.Bound.total };

    fn holds(&self, point: B) -> bool {
        !point.precedes(self.first) && point.precedes(self.end)
    }

    fn same(a: B, b: B) -> bool {
        a.is_level_with(b)
    }

    fn common(&self, other: &Self) -> Option<B> {
        let first = later_of(self.first, other.first);
        let end = earlier_of(self.end, other.end);
        first.precedes(end).then_some(first)
    }
}

// The first one where they are level.
fn later_of<B: Bound>(a: B, b: B) -> B
    ensures { result ≡ later B.before a b }
{
    if a.precedes(b) { b } else { a }
}

fn earlier_of<B: Bound>(a: B, b: B) -> B
    ensures { result ≡ earlier B.before a b }
{
    if b.precedes(a) { b } else { a }
}
