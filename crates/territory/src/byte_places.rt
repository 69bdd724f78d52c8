// Places of bytes in a delivery: they bound spans.
ghost use Rattle.territory.specs.BytePlaces.{place_before, place_level};
ghost use Rattle.territory.specs.Laws.Numbered.{by_number};

use crate::Bound;

/// A place counted in bytes from the start of a delivery.
#[derive(Clone, Copy, Debug, PartialEq, Eq, PartialOrd, Ord)]
pub struct BytePlace {
    pub at: usize,
}

impl Bound for BytePlace {
    ghost before = { place_before };

    ghost level = { place_level };

    ghost total = { by_number (λ p. p.at) };

    fn precedes(self, other: BytePlace) -> bool {
        self < other
    }

    fn is_level_with(self, other: BytePlace) -> bool {
        self == other
    }
}
