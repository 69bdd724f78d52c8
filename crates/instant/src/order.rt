// Instants bound stretches of time: their order is total.

ghost use Rattle.instant.specs.Instants.{instant_before, instant_level};
ghost use Rattle.instant.specs.Laws.InOrder.{instants_total};

use crate::Instant;
use territory::Bound;

impl Bound for Instant {
    ghost before = { instant_before };

    ghost level = { instant_level };

    ghost total = { instants_total };

    fn precedes(self, other: Instant) -> bool {
        self < other
    }

    fn is_level_with(self, other: Instant) -> bool {
        self == other
    }
}
