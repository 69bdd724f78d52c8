// Two territories together: a point of each.
ghost use Rattle.std.specs.Prelude.{◌&&◌};
ghost use Rattle.territory.specs.Pairs.{both_told};
ghost use Rattle.territory.specs.Laws.Paired.{both_same, pair_lawful};

use crate::Territory;

/// Holds two points together where each part holds its own.
#[derive(Clone, Copy, Debug, PartialEq, Eq)]
pub struct Pair<T, U> {
    pub first: T,
    pub second: U,
}

impl<T: Territory, U: Territory> Territory for Pair<T, U> {
    type Point = (T::Point, U::Point);

    ghost holds = { λ s p. T.Territory.holds s.first p.0 && U.Territory.holds s.second p.1 };

    ghost same = { λ p q. T.Territory.same p.0 q.0 && U.Territory.same p.1 q.1 };

    ghost common = { λ s t. both_told (T.Territory.common s.first t.first) (U.Territory.common s.second t.second) };

    ghost lawful = { unfold both_same in pair_lawful T.Territory.lawful U.Territory.lawful };

    fn holds(&self, point: (T::Point, U::Point)) -> bool {
        self.first.holds(point.0) && self.second.holds(point.1)
    }

    fn same(a: (T::Point, U::Point), b: (T::Point, U::Point)) -> bool {
        T::same(a.0, b.0) && U::same(a.1, b.1)
    }

    fn common(&self, other: &Self) -> Option<(T::Point, U::Point)> {
        let first = self.first.common(&other.first)?;
        let second = self.second.common(&other.second)?;
        Some((first, second))
    }
}
