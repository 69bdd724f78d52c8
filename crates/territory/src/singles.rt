// One value: a territory of its own, up to an agreement that need not be equality.
ghost use Rattle.std.specs.Prelude.{◌≡◌, Bool};
ghost use Rattle.territory.specs.Meaning.{Equivalence};
ghost use Rattle.std.specs.Bool.{then_some};
ghost use Rattle.std.proofs.Common.{rules};

use crate::Territory;

/// A value with a sameness that is an equivalence and need not be equality.
pub trait Agree: Copy {
    ghost agree: { Self → Self → Bool };

    /// Whether the two are the same.
    fn agrees(self, other: Self) -> bool
        ensures { result ≡ agree self other };

    ghost equivalence: { Equivalence agree };
}

/// Holds the values that agree with one.
#[derive(Clone, Copy, Debug, PartialEq, Eq)]
pub struct Single<V> {
    pub value: V,
}

impl<V: Agree> Territory for Single<V> {
    type Point = V;

    ghost holds = { λ s v. V.Agree.agree s.value v };

    ghost same = { V.Agree.agree };

    ghost common = { λ s t. then_some (V.Agree.agree s.value t.value) s.value };

    ghost lawful = { Prim.search rules };

    fn holds(&self, point: V) -> bool {
        self.value.agrees(point)
    }

    fn same(a: V, b: V) -> bool {
        a.agrees(b)
    }

    // Two that meet tell the value of the one that asks.
    fn common(&self, other: &Self) -> Option<V> {
        self.value.agrees(other.value).then_some(self.value)
    }
}
