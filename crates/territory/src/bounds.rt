// Values that may bound a stretch: those whose order is total.
ghost use Rattle.std.specs.Prelude.{◌≡◌, Bool};
ghost use Rattle.territory.specs.Order.{Total};

/// A value whose order is total: of two exactly one comes before, or they are level.
pub trait Bound: Copy {
    ghost before: { Self → Self → Bool };

    ghost level: { Self → Self → Bool };

    /// Whether it comes before the other.
    fn precedes(self, other: Self) -> bool
        ensures { result ≡ before self other };

    /// Whether neither comes before the other. Level values stand for each other in the order.
    fn is_level_with(self, other: Self) -> bool
        ensures { result ≡ level self other };

    ghost total: { Total before level };
}
