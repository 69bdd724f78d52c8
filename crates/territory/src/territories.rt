// A set of points, known by its answers.
ghost use Rattle.std.specs.Prelude.{◌≡◌, Bool, not, is_some, Decides, Option as Maybe};
ghost use Rattle.territory.specs.Meaning.{Lawful, HoldsNothing};

/// A set of points, with a sameness of points and a common point of two sets.
pub trait Territory {
    type Point: Copy;

    ghost holds: { Self → Self.Point → Bool };

    ghost same: { Self.Point → Self.Point → Bool };

    ghost common: { Self → Self → Maybe Self.Point };

    /// Whether the point is one of the set.
    fn holds(&self, point: Self::Point) -> bool
        ensures { result ≡ holds self.now point };

    /// Whether two points are the same: sets hold both or neither.
    fn same(a: Self::Point, b: Self::Point) -> bool
        ensures { result ≡ same a b };

    /// A point that both hold, or none exactly when they share no point.
    fn common(&self, other: &Self) -> Option<Self::Point>
        ensures { result ≡ common self.now other.now };

    /// Whether no point is held.
    fn is_empty(&self) -> bool
        ensures value { result ≡ not (is_some (common self.now self.now)) }
        ensures meaning { Decides result (HoldsNothing holds self.now) }
    {
        self.common(self).is_none()
    }

    ghost lawful: { Lawful holds same common };
}
