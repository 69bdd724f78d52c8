// Sets of numbers, and the least number that two of a kind both hold.
ghost use Rattle.std.specs.Prelude.{◌≡◌, ℕ, ◌<◌, Bool, true};
ghost use Rattle.numbering.specs.Least.{Least, both_hold, least_shared};

use text::AddressNumber;

/// A set of numbers: what two of a kind both hold is a set of the kind.
pub(crate) trait NumberSet: Copy {
    ghost holds: { Self → ℕ → Bool };

    // A number after all that one holds.
    ghost past: { Self → ℕ };

    /// The numbers that both hold.
    fn shared(&self, other: &Self) -> Self
        ensures { (n : ℕ) → holds result n ≡ both_hold holds self.now other.now n };

    /// The least number that it holds.
    fn least(&self) -> Option<AddressNumber>
        ensures { Least holds self.now self.now result };

    /// The least number that both hold.
    fn least_shared(&self, other: &Self) -> Option<AddressNumber>
        ensures value { result ≡ least_shared holds past self.now other.now }
        ensures least { Least holds self.now other.now result }
    {
        self.shared(other).least()
    }

    ghost bounded: { (s : Self) (n : ℕ) → holds s n ≡ true → n < past s };
}
