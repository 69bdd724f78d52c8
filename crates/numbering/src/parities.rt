// Parities: their letters, and the numbers that they allow.
ghost use Rattle.std.specs.Prelude.{◌≡◌, ℕ, ◌&&◌};
ghost use Rattle.numbering.specs.Parities.{agrees, allows, parity_of};

/// Which of the numbers between its ends a range holds.
#[derive(Clone, Copy, Debug, PartialEq, Eq)]
pub enum Parity {
    Odd,
    Even,
    Both,
    Neither,
}

impl Parity {
    /// One letter: O odd, E even, B both, Z neither.
    pub(crate) fn read(text: &[u8]) -> Option<Parity>
        ensures { result ≡ parity_of text.now }
    {
        let [letter] = text else {
            return None;
        };
        match *letter as char {
            'O' => Some(Parity::Odd),
            'E' => Some(Parity::Even),
            'B' => Some(Parity::Both),
            'Z' => Some(Parity::Neither),
            _ => None,
        }
    }

    /// Whether a number is of the parity.
    pub(crate) fn allows(self, number: u32) -> bool
        ensures { result ≡ allows self number }
    {
        match self {
            Parity::Odd => number % 2 == 1,
            Parity::Even => number % 2 == 0,
            Parity::Both => true,
            Parity::Neither => false,
        }
    }

    /// Whether a range of the parity may have the two ends.
    pub(crate) fn agrees(self, from: u32, to: u32) -> bool
        ensures { result ≡ agrees self from to }
    {
        match self {
            Parity::Neither => from == 0 && to == 0,
            _ => self.allows(from) && self.allows(to) && (from > 0 || to > 0),
        }
    }

    /// The parity that allows what both allow.
    pub(crate) fn shared(self, other: Parity) -> Parity
        ensures { (n : ℕ) → allows result n ≡ (allows self n && allows other n) }
    {
        match (self, other) {
            (Parity::Both, other) => other,
            (own, Parity::Both) => own,
            (Parity::Odd, Parity::Odd) => Parity::Odd,
            (Parity::Even, Parity::Even) => Parity::Even,
            _ => Parity::Neither,
        }
    }
}
