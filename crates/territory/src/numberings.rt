// A territory of address places that is written as three texts.
ghost use Rattle.std.specs.Prelude.{◌≡◌, ℕ, List, Option as Maybe, Result as Outcome};
ghost use Rattle.territory.specs.declared.numberings.NumberingText.{NumberingText as Text};
ghost use Rattle.territory.specs.Places.{WritesPlaces};

use crate::Territory;
use arrayvec::ArrayVec;

/// Which of the three texts of a numbering.
#[derive(Clone, Copy, Debug, PartialEq, Eq)]
pub enum NumberingText {
    First,
    Second,
    Third,
}

/// The most bytes that the text of a place has.
pub const PLACE_WIDTH: usize = 14;

/// A way of numbering houses: a territory of places that is read from three texts.
pub trait Numbering: Territory + Copy {
    ghost reading: { List ℕ → List ℕ → List ℕ → Outcome Self Text };

    ghost place: { List ℕ → Maybe Self.Point };

    ghost written: { Self.Point → List ℕ };

    /// The numbering that the three texts say, or the first of them that is at fault.
    fn read(first: &[u8], second: &[u8], third: &[u8]) -> Result<Self, NumberingText>
        ensures { result ≡ reading first.now second.now third.now };

    /// The place that the text says, if it says one.
    fn read_place(text: &[u8]) -> Option<Self::Point>
        ensures { result ≡ place text.now };

    /// The text of a place.
    fn write_place(point: Self::Point) -> ArrayVec<u8, PLACE_WIDTH>
        ensures { result.items ≡ written point };

    ghost writes: { WritesPlaces Self.Territory.same place written };
}
