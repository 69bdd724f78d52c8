// What ranges and marks make of the texts of an example.
use crate::readings::Reading;
use crate::tables::Texts;
use territory::{Numbering, NumberingText};

// The numbering of the first three texts.
pub(crate) fn read<N: Numbering>(texts: Texts) -> Result<N, NumberingText> {
    N::read(texts.at(0), texts.at(1), texts.at(2))
}

// Whether the numbering of the first three texts holds the place that the fourth says.
pub(crate) fn holds<N: Numbering>(texts: Texts) -> Option<Reading> {
    let numbering: N = read(texts).ok()?;
    let place = N::read_place(texts.at(3))?;
    Some(Reading::Holds(numbering.holds(place)))
}

// The place that the numberings of three texts and of three more share, as it is written.
pub(crate) fn meets<N: Numbering>(texts: Texts) -> Option<Reading> {
    let one: N = read(texts).ok()?;
    let other: N = read(texts.after(3)).ok()?;
    Some(
        one.common(&other).map_or(
            Reading::NothingShared,
            |place| Reading::Place(N::write_place(place)),
        ),
    )
}
