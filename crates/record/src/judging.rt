// Whether a field of a body is at fault, by what its name asks of its text.
ghost use Rattle.std.specs.Prelude.{◌≡◌, ◌^◌, ◌<◌};
ghost use Rattle.record.specs.Judging.{has_form, faulty_text, faulty, misread, ordinal, side_reading};
ghost use Rattle.record.specs.Named.{StandsAt};
ghost use Rattle.record.specs.Parts.{reading_from};

use crate::described::Described;
use crate::{FieldKey, FieldName, Side};
use instant::Instant;
use territory::{Numbering, NumberingText};
use text::{Layer, Nguid};

impl Described<'_> {
    /// Whether the field of the name, at its number in the layout, is at fault.
    #[tactic(auto, unfolding(crate::specs::Judging::faulty))]
    pub(crate) fn is_faulty<N: Numbering>(self, name: FieldName, index: usize) -> bool
        requires { StandsAt self.kind name index }
        ensures { result ≡ faulty N.Numbering.own self.entry.kind self.entry.body.bytes.now name }
    {
        is_faulty_text(name, self.text(index)) || self.is_misread::<N>(name, index)
    }

    // What the numbering finds at fault.
    #[tactic(auto, using(crate::proofs::NumberingTexts::side_read_from, crate::proofs::NamedTexts::stands_low))]
    fn is_misread<N: Numbering>(self, name: FieldName, index: usize) -> bool
        requires { StandsAt self.kind name index }
        ensures { result ≡ misread N.Numbering.own self.entry.kind self.entry.body.bytes.now name }
    {
        match name {
            FieldName::Numbering(_, which) => {
                let first = index.saturating_sub(ordinal(which));
                self.numbering_from::<N>(first).err() == Some(which)
            }
            FieldName::Place => N::read_place(self.text(index)).is_none(),
            _ => false,
        }
    }

    /// The numbering of a side, or the first of its texts at fault.
    #[tactic(auto, using(crate::proofs::NumberingTexts::side_read, crate::proofs::NumberingTexts::side_unread, crate::proofs::NamedTexts::stands_low))]
    pub(crate) fn numbering<N: Numbering>(self, side: Side) -> Result<N, NumberingText>
        ensures { result ≡ side_reading N.Numbering.own self.entry.kind self.entry.body.bytes.now side }
    {
        match FieldName::Numbering(side, NumberingText::First).index(self.kind) {
            Some(first) => self.numbering_from(first),
            None => N::read(b"", b"", b""),
        }
    }

    // The numbering of three texts in a row.
    fn numbering_from<N: Numbering>(self, first: usize) -> Result<N, NumberingText>
        requires { first < 2 ^ 32 }
        ensures { result ≡ reading_from N.Numbering.own self.entry.body.bytes.now first }
    {
        N::read(self.text(first), self.text(first + 1), self.text(first + 2))
    }
}

// How many texts of a numbering stand before it.
fn ordinal(which: NumberingText) -> usize
    ensures { result ≡ ordinal which }
{
    match which {
        NumberingText::First => 0,
        NumberingText::Second => 1,
        NumberingText::Third => 2,
    }
}

// Missing though required, or without its form.
fn is_faulty_text(name: FieldName, text: &[u8]) -> bool
    ensures { result ≡ faulty_text name text.now }
{
    (name.is_required() && text.is_empty()) || !has_form(name, text)
}

fn has_form(name: FieldName, text: &[u8]) -> bool
    ensures { result ≡ has_form name text.now }
{
    match name {
        FieldName::Identifier(layer) => Nguid::read(layer, text).is_some(),
        FieldName::RoadIdentifier => Nguid::read(Layer::Road, text).is_some(),
        FieldName::Text(field) | FieldName::SideText(_, field) => field.accepts(text),
        FieldName::DateUpdate | FieldName::Retirement => Instant::read(text).is_some(),
        FieldName::Effective => Instant::read_effective(text).is_some(),
        FieldName::Expire => Instant::read_expire(text).is_some(),
        FieldName::Numbering(_, _) | FieldName::Place => true,
    }
}
