// The texts of plain fields: printable, within a width, and for the directionals one of eight words.
ghost use Rattle.std.specs.Prelude.{◌≡◌, Decides};
ghost use Rattle.text.specs.FieldText.{FieldText, directions, is_directed, is_directional, is_field_text, is_plain_text, one_of};
ghost use Rattle.text.specs.Widths.{width_of};

use crate::bytes::is_printable;
use crate::full_name::FULL_NAME_WIDTH;

/// A field that holds plain text.
#[derive(Clone, Copy, Debug, PartialEq, Eq)]
pub enum TextField {
    PreModifier,
    PreDirectional,
    PreType,
    PreSeparator,
    StreetName,
    PostType,
    PostDirectional,
    PostModifier,
    FullName,
    County,
    Municipality,
    NumberPrefix,
    NumberSuffix,
    Unit,
}

impl TextField {
    /// The most bytes that the field's text has.
    pub fn width(self) -> usize
        ensures { result ≡ width_of self }
    {
        match self {
            TextField::PreModifier => 15,
            TextField::PreDirectional => 9,
            TextField::PreType => 50,
            TextField::PreSeparator => 20,
            TextField::StreetName => 60,
            TextField::PostType => 50,
            TextField::PostDirectional => 9,
            TextField::PostModifier => 25,
            TextField::FullName => FULL_NAME_WIDTH,
            TextField::County => 40,
            TextField::Municipality => 100,
            TextField::NumberPrefix => 15,
            TextField::NumberSuffix => 15,
            TextField::Unit => 75,
        }
    }

    /// Whether the text has the field's form. An empty text has it: whether the field may be missing is decided elsewhere.
    #[tactic(auto, unfolding(crate::specs::FieldText::is_field_text))]
    pub fn accepts(self, text: &[u8]) -> bool
        ensures accepts { result ≡ is_field_text self text.now }
        ensures decides { Decides result (FieldText self text.now) }
    {
        self.is_directed(text) && is_plain_text(self.width(), text)
    }

    // A directional is missing, or one of the eight words.
    fn is_directed(self, text: &[u8]) -> bool
        ensures { result ≡ is_directed self text.now }
    {
        !self.is_directional() || text.is_empty() || is_direction(text)
    }

    fn is_directional(self) -> bool
        ensures { result ≡ is_directional self }
    {
        matches!(self, TextField::PreDirectional | TextField::PostDirectional)
    }
}

#[tactic(auto, unfolding(crate::specs::FieldText::directions, crate::specs::Bytes::same_bytes))]
fn is_direction(text: &[u8]) -> bool
    ensures { result ≡ one_of directions text.now }
{
    matches!(
        text,
        b"North"
            | b"South"
            | b"East"
            | b"West"
            | b"Northeast"
            | b"Northwest"
            | b"Southeast"
            | b"Southwest"
    )
}

fn is_plain_text(width: usize, text: &[u8]) -> bool
    ensures { result ≡ is_plain_text width text.now }
{
    !text.starts_with(b" ") && !text.ends_with(b" ") && text.len() <= width && is_printable(text)
}
