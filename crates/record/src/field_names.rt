// What the fields of a body are.
ghost use Rattle.std.specs.Prelude.{◌≡◌};
ghost use Rattle.record.specs.Layouts.{is_required};
ghost use Rattle.record.specs.Names.{same_name, whatever_layer};

use territory::NumberingText;
use text::{Layer, TextField};

/// A side of a road.
#[derive(Clone, Copy, Debug, PartialEq, Eq)]
pub enum Side {
    Left,
    Right,
}

/// A field by what it says.
#[derive(Clone, Copy, Debug, PartialEq, Eq)]
pub enum FieldName {
    Identifier(Layer),
    RoadIdentifier,
    Text(TextField),
    SideText(Side, TextField),
    Numbering(Side, NumberingText),
    Place,
    DateUpdate,
    Effective,
    Expire,
    Retirement,
}

impl FieldName {
    /// Whether a body has to have it. Numbering texts follow their numbering alone.
    pub(crate) fn is_required(self) -> bool
        ensures { result ≡ is_required self }
    {
        match self {
            // A street is known by its county and its name.
            FieldName::Text(field) | FieldName::SideText(_, field) => {
                matches!(field, TextField::StreetName | TextField::County)
            }
            FieldName::Identifier(_) | FieldName::RoadIdentifier => true,
            FieldName::Place | FieldName::DateUpdate | FieldName::Retirement => true,
            FieldName::Numbering(_, _) | FieldName::Effective | FieldName::Expire => false,
        }
    }

    /// Whether both name one field. A kind has one identifier of its own, so the layer is no part of the name.
    #[tactic(auto, using(crate::proofs::Labels::equal_same))]
    pub(crate) fn is_same(self, other: FieldName) -> bool
        ensures { result ≡ same_name self other }
    {
        self.whatever_layer() == other.whatever_layer()
    }

    fn whatever_layer(self) -> FieldName
        ensures { result ≡ whatever_layer self }
    {
        match self {
            FieldName::Identifier(_) => FieldName::Identifier(Layer::Road),
            name => name,
        }
    }
}
