// The fields of each kind of body, in their order.
ghost use Rattle.std.specs.Prelude.{◌≡◌};
ghost use Rattle.record.specs.Layouts.{layout};

use crate::{FieldName, Side};
use delivery::Kind;
use territory::NumberingText;
use text::{Layer, TextField};

const ROAD: [FieldName; 24] = [
    FieldName::Identifier(Layer::Road),
    FieldName::Text(TextField::PreModifier),
    FieldName::Text(TextField::PreDirectional),
    FieldName::Text(TextField::PreType),
    FieldName::Text(TextField::PreSeparator),
    FieldName::Text(TextField::StreetName),
    FieldName::Text(TextField::PostType),
    FieldName::Text(TextField::PostDirectional),
    FieldName::Text(TextField::PostModifier),
    FieldName::SideText(Side::Left, TextField::County),
    FieldName::SideText(Side::Left, TextField::Municipality),
    FieldName::SideText(Side::Left, TextField::NumberPrefix),
    FieldName::Numbering(Side::Left, NumberingText::First),
    FieldName::Numbering(Side::Left, NumberingText::Second),
    FieldName::Numbering(Side::Left, NumberingText::Third),
    FieldName::SideText(Side::Right, TextField::County),
    FieldName::SideText(Side::Right, TextField::Municipality),
    FieldName::SideText(Side::Right, TextField::NumberPrefix),
    FieldName::Numbering(Side::Right, NumberingText::First),
    FieldName::Numbering(Side::Right, NumberingText::Second),
    FieldName::Numbering(Side::Right, NumberingText::Third),
    FieldName::DateUpdate,
    FieldName::Effective,
    FieldName::Expire,
];

const ALIAS: [FieldName; 11] = [
    FieldName::Identifier(Layer::Alias),
    FieldName::RoadIdentifier,
    FieldName::Text(TextField::PreModifier),
    FieldName::Text(TextField::PreDirectional),
    FieldName::Text(TextField::PreType),
    FieldName::Text(TextField::PreSeparator),
    FieldName::Text(TextField::StreetName),
    FieldName::Text(TextField::PostType),
    FieldName::Text(TextField::PostDirectional),
    FieldName::Text(TextField::PostModifier),
    FieldName::DateUpdate,
];

const POINT: [FieldName; 19] = [
    FieldName::Identifier(Layer::AddressPoint),
    FieldName::RoadIdentifier,
    FieldName::Text(TextField::PreModifier),
    FieldName::Text(TextField::PreDirectional),
    FieldName::Text(TextField::PreType),
    FieldName::Text(TextField::PreSeparator),
    FieldName::Text(TextField::StreetName),
    FieldName::Text(TextField::PostType),
    FieldName::Text(TextField::PostDirectional),
    FieldName::Text(TextField::PostModifier),
    FieldName::Text(TextField::County),
    FieldName::Text(TextField::Municipality),
    FieldName::Text(TextField::NumberPrefix),
    FieldName::Place,
    FieldName::Text(TextField::NumberSuffix),
    FieldName::Text(TextField::Unit),
    FieldName::DateUpdate,
    FieldName::Effective,
    FieldName::Expire,
];

const ROAD_RETIREMENT: [FieldName; 2] = [FieldName::Identifier(Layer::Road), FieldName::Retirement];

const POINT_RETIREMENT: [FieldName; 2] = [
    FieldName::Identifier(Layer::AddressPoint),
    FieldName::Retirement,
];

/// The fields that a body of the kind has, in their order.
pub(crate) fn layout(kind: Kind) -> &'static [FieldName]
    ensures { result.now ≡ layout kind }
{
    match kind {
        Kind::Road => &ROAD,
        Kind::Alias => &ALIAS,
        Kind::Point => &POINT,
        Kind::RoadRetirement => &ROAD_RETIREMENT,
        Kind::PointRetirement => &POINT_RETIREMENT,
    }
}
