// What a checked body says by the names of its fields, read again from its bytes.
ghost use Rattle.std.specs.Prelude.{◌≡◌};
ghost use Rattle.std.specs.Option.{option_map};
ghost use Rattle.territory.specs.Stretches.{from_to};
ghost use Rattle.text.specs.FullNames.{full_name, name_of};
ghost use Rattle.record.specs.Parts.{elements_of, lifetime_of};

use crate::records::Checked;
use crate::{BodyKind, FieldName};
use instant::{Instant, Lifetime};
use text::{FullName, TextField};

impl<K: BodyKind> Checked<'_, K> {
    /// The full name of the street.
    pub fn full_name(&self) -> Option<FullName>
        ensures { option_map name_of result ≡ full_name (elements_of K.BodyKind.KIND self.now.body.bytes.now) }
    {
        FullName::of(&[
            self.text(FieldName::Text(TextField::PreModifier)),
            self.text(FieldName::Text(TextField::PreDirectional)),
            self.text(FieldName::Text(TextField::PreType)),
            self.text(FieldName::Text(TextField::PreSeparator)),
            self.text(FieldName::Text(TextField::StreetName)),
            self.text(FieldName::Text(TextField::PostType)),
            self.text(FieldName::Text(TextField::PostDirectional)),
            self.text(FieldName::Text(TextField::PostModifier)),
        ])
    }

    /// From the Effective up to, without, the Expire; a kind without these fields lasts from the earliest instant to the latest.
    pub fn lifetime(&self) -> Option<Lifetime>
        ensures { option_map (λ t. from_to t.first t.end) result ≡ lifetime_of K.BodyKind.KIND self.now.body.bytes.now }
    {
        let effective = Instant::read_effective(self.text(FieldName::Effective))?;
        let expire = Instant::read_expire(self.text(FieldName::Expire))?;
        Lifetime::new(effective, expire)
    }
}
