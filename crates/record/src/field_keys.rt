// What tells a field of a body: its number in the layout of its kind, or its name.
ghost use Rattle.std.specs.Prelude.{◌≡◌, ℕ, Some, Option as Maybe};
ghost use Rattle.delivery.specs.declared.kinds.Kind.{Kind as KindOf};
ghost use Rattle.record.specs.Layouts.{layout};
ghost use Rattle.record.specs.Named.{index_in};

use crate::FieldName;
use crate::layouts::layout;
use delivery::Kind;

/// Tells a field of a body: a number in the layout, from 0, or the field's name, whatever an identifier's layer.
pub trait FieldKey: Copy {
    ghost index: { KindOf → Self → Maybe ℕ };

    /// The number in the layout of the kind, if the key tells one.
    fn index(self, kind: Kind) -> Option<usize>
        ensures { result ≡ index kind self };
}

impl FieldKey for usize {
    ghost index = { λ kind number. Some number };

    fn index(self, _kind: Kind) -> Option<usize> {
        Some(self)
    }
}

impl FieldKey for FieldName {
    ghost index = { λ kind name. index_in (layout kind) name };

    #[tactic(auto, unfolding(crate::specs::Named::index_in))]
    fn index(self, kind: Kind) -> Option<usize> {
        layout(kind).iter().position(|name| self.is_same(*name))
    }
}
