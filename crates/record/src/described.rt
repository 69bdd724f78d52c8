// A body with its kind, which tells where each field stands.
ghost use Rattle.std.specs.Prelude.{◌≡◌};
ghost use Rattle.record.specs.Named.{text_given};

use crate::FieldKey;
use crate::walking::text_at;
use delivery::{Body, Kind};

/// A body, and the kind whose fields it is to have.
#[derive(Clone, Copy)]
pub(crate) struct Described<'a> {
    pub(crate) kind: Kind,
    pub(crate) body: Body<'a>,
}

impl<'a> Described<'a> {
    /// The text of a field; empty where the body has no such field.
    pub(crate) fn text<F: FieldKey>(self, field: F) -> &'a [u8]
        ensures { result.now ≡ text_given self.entry.body.bytes.now (F.index self.entry.kind field) }
    {
        match field.index(self.kind) {
            Some(index) => text_at(self.body, index),
            None => b"",
        }
    }
}
