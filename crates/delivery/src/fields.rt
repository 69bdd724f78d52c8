// The fields of a body: each a length byte and that many bytes.
ghost use Rattle.std.specs.Prelude.{◌≡◌, Some};
ghost use Rattle.std.specs.Result.{result_map_both};
ghost use Rattle.delivery.specs.Opened.{body_part};
ghost use Rattle.delivery.specs.Fields.{field_part, field_from, left_over, past_field, place_in};
ghost use Rattle.delivery.specs.Texts.{past_end_text};

use crate::Body;
use std::error::Error;
use std::fmt;

/// A field's bytes, as a part of the delivery, and the place of its length byte.
#[derive(Clone, Copy, Debug, PartialEq, Eq)]
pub struct Field<'a> {
    pub bytes: &'a [u8],
    pub place: usize,
}

/// A field that passes the end of its body.
#[derive(Clone, Copy, Debug, PartialEq, Eq)]
pub struct FieldPastEnd {
    /// The place of its length byte.
    pub place: usize,
}

impl fmt::Display for FieldPastEnd {
    ghost output = { λ past. Some (past_end_text past) };

    fn fmt<W: fmt::Write>(&self, f: &mut fmt::Formatter<W>) -> fmt::Result {
        write!(f, "a field passes the end of its body at {}", self.place)
    }
}

impl Error for FieldPastEnd {}

/// Hands out the fields of a body, one after the other.
#[derive(Debug, Drop)]
pub struct FieldReader<'a> {
    body: Body<'a>,
    at: usize,
}

impl<'a> FieldReader<'a> {
    /// Begins at the first field.
    pub fn new(body: Body<'a>) -> FieldReader<'a>
        ensures bytes { body_part result.body ≡ body_part body.entry }
        ensures at { result.at ≡ 0 }
    {
        FieldReader { body, at: 0 }
    }

    /// The next field. Where it passes the body's end, the reader stays before it.
    pub fn field(&mut self) -> Result<Field<'a>, FieldPastEnd>
        ensures value { result_map_both field_part (λ e. e.place) result ≡ field_from (body_part self.old.body) self.old.at }
        ensures after { self.new.at ≡ past_field self.old.body.bytes.now self.old.at }
        ensures body { body_part self.new.body ≡ body_part self.old.body }
    {
        let place = self.place();
        let past_end = FieldPastEnd { place };
        let left = self.body.bytes.get(self.at..).ok_or(past_end)?;
        let (length, rest) = left.split_first().ok_or(past_end)?;
        let bytes = rest.get(..usize::from(*length)).ok_or(past_end)?;
        self.at += 1 + bytes.len();
        Ok(Field { bytes, place })
    }

    /// The place of the first byte that no field has taken yet, if one is left.
    pub fn left_over(&self) -> Option<usize>
        ensures { result ≡ left_over (body_part self.now.body) self.now.at }
    {
        (self.at < self.body.bytes.len()).then_some(self.place())
    }

    fn place(&self) -> usize
        ensures { result ≡ place_in (body_part self.now.body) self.now.at }
    {
        self.body.place.saturating_add(self.at)
    }
}
