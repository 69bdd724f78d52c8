// Finding a field of a body by its number, and whether a body is whole.
ghost use Rattle.std.specs.Prelude.{◌≡◌};
ghost use Rattle.std.specs.Option.{option_map};
ghost use Rattle.std.specs.Result.{result_err, result_map_both};
ghost use Rattle.delivery.specs.Opened.{body_part};
ghost use Rattle.delivery.specs.Fields.{field_part, place_in};
ghost use Rattle.record.specs.Bodies.{field_of, field_start, field_text, broken_at};
ghost use Rattle.record.specs.declared.refusals.BodyRefusal.TheVariants.{Broken};

use crate::BodyRefusal;
use delivery::{Body, Field, FieldPastEnd, FieldReader};

/// A field by its number, from 0. Fails where the walk to it, or it, passes the body's end.
#[tactic(auto, using(crate::proofs::Walks::start_first))]
pub(crate) fn field_at(body: Body<'_>, index: usize) -> Result<Field<'_>, FieldPastEnd>
    ensures { result_map_both field_part (λ past. past.place) result ≡ field_of (body_part body.entry) index }
{
    let mut reader = FieldReader::new(body);
    for _ in 0..index {
        reader.field()?;
    }
    reader.field()
}

/// The text of a field; empty where the body has no such field.
pub(crate) fn text_at(body: Body<'_>, index: usize) -> &[u8]
    ensures { result.now ≡ field_text body.entry.bytes.now index }
{
    match field_at(body, index) {
        Ok(field) => field.bytes,
        Err(_) => b"",
    }
}

/// The place of a field's length byte, or of the one that the walk does not pass.
pub(crate) fn place_at(body: Body, index: usize) -> usize
    ensures { result ≡ place_in (body_part body.entry) (field_start body.entry.bytes.now index) }
{
    match field_at(body, index) {
        Ok(field) => field.place,
        Err(past) => past.place,
    }
}

/// Refuses a body that is not so many fields and nothing else.
#[tactic(auto, using(crate::proofs::Walks::ends))]
pub(crate) fn check_whole(body: Body, count: usize) -> Result<(), BodyRefusal>
    ensures { result_err result ≡ option_map Broken (broken_at (body_part body.entry) 0 count) }
{
    let mut reader = FieldReader::new(body);
    for _ in 0..count {
        reader.field()?;
    }
    match reader.left_over() {
        Some(place) => Err(BodyRefusal::Broken(place)),
        None => Ok(()),
    }
}
