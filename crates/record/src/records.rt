// Bodies that passed the checks of their kind.
ghost use Rattle.std.specs.Prelude.{◌≡◌, None, OnOk};
ghost use Rattle.std.specs.Result.{result_err};
ghost use Rattle.instant.specs.Reading.{instant_in};
ghost use Rattle.delivery.specs.Opened.{body_part};
ghost use Rattle.record.specs.Bodies.{field_text};
ghost use Rattle.record.specs.Checking.{refusal_of};
ghost use Rattle.record.specs.Forms.{RefusedByForm};
ghost use Rattle.record.specs.Layouts.{numbering_field, place_field, NumberingStands, PlaceStands};
ghost use Rattle.record.specs.Laid.{Laid};
ghost use Rattle.record.specs.Named.{text_given, NamesTell};
ghost use Rattle.record.specs.Parts.{place_of, reading_from, reading_of};
ghost use Rattle.record.specs.Passing.{accepted_part, passing, LeftToNumbering, Passes};
ghost use Rattle.record.specs.Rules.{RefusedRightly, fields_of};

use crate::described::Described;
use crate::{BodyKind, BodyRefusal, FieldKey, PointBody, RoadBody, Side};
use delivery::Body;
use instant::Instant;
use std::marker::PhantomData;
use territory::{Numbering, NumberingText};

mod parts;

/// A body that passed the checks of its kind; only `check` makes one.
#[derive(Drop)]
pub struct Checked<'a, K: BodyKind> {
    body: Body<'a>,
    kind: PhantomData<K>,
    pub ghost passed: { Passes K.KIND (body_part body) },
}

/// Checks a body of the kind, and refuses it with the first reason that applies.
#[tactic(auto, using(crate::proofs::Refused::refused_rightly, crate::proofs::Refused::refused_by_form, crate::proofs::Passed::accepted_whole, crate::proofs::Passed::passes))]
pub fn check<N: Numbering, K: BodyKind>(body: Body<'_>) -> Result<Checked<'_, K>, BodyRefusal>
    ensures value { accepted_part (λ c. body_part c.body) result ≡ passing N.Numbering.own K.BodyKind.KIND (body_part body.entry) }
    ensures rightly { RefusedRightly N.Numbering.own K.BodyKind.KIND (body_part body.entry) (result_err result) }
    ensures formed { RefusedByForm N.Numbering.own K.BodyKind.KIND (body_part body.entry) (result_err result) }
    ensures unrefused { OnOk result (refusal_of N.Numbering.own K.BodyKind.KIND (body_part body.entry) ≡ None) }
    ensures laid { OnOk result (Laid body.entry.bytes.now (fields_of K.BodyKind.KIND body.entry.bytes.now)) }
    ensures passes { OnOk result (Passes K.BodyKind.KIND (body_part body.entry)) }
{
    let described = Described {
        kind: K::KIND,
        body,
    };
    described.check::<N>()?;
    Ok(Checked {
        body,
        kind: PhantomData,
    })
}

impl<'a, K: BodyKind> Checked<'a, K> {
    /// The text of a field, by its number or its name; empty where there is no such field.
    #[tactic(auto, using(crate::proofs::NamedTexts::names_tell))]
    pub fn text<F: FieldKey>(&self, field: F) -> &'a [u8]
        ensures value { result.now ≡ text_given self.now.body.bytes.now (F.index K.BodyKind.KIND field) }
        ensures names { NamesTell K.BodyKind.KIND self.now.body.bytes.now }
    {
        self.described().text(field)
    }

    /// The instant that a field tells, if it tells one: a DateUpdate, or a retirement's instant.
    pub fn instant<F: FieldKey>(&self, field: F) -> Option<Instant>
        ensures { result ≡ instant_in (text_given self.now.body.bytes.now (F.index K.BodyKind.KIND field)) }
    {
        Instant::read(self.text(field))
    }

    /// The first reason for which the body is refused by another numbering, if any; by its own, there is none.
    #[tactic(auto, using(crate::proofs::LeftOver::left_over))]
    pub fn refusal<N: Numbering>(&self) -> Option<BodyRefusal>
        ensures value { result ≡ refusal_of N.Numbering.own K.BodyKind.KIND (body_part self.now.body) }
        ensures left { LeftToNumbering K.BodyKind.KIND result }
    {
        self.described().check::<N>().err()
    }

    fn described(&self) -> Described<'a>
        ensures kind { result.kind ≡ K.BodyKind.KIND }
        ensures body { body_part result.body ≡ body_part self.now.body }
    {
        Described {
            kind: K::KIND,
            body: self.body,
        }
    }
}

impl Checked<'_, RoadBody> {
    /// The numbering of a side.
    #[tactic(auto, using(crate::proofs::NamedReadings::reading_named))]
    pub fn numbering<N: Numbering>(&self, side: Side) -> Result<N, NumberingText>
        ensures stands { NumberingStands side (numbering_field side) }
        ensures value { result ≡ reading_from N.Numbering.own self.now.body.bytes.now (numbering_field side) }
        ensures named { result ≡ reading_of N.Numbering.own self.now.body.bytes.now side }
    {
        self.described().numbering::<N>(side)
    }
}

impl Checked<'_, PointBody> {
    /// The place of the point.
    #[tactic(auto, using(crate::proofs::NamedReadings::place_named))]
    pub fn place<N: Numbering>(&self) -> Option<N::Point>
        ensures stands { PlaceStands }
        ensures value { result ≡ N.Numbering.place (field_text self.now.body.bytes.now place_field) }
        ensures named { result ≡ place_of N.Numbering.own self.now.body.bytes.now }
    {
        N::read_place(self.text(PLACE_FIELD))
    }
}

const PLACE_FIELD: usize = 13;
