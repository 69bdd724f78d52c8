// The checks of a body: that it is whole, that no field is at fault, that it has a lifetime.
ghost use Rattle.std.specs.Prelude.{◌≡◌, ◌<◌, None, Some, IfSome, cond};
ghost use Rattle.std.specs.List.{position};
ghost use Rattle.std.specs.Result.{result_err};
ghost use Rattle.delivery.specs.Opened.{body_part};
ghost use Rattle.record.specs.Checking.{no_lifetime, fault_of, refusal_of};
ghost use Rattle.record.specs.Forms.{RefusedByForm};
ghost use Rattle.record.specs.Judging.{faulty};
ghost use Rattle.record.specs.Laid.{Laid};
ghost use Rattle.record.specs.Layouts.{field_count, layout};
ghost use Rattle.record.specs.Rules.{RefusedRightly, fields_of};
ghost use Rattle.record.specs.declared.refusals.BodyRefusal.TheVariants.{Lifetime};

use crate::described::Described;
use crate::layouts::layout;
use crate::walking::{check_whole, place_at};
use crate::{BodyRefusal, FieldKey, FieldName};
use delivery::{Body, Kind};
use instant::Instant;
use territory::Numbering;

/// The first reason for which the body is refused, if any.
#[tactic(auto, using(crate::proofs::Refused::refused_rightly, crate::proofs::Refused::refused_by_form, crate::proofs::Passed::accepted_whole))]
pub fn refusal<N: Numbering>(kind: Kind, body: Body) -> Option<BodyRefusal>
    ensures value { result ≡ refusal_of N.Numbering.own kind (body_part body.entry) }
    ensures rightly { RefusedRightly N.Numbering.own kind (body_part body.entry) result }
    ensures formed { RefusedByForm N.Numbering.own kind (body_part body.entry) result }
    ensures whole { result ≡ None → Laid body.entry.bytes.now (fields_of kind body.entry.bytes.now) }
{
    Described { kind, body }.check::<N>().err()
}

impl Described<'_> {
    /// The first reason that applies: the walk, then the fields, then the lifetime.
    #[tactic(auto, unfolding(crate::specs::Checking::refusal_of))]
    pub(crate) fn check<N: Numbering>(self) -> Result<(), BodyRefusal>
        ensures { result_err result ≡ refusal_of N.Numbering.own self.entry.kind (body_part self.entry.body) }
    {
        check_whole(self.body, layout(self.kind).len())?;
        self.check_fields::<N>()?;
        self.check_lifetime()
    }

    fn check_fields<N: Numbering>(self) -> Result<(), BodyRefusal>
        ensures { result_err result ≡ fault_of N.Numbering.own self.entry.kind (body_part self.entry.body) }
    {
        match self.first_faulty::<N>() {
            Some(index) => Err(BodyRefusal::Field {
                number: index + 1,
                place: place_at(self.body, index),
            }),
            None => Ok(()),
        }
    }

    fn first_faulty<N: Numbering>(self) -> Option<usize>
        ensures value { result ≡ position (faulty N.Numbering.own self.entry.kind self.entry.body.bytes.now) (layout self.entry.kind) }
        ensures below { IfSome result (λ index. index < field_count self.entry.kind) }
    {
        layout(self.kind)
            .iter()
            .enumerate()
            .position(|(index, name)| self.is_faulty::<N>(*name, index))
    }

    // A kind that has an Effective has its Expire behind it.
    #[tactic(auto, using(crate::proofs::Lifetimes::lifetime_told, crate::proofs::NamedTexts::stands_low))]
    fn check_lifetime(self) -> Result<(), BodyRefusal>
        ensures { result_err result ≡ cond (no_lifetime self.entry.kind self.entry.body.bytes.now) (Some Lifetime) None }
    {
        let Some(index) = FieldName::Effective.index(self.kind) else {
            return Ok(());
        };
        let effective = Instant::read_effective(self.text(index));
        let expire = Instant::read_expire(self.text(index + 1));
        match (effective, expire) {
            (Some(first), Some(end)) if first >= end => Err(BodyRefusal::Lifetime),
            _ => Ok(()),
        }
    }
}
