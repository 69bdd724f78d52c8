// The five kinds of body, and the bytes that stand for them in a table of contents.
ghost use Rattle.std.specs.Prelude.{◌≡◌, Some};
ghost use Rattle.std.specs.Result.{result_ok};
ghost use Rattle.promise.specs.Exactly.{Exactly};
ghost use Rattle.delivery.specs.Kinds.{kind_number, kind_or_unknown};
ghost use Rattle.delivery.specs.Texts.{kind_name, unknown_kind_text};

use std::error::Error;
use std::fmt;

/// What a body describes.
#[derive(Clone, Copy, Debug, PartialEq, Eq)]
pub enum Kind {
    Road = 1,
    Alias = 2,
    Point = 3,
    RoadRetirement = 4,
    PointRetirement = 5,
}

/// A number that stands for no kind.
#[derive(Clone, Copy, Debug, PartialEq, Eq)]
pub struct UnknownKind(pub u8);

impl From<Kind> for u8 {
    ghost from_gives = { λ kind number. number ≡ kind_number kind };

    fn from(kind: Kind) -> u8 {
        kind as u8
    }
}

impl TryFrom<u8> for Kind {
    type Error = UnknownKind;

    ghost try_from_gives = { λ number result. result ≡ kind_or_unknown number };

    fn try_from(number: u8) -> Result<Kind, UnknownKind>
        ensures value { result ≡ kind_or_unknown number }
        ensures exactly { Exactly (λ k. kind_number k ≡ number) (result_ok result) }
    {
        match number {
            1 => Ok(Kind::Road),
            2 => Ok(Kind::Alias),
            3 => Ok(Kind::Point),
            4 => Ok(Kind::RoadRetirement),
            5 => Ok(Kind::PointRetirement),
            _ => Err(UnknownKind(number)),
        }
    }
}

impl fmt::Display for Kind {
    ghost output = { λ kind. Some (kind_name kind) };

    fn fmt<W: fmt::Write>(&self, f: &mut fmt::Formatter<W>) -> fmt::Result {
        f.write_str(match self {
            Kind::Road => "road",
            Kind::Alias => "alias",
            Kind::Point => "point",
            Kind::RoadRetirement => "road retirement",
            Kind::PointRetirement => "point retirement",
        })
    }
}

impl fmt::Display for UnknownKind {
    ghost output = { λ unknown. Some (unknown_kind_text unknown) };

    fn fmt<W: fmt::Write>(&self, f: &mut fmt::Formatter<W>) -> fmt::Result {
        write!(f, "no kind has the number {}", self.0)
    }
}

impl Error for UnknownKind {}
