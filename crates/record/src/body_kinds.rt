// The kinds of bodies, as types: a checked body says by its type what it describes.
ghost use Rattle.delivery.specs.declared.kinds.Kind.{Kind as KindOf};
ghost use Rattle.delivery.specs.declared.kinds.Kind.TheVariants.{Road, Alias, Point, RoadRetirement, PointRetirement};

use delivery::Kind;

/// A type that stands for a kind of body.
pub trait BodyKind {
    ghost KIND: { KindOf };

    /// The kind that a table of contents lists the body by.
    const KIND: Kind;
}

/// A road: its name, what each side holds, and its lifetime.
#[derive(Clone, Copy, Debug, PartialEq, Eq)]
pub struct RoadBody;

/// Another name of a road.
#[derive(Clone, Copy, Debug, PartialEq, Eq)]
pub struct AliasBody;

/// An address point: its place on a road, and its lifetime.
#[derive(Clone, Copy, Debug, PartialEq, Eq)]
pub struct PointBody;

/// That a road ends, and when.
#[derive(Clone, Copy, Debug, PartialEq, Eq)]
pub struct RoadRetirementBody;

/// That an address point ends, and when.
#[derive(Clone, Copy, Debug, PartialEq, Eq)]
pub struct PointRetirementBody;

impl BodyKind for RoadBody {
    ghost KIND = { Road };

    const KIND: Kind = Kind::Road;
}

impl BodyKind for AliasBody {
    ghost KIND = { Alias };

    const KIND: Kind = Kind::Alias;
}

impl BodyKind for PointBody {
    ghost KIND = { Point };

    const KIND: Kind = Kind::Point;
}

impl BodyKind for RoadRetirementBody {
    ghost KIND = { RoadRetirement };

    const KIND: Kind = Kind::RoadRetirement;
}

impl BodyKind for PointRetirementBody {
    ghost KIND = { PointRetirement };

    const KIND: Kind = Kind::PointRetirement;
}
