// The bodies of a delivery: the layout of each kind, the checks of its fields with the first reason that applies,
// and checked bodies, which say by their type what they describe and give their texts, names, numberings, places and times.
#![tactic(auto)]

mod body_kinds;
mod checking;
mod described;
mod field_keys;
mod field_names;
mod judging;
mod layouts;
mod records;
mod refusals;
mod walking;

pub use body_kinds::{
    AliasBody, BodyKind, PointBody, PointRetirementBody, RoadBody, RoadRetirementBody,
};
pub use checking::refusal;
pub use field_keys::FieldKey;
pub use field_names::{FieldName, Side};
pub use records::{Checked, check};
pub use refusals::BodyRefusal;
