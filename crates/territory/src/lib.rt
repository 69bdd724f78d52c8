// What a set of points is: the traits `Territory`, `Bound` and `Numbering` with their laws,
// and the kinds that every later crate builds from: stretches over any bound, singles, pairs.
#![tactic(auto)]

mod bounds;
mod byte_places;
mod intervals;
mod numberings;
mod pairs;
mod singles;
mod stretches;
mod territories;

pub use bounds::Bound;
pub use byte_places::BytePlace;
pub use intervals::{ByteSpan, Interval};
pub use numberings::{Numbering, NumberingText, PLACE_WIDTH};
pub use pairs::Pair;
pub use singles::{Agree, Single};
pub use stretches::Stretch;
pub use territories::Territory;
