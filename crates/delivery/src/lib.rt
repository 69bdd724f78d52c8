// A delivery: a table of contents, and the bodies that it lists.
// Opening one checks the table; an opened delivery gives its entries and their bodies.
#![tactic(auto)]

mod checks;
mod contents;
mod deliveries;
mod entries;
mod fields;
mod kinds;
mod refusals;
mod taken;

pub use deliveries::{Body, Delivery};
pub use entries::{Entries, Entry};
pub use fields::{Field, FieldPastEnd, FieldReader};
pub use kinds::{Kind, UnknownKind};
pub use refusals::DeliveryRefusal;
