// The texts of fields, each accepted exactly when its form allows: address numbers, NGUIDs,
// and plain texts with their widths and the eight directions. Full names are joined from
// their elements, and texts are compared byte for byte.
#![tactic(auto)]

mod address_number;
mod bytes;
mod field_text;
mod full_name;
mod nguid;

pub use address_number::AddressNumber;
pub use bytes::same_bytes;
pub use field_text::TextField;
pub use full_name::{DoesNotFit, FullName};
pub use nguid::{Layer, Nguid};
