// Ranges and marks: two kinds of numberings whose places are address numbers.
// Where two of a kind meet, they tell the least number that both hold.
#![tactic(auto)]

mod hexadecimal;
mod mark_sets;
mod number_sets;
mod parities;
mod ranges;

pub use mark_sets::Marks;
pub use parities::Parity;
pub use ranges::Range;
