// What a delivery lists, as text for a person: a line for each entry and a closing count,
// or the reason for which the delivery is refused.
#![tactic(auto)]

ghost use Rattle.std.specs.Prelude.{◌≡◌, IfOk, string_bytes};
ghost use Rattle.delivery.specs.Opened.{contents};
ghost use Rattle.inspection.specs.Listing.{listing_of, inspected};

use delivery::Delivery;
use std::alloc::{AllocError, Global};
use std::fmt::Write;

#[tactic(auto, using(crate::proofs::Lines::lines_of_entries))]
fn list_entries(heap: Global, delivery: &Delivery) -> Result<String, AllocError>
    ensures { IfOk result (λ text. string_bytes text ≡ listing_of (contents delivery.now)) }
{
    let mut text = String::new(heap);
    for (number, entry) in delivery.entries().enumerate() {
        writeln!(text, "entry {number}: {entry}")?;
    }
    let count = delivery.entry_count();
    writeln!(text, "{count} entries")?;
    Ok(text)
}

/// What a person is told of these bytes.
pub fn inspect(heap: Global, bytes: &[u8]) -> Result<String, AllocError>
    ensures { IfOk result (λ text. string_bytes text ≡ inspected bytes.now) }
{
    match Delivery::open(bytes) {
        Ok(delivery) => list_entries(heap, &delivery),
        Err(refusal) => format!(in heap; "{refusal}\n"),
    }
}
