// Which bytes of a delivery the bodies so far have taken.
ghost use Rattle.std.specs.Prelude.{◌≡◌, ℕ, ◌≤◌, false, Decides, slice_index_or};
ghost use Rattle.delivery.specs.Opening.{most_bytes};
ghost use Rattle.delivery.specs.Taken.{Free, taken_also};

use crate::contents::MOST_BYTES;
use territory::ByteSpan;

/// A mark for each byte that a delivery may have.
#[derive(Drop)]
pub(crate) struct Taken {
    marks: [bool; MOST_BYTES],
}

impl Taken {
    /// No byte is taken.
    pub(crate) fn none() -> Taken
        ensures { (b : ℕ) → slice_index_or result.marks b false ≡ false }
    {
        Taken {
            marks: [false; MOST_BYTES],
        }
    }

    /// Takes the bytes of a span, and tells whether all of them were free.
    pub(crate) fn take(&mut self, span: ByteSpan) -> bool
        requires { span.end.at ≤ most_bytes }
        ensures free { Decides result (Free self.old.marks span.first.at span.end.at) }
        ensures taken { (b : ℕ) → slice_index_or self.new.marks b false ≡ taken_also self.old.marks span.first.at span.end.at b }
    {
        let marks = &mut self.marks[span.first().at..span.end().at];
        let free = !marks.contains(&true);
        marks.fill(true);
        free
    }
}
