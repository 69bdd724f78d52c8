// The table of contents, as it lies in the bytes.
ghost use Rattle.std.specs.Prelude.{◌≡◌, ◌+◌, ◌^◌, ◌<◌, false, length, if◌then◌else◌, Ok, Err};
ghost use Rattle.std.specs.Result.{result_map_both};
ghost use Rattle.delivery.specs.Contents.{number_at, entry_count, table_end, kind_byte, body_place, body_length};
ghost use Rattle.delivery.specs.Opening.{no_table};

use crate::DeliveryRefusal;
use territory::ByteSpan;

/// The most bytes that a delivery may have.
pub(crate) const MOST_BYTES: usize = 65535;

const MOST_ENTRIES: usize = 4095;

const COUNT_WIDTH: usize = 2;

const LINE_WIDTH: usize = 5;

/// A delivery's table of contents: the bytes have space for the lines that they count.
#[derive(Clone, Copy, Debug)]
pub(crate) struct Table<'a> {
    pub(crate) bytes: &'a [u8],
    pub(crate) count: usize,
    ghost present: { no_table bytes.now ≡ false },
    ghost listed: { count ≡ entry_count bytes.now },
}

/// A line of the table: the number of a kind, and the place and the length of a body.
#[derive(Clone, Copy)]
pub(crate) struct Line {
    pub(crate) kind: u8,
    pub(crate) place: u16,
    pub(crate) length: u16,
}

impl<'a> Table<'a> {
    /// Refuses bytes that count too many lines, or have no space for them.
    pub(crate) fn find(bytes: &'a [u8]) -> Result<Table<'a>, DeliveryRefusal>
        ensures { result_map_both (λ t. t.bytes.now) (λ e. e) result ≡ (if no_table bytes.now then Err DeliveryRefusal.NoTable else Ok bytes.now) }
    {
        if bytes.len() < COUNT_WIDTH || bytes.len() > MOST_BYTES {
            return Err(DeliveryRefusal::NoTable);
        }
        let count = usize::from(number_at(bytes, 0));
        if count > MOST_ENTRIES || bytes.len() < table_end(count) {
            return Err(DeliveryRefusal::NoTable);
        }
        Ok(Table { bytes, count })
    }

    /// Where the table ends, and a body may begin.
    pub(crate) fn end(&self) -> usize
        ensures { result ≡ table_end self.now.count }
    {
        table_end(self.count)
    }

    /// The line of an entry, by the entry's number from 0.
    pub(crate) fn line(&self, number: usize) -> Line
        requires { number < self.now.count }
        ensures kind { result.kind ≡ kind_byte self.now.bytes.now number }
        ensures place { result.place ≡ body_place self.now.bytes.now number }
        ensures length { result.length ≡ body_length self.now.bytes.now number }
    {
        let start = table_end(number);
        Line {
            kind: self.bytes[start],
            place: number_at(self.bytes, start + 1),
            length: number_at(self.bytes, start + 3),
        }
    }
}

impl Line {
    /// The bytes of the body.
    pub(crate) fn span(self) -> ByteSpan
        ensures first { result.first.at ≡ self.place }
        ensures end { result.end.at ≡ self.place + self.length }
    {
        ByteSpan::of_length(self.place, self.length)
    }
}

// Two bytes, the highest first.
fn number_at(bytes: &[u8], at: usize) -> u16
    requires { at + 1 < length bytes.now }
    ensures { result ≡ number_at bytes.now at }
{
    u16::from_be_bytes([bytes[at], bytes[at + 1]])
}

// Where a table of so many entries ends.
fn table_end(count: usize) -> usize
    requires { table_end count < 2 ^ 64 }
    ensures { result ≡ table_end count }
{
    COUNT_WIDTH + LINE_WIDTH * count
}
