// The full name of a street: the elements that are present, joined by one space, within a width.
ghost use Rattle.std.specs.Prelude.{◌≡◌, ◌≤◌, true, [], codes, length, Some, is_ok, is_some};
ghost use Rattle.std.specs.Option.{option_map};
ghost use Rattle.text.specs.Widths.{full_name_width};

use arrayvec::ArrayVec;
use std::error::Error;
use std::fmt;

/// The most bytes that a full name has.
pub(crate) const FULL_NAME_WIDTH: usize = 245;

/// The elements of a street's name that are present, joined by one space.
#[derive(Debug, PartialEq, Eq, Drop)]
pub struct FullName {
    bytes: ArrayVec<u8, FULL_NAME_WIDTH>,
    ghost within: { length bytes.items ≤ full_name_width },
}

/// An element that a full name has no room for.
#[derive(Clone, Copy, Debug, PartialEq, Eq)]
pub struct DoesNotFit;

impl FullName {
    ghost use Rattle.text.specs.FullNames.{Joins, Within, fits, full_name, name_elements, name_of, pushed, separator, texts_of};

    /// A name without an element.
    pub fn new() -> FullName
        ensures { name_of result ≡ [] }
    {
        FullName {
            bytes: ArrayVec::new(),
        }
    }

    /// The full name of the elements, in their order, unless it does not fit.
    pub fn of(elements: &[&[u8]]) -> Option<FullName>
        ensures name { option_map name_of result ≡ full_name (texts_of elements.now) }
        ensures fits { Within name_elements (texts_of elements.now) → is_some result ≡ true }
        ensures joins { Joins }
    {
        let mut name = FullName::new();
        for element in elements {
            name.push(element).ok()?;
        }
        Some(name)
    }

    /// The name as it stands.
    pub fn as_bytes(&self) -> &[u8]
        ensures { result.now ≡ name_of self.now }
    {
        self.bytes.as_slice()
    }

    /// Joins an element to the name. An empty one changes nothing; where one does not fit, nothing changes.
    pub fn push(&mut self, element: &[u8]) -> Result<(), DoesNotFit>
        ensures fits { is_ok result ≡ fits (name_of self.old) element.now }
        ensures name { name_of self.new ≡ pushed (name_of self.old) element.now }
    {
        let separator = self.separator(element);
        if self.bytes.remaining_capacity() < separator.len() + element.len() {
            return Err(DoesNotFit);
        }
        self.bytes.try_extend_from_slice(separator).unwrap();
        self.bytes.try_extend_from_slice(element).unwrap();
        Ok(())
    }

    fn separator(&self, element: &[u8]) -> &'static [u8]
        ensures { result.now ≡ separator (name_of self.now) element.now }
    {
        if self.bytes.is_empty() || element.is_empty() {
            b""
        } else {
            b" "
        }
    }
}

impl Default for FullName {
    ghost use Rattle.text.specs.FullNames.{name_of};

    ghost is_default = { λ name. name_of name ≡ [] };

    fn default() -> FullName {
        FullName::new()
    }
}

impl fmt::Display for DoesNotFit {
    ghost output = { λ _. Some (codes "the element does not fit") };

    fn fmt<W: fmt::Write>(&self, f: &mut fmt::Formatter<W>) -> fmt::Result {
        f.write_str("the element does not fit")
    }
}

impl Error for DoesNotFit {}
