// Lines of a table: KIND "TEXT" "TEXT" .. = EXPECTED. Any other line is a heading.
use std::alloc::{AllocError, Global};

#[derive(Drop)]
pub(crate) struct Example<'a> {
    pub kind: &'a str,
    texts: Vec<&'a [u8]>,
    // The texts as the line has them, but for the first and the last quotation mark.
    pub shown: &'a str,
    pub expected: &'a str,
}

impl<'a> Example<'a> {
    pub(crate) fn read(heap: Global, line: &'a str) -> Result<Option<Example<'a>>, AllocError> {
        let Some((kind, rest)) = line.split_once(" \"") else {
            return Ok(None);
        };
        let Some((shown, expected)) = rest.split_once("\" = ") else {
            return Ok(None);
        };
        let texts = shown
            .split("\" \"")
            .map(|text| text.as_bytes())
            .collect(heap)?;
        Ok(Some(Example {
            kind,
            texts,
            shown,
            expected,
        }))
    }

    pub(crate) fn texts(&self) -> Texts<'_> {
        Texts {
            texts: self.texts.as_slice(),
        }
    }
}

/// Texts in a row. One past the last is empty.
#[derive(Clone, Copy)]
pub(crate) struct Texts<'a> {
    texts: &'a [&'a [u8]],
}

impl<'a> Texts<'a> {
    pub(crate) fn all(self) -> &'a [&'a [u8]] {
        self.texts
    }

    pub(crate) fn at(self, place: usize) -> &'a [u8] {
        self.texts.get(place).copied().unwrap_or(b"")
    }

    // The texts after so many of them.
    pub(crate) fn after(self, count: usize) -> Texts<'a> {
        Texts {
            texts: self.texts.get(count..).unwrap_or(&[]),
        }
    }
}
