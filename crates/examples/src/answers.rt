// What the readers make of the texts of an example.
use crate::numberings;
use crate::readings::Reading;
use crate::tables::Texts;
use instant::{Instant, Lifetime};
use numbering::{Marks, Range};
use std::alloc::{AllocError, Global};
use territory::Territory;
use text::{AddressNumber, FullName, Layer, Nguid, TextField};

pub(crate) fn answer(heap: Global, kind: &str, texts: Texts) -> Result<Reading, AllocError> {
    Ok(match kind {
        "name" => full_name(heap, texts)?.map_or(Reading::Refused, Reading::Name),
        "range" => numberings::read(texts).map_or_else(Reading::RefusedAt, Reading::Range),
        "marks" => numberings::read(texts).map_or_else(Reading::RefusedAt, Reading::Marks),
        _ => read(kind, texts).unwrap_or(Reading::Refused),
    })
}

// Each byte of the name is a character of its own.
fn full_name(heap: Global, texts: Texts) -> Result<Option<String>, AllocError> {
    let Some(name) = FullName::of(texts.all()) else {
        return Ok(None);
    };
    let mut text = String::new(heap);
    for byte in name.as_bytes() {
        text.push(char::from(*byte))?;
    }
    Ok(Some(text))
}

fn read(kind: &str, texts: Texts) -> Option<Reading> {
    let text = texts.at(0);
    match kind {
        "date" => Instant::read(text).map(|instant| Reading::Tenths(instant.tenths)),
        "road" => identifier(Layer::Road, text),
        "point" => identifier(Layer::AddressPoint, text),
        "alias" => identifier(Layer::Alias, text),
        "number" => AddressNumber::read(text).map(Reading::Number),
        "lifetimes" => meeting(texts),
        "range holds" => numberings::holds::<Range>(texts),
        "range meets" => numberings::meets::<Range>(texts),
        "marks hold" => numberings::holds::<Marks>(texts),
        "marks meet" => numberings::meets::<Marks>(texts),
        _ => plain(kind, text),
    }
}

fn identifier(layer: Layer, text: &[u8]) -> Option<Reading> {
    let nguid = Nguid::read(layer, text)?;
    Some(Reading::Identifier {
        local: nguid.local.len(),
        agency: nguid.agency.len(),
    })
}

fn meeting(texts: Texts) -> Option<Reading> {
    let one = lifetime(texts)?;
    let other = lifetime(texts.after(2))?;
    Some(
        one.common(&other).map_or(
            Reading::NothingShared,
            |instant| Reading::Tenths(instant.tenths),
        ),
    )
}

fn lifetime(texts: Texts) -> Option<Lifetime> {
    Lifetime::new(
        Instant::read_effective(texts.at(0))?,
        Instant::read_expire(texts.at(1))?,
    )
}

fn plain(kind: &str, text: &[u8]) -> Option<Reading> {
    match field(kind) {
        Some(field) => field.accepts(text).then_some(Reading::Accepted),
        None => Some(Reading::OfNoKind),
    }
}

fn field(kind: &str) -> Option<TextField> {
    match kind {
        "directional" => Some(TextField::PreDirectional),
        "street name" => Some(TextField::StreetName),
        "county" => Some(TextField::County),
        "municipality" => Some(TextField::Municipality),
        "prefix" => Some(TextField::NumberPrefix),
        "suffix" => Some(TextField::NumberSuffix),
        "unit" => Some(TextField::Unit),
        _ => None,
    }
}
