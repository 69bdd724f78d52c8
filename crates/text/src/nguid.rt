// NGUIDs: identifiers of roads, address points and aliases, made unique by a layer, a local identifier and an agency.
ghost use Rattle.promise.specs.Exactly.{Exactly};
ghost use Rattle.std.specs.Option.{option_map};
ghost use Rattle.text.specs.Nguids.{NguidText, colon_split, has_form, layer_text, parts_of, read_nguid};
ghost use Rattle.std.specs.Prelude.{◌≡◌, ◌==◌, position};

use crate::bytes::{is_agency, is_local};

const NGUID_WIDTH: usize = 254;

const FRONT: &[u8] = b"urn:emergency:uid:gis:";

/// What an NGUID identifies.
#[derive(Clone, Copy, Debug, PartialEq, Eq)]
pub enum Layer {
    Road,
    AddressPoint,
    Alias,
}

impl Layer {
    /// The layer as an NGUID writes it.
    pub fn text(self) -> &'static [u8]
        ensures { result.now ≡ layer_text self }
    {
        match self {
            Layer::Road => b"RCL",
            Layer::AddressPoint => b"SSAP",
            Layer::Alias => b"SNA",
        }
    }
}

/// The parts of an NGUID that tell it from the others of its layer.
#[derive(Clone, Copy, Debug, PartialEq, Eq)]
pub struct Nguid<'a> {
    pub local: &'a [u8],
    pub agency: &'a [u8],
}

impl<'a> Nguid<'a> {
    /// Reads an NGUID of the layer: the fixed front, the layer, a colon, a local identifier, a colon and an agency.
    #[tactic(auto, using(crate::proofs::NguidLaws::nguid_exactly), unfolding(crate::specs::Nguids::read_nguid, crate::specs::Nguids::nguid_front, crate::specs::Nguids::after))]
    pub fn read(layer: Layer, text: &'a [u8]) -> Option<Nguid<'a>>
        ensures reads { option_map parts_of result ≡ read_nguid layer text.now }
        ensures exactly { Exactly (NguidText layer text.now) (option_map parts_of result) }
    {
        if text.len() > NGUID_WIDTH {
            return None;
        }
        let rest = text.strip_prefix(FRONT)?;
        let rest = rest.strip_prefix(layer.text())?;
        let rest = rest.strip_prefix(b":")?;
        Nguid::split_at_colon(rest).filter(|nguid| nguid.has_form())
    }

    #[tactic(auto, unfolding(crate::specs::Nguids::colon_split))]
    fn split_at_colon(text: &'a [u8]) -> Option<Nguid<'a>>
        ensures { option_map parts_of result ≡ colon_split text.now }
    {
        let colon = first_colon(text)?;
        Some(Nguid {
            local: &text[..colon],
            agency: &text[colon + 1..],
        })
    }

    fn has_form(self) -> bool
        ensures { result ≡ has_form (parts_of self.entry) }
    {
        !self.local.is_empty()
            && !self.agency.is_empty()
            && is_local(self.local)
            && is_agency(self.agency)
    }
}

fn first_colon(text: &[u8]) -> Option<usize>
    ensures { result ≡ position (λ byte. byte == 58) text.now }
{
    text.iter().position(|byte| *byte == b':')
}
