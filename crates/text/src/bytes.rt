// Bytes of texts: whether two texts are the same, and which bytes a kind of text is made of.
ghost use Rattle.std.specs.Prelude.{◌≡◌, Decides};
ghost use Rattle.std.specs.List.{list_all};
ghost use Rattle.text.specs.Bytes.{is_agency_byte, is_local_byte, is_printable_byte, same_bytes};

/// Whether two texts are the same, byte for byte.
#[tactic(auto, unfolding(crate::specs::Bytes::same_bytes))]
pub fn same_bytes(a: &[u8], b: &[u8]) -> bool
    ensures same { result ≡ same_bytes a.now b.now }
    ensures decides { Decides result (a.now ≡ b.now) }
{
    a == b
}

/// Whether each byte is one that a plain text may have.
pub(crate) fn is_printable(text: &[u8]) -> bool
    ensures { result ≡ list_all is_printable_byte text.now }
{
    text.iter().all(|byte| matches!(byte, b' '..=b'~'))
}

/// Whether each is one that a local identifier may have.
pub(crate) fn is_local(text: &[u8]) -> bool
    ensures { result ≡ list_all is_local_byte text.now }
{
    text.iter()
        .all(|byte| byte.is_ascii_graphic() && *byte != b':')
}

/// Whether each is one that an agency may have.
pub(crate) fn is_agency(text: &[u8]) -> bool
    ensures { result ≡ list_all is_agency_byte text.now }
{
    text.iter().all(|byte| byte.is_ascii_alphanumeric() || matches!(byte, b'-' | b'.'))
}
