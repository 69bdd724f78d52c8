// Texts of a fixed layout.

ghost use Rattle.std.specs.Prelude.{◌≡◌, ◌+◌, ◌<◌, true, length};
ghost use Rattle.instant.specs.Form.{fits, has_form, one_digit, two_digits};

// A 0 of the form stands for any digit, and any other byte for itself.
fn fits(mark: u8, byte: u8) -> bool
    ensures { result ≡ fits mark byte }
{
    if mark == b'0' {
        byte.is_ascii_digit()
    } else {
        byte == mark
    }
}

#[tactic(auto, using(crate::proofs::Shapes::form_by_bytes))]
pub(crate) fn has_form(form: &[u8], text: &[u8]) -> bool
    ensures length { result ≡ true → length text.now ≡ length form.now }
    ensures meaning { result ≡ has_form form.now text.now }
{
    form.len() == text.len() && form.iter().zip(text).all(|(mark, byte)| fits(*mark, *byte))
}

fn one_digit(text: &[u8], place: usize) -> u32
    requires { place < length text.now }
    ensures { result ≡ one_digit text.now place }
{
    u32::from(text[place].saturating_sub(b'0'))
}

pub(crate) fn two_digits(text: &[u8], place: usize) -> u32
    requires { place + 1 < length text.now }
    ensures { result ≡ two_digits text.now place }
{
    10 * one_digit(text, place) + one_digit(text, place + 1)
}
