// Hexadecimal numbers of 64 bits.
ghost use Rattle.std.specs.Prelude.{◌≡◌};
ghost use Rattle.numbering.specs.Hexadecimal.{hex_digit, hex_number};

const DIGIT_COUNT: usize = 16;

/// The number of exactly 16 digits, the highest first.
pub(crate) fn read_hexadecimal(text: &[u8]) -> Option<u64>
    ensures { result ≡ hex_number text.now }
{
    if text.len() != DIGIT_COUNT {
        return None;
    }
    let mut number = 0;
    for byte in text {
        number = number * 16 + read_digit(*byte)?;
    }
    Some(number)
}

fn read_digit(byte: u8) -> Option<u64>
    ensures { result ≡ hex_digit byte }
{
    match byte {
        b'0'..=b'9' => Some(u64::from(byte - b'0')),
        b'A'..=b'F' => Some(u64::from(byte - b'A') + 10),
        _ => None,
    }
}
