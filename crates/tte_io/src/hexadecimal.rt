ghost use Rattle.std.specs.Prelude.{◌≡◌, ◌<◌, ◌*◌, length, slice_index};
ghost use Rattle.hex.specs.Hex.{encode_lower, lower_digits};

/// The lower-case hexadecimal digit of a number below 16.
fn digit_of(n: u8) -> u8
    requires { n < 16 }
    ensures { result ≡ slice_index lower_digits n }
{
    if n < 10 { n + b'0' } else { n + 87 }
}

/// Spells octets in lower-case hexadecimal, two digits each, into a text of just that room.
pub(crate) fn spell(octets: &[u8], text: &mut [u8])
    requires { length text.old ≡ 2 * length octets.now }
    ensures { text.new ≡ encode_lower octets.now }
{
    'octets: for i in 0..octets.len() {
        let octet = octets[i];
        let high = digit_of(octet >> 4);
        let low = digit_of(octet & 15);
        text[2 * i] = high;
        text[2 * i + 1] = low;
    }
}
