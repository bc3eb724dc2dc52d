ghost use Rattle.std.specs.{List.AllPass, Prelude.length};
ghost use Rattle.std.specs.Prelude.{◌%◌, ◌*◌, ◌/◌, ◌<◌, ◌↔◌, ◌≡◌, ◌≤◌, ◌⊎◌, Err, IfOk, IsFalse, IsTrue, MatchResult};
ghost use Rattle.hex.specs.Hex.{decode_of, is_hex_digit};
ghost use Rattle.trace_text.specs.{Ranges.IsFrame, WordReading.{digit_number, octets_spelled}};

use crate::LineRefusal;
use net_plan::Octets;

/// The shortest frame, in octets without its check sequence.
const SHORTEST: usize = 60;

/// The longest frame, in octets without its check sequence.
const LONGEST: usize = 1514;

fn is_hexadecimal(text: &[u8]) -> bool
    ensures { IsTrue result ↔ ((length text.now % 2 ≡ 0) × AllPass is_hex_digit text.now) }
{
    text.len() % 2 == 0 && text.iter().all(|digit| digit.is_ascii_hexdigit())
}

// The fault of digits for too few or too many octets.
#[tactic(auto, unfolding(crate::specs::WordReading::octets_spelled))]
fn fault(text: &[u8]) -> LineRefusal
    requires { (length text.now / 2 < 60) ⊎ (1514 < length text.now / 2) }
    ensures { octets_spelled text.now ≡ Err result }
{
    if is_hexadecimal(text) {
        LineRefusal::Octets
    } else {
        LineRefusal::Hex
    }
}

/// The value of a hexadecimal digit of either case, and 16 for an octet that is none. Differences that wrap around
/// choose without a branch.
fn digit_value(digit: u8) -> u8
    ensures { result ≡ digit_number digit }
{
    let number = digit.wrapping_sub(b'0');
    let capital = digit.wrapping_sub(b'A');
    let letter = digit.wrapping_sub(b'a');
    if number < 10 {
        number
    } else if capital < 6 {
        capital + 10
    } else if letter < 6 {
        letter + 10
    } else {
        16
    }
}

/// The greatest of three octets.
fn greatest_of(a: u8, b: u8, c: u8) -> u8
    ensures low { result < 16 → (a < 16) × (b < 16) × (c < 16) }
    ensures high { 16 ≤ result → (16 ≤ a) ⊎ ((16 ≤ b) ⊎ (16 ≤ c)) }
{
    let greater = if a < b { b } else { a };
    if greater < c { c } else { greater }
}

/// Reads two digits to each octet, and answers whether all of them are digits. Where they are not, the octets are of
/// no use.
fn decode(text: &[u8], octets: &mut [u8]) -> bool
    requires { length text.now ≡ 2 * length octets.old }
    ensures { MatchResult (decode_of text.now) (λ decoded. IsTrue result
        × (octets.new ≡ decoded)) (λ e. IsFalse result) }
{
    let mut greatest = 0;
    'octets: for i in 0..octets.len() {
        let high = digit_value(text[2 * i]);
        let low = digit_value(text[2 * i + 1]);
        octets[i] = high.wrapping_mul(16).wrapping_add(low);
        greatest = greatest_of(greatest, high, low);
    }
    greatest < 16
}

/// The octets of a frame in hexadecimal digits of either case.
#[tactic(auto, unfolding(crate::specs::WordReading::octets_spelled))]
pub(crate) fn octets_spelled(text: &[u8]) -> Result<Octets, LineRefusal>
    ensures value { result ≡ octets_spelled text.now }
    ensures range { IfOk result IsFrame }
{
    let mut octets = [0; LONGEST];
    let count = text.len() / 2;
    if count < SHORTEST || LONGEST < count {
        return Err(fault(text));
    }
    let octets = &mut octets[..count];
    if text.len() % 2 == 0 && decode(text, octets) {
        Ok(Octets::new(octets))
    } else {
        Err(LineRefusal::Hex)
    }
}
