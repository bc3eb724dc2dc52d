ghost use Rattle.std.specs.{Option.SomeIff, Prelude.{◌<◌, ◌^◌, ◌↔◌, ◌≡◌, ◌≤◌, IfSome, IsTrue, length, slice_index}};
ghost use Rattle.std.specs.Str.Parse.{AllDigits, digits_value};
ghost use Rattle.trace_text.specs.{Numbers.{minus, number_up_to, rate_spelled, units_spelled}, Ranges.{IsRate, IsTime}};

use tte_units::{Ppb, Units};

/// The greatest time of a trace, in units of 2^-16 ns.
const LATEST: u64 = 1 << 60;

/// The greatest magnitude of a rate, in parts per 10^9.
const FASTEST: u64 = 1_000_000_000;

// The number of these digits, if it is at most `most`. No digits are 0.
fn value_up_to(most: u64, text: &[u8]) -> Option<u64>
    requires { most ≤ 2 ^ 60 }
    ensures { SomeIff result (AllDigits 10 text.now × (digits_value 10 text.now ≤ most)) (digits_value 10 text.now) }
{
    let mut number = 0;
    'digits: for &digit in text {
        if !digit.is_ascii_digit() {
            return None;
        }
        number = number * 10 + u64::from(digit - b'0');
        if number > most {
            return None;
        }
    }
    Some(number)
}

fn has_leading_zero(text: &[u8]) -> bool
    ensures { IsTrue result ↔ ((1 < length text.now) × (slice_index text.now 0 ≡ 48)) }
{
    text.len() > 1 && text[0] == b'0'
}

// The number whose decimal the text is, without leading zeros, if it is at most `most`.
fn number_up_to(most: u64, text: &[u8]) -> Option<u64>
    requires { most ≤ 2 ^ 60 }
    ensures value { result ≡ number_up_to most text.now }
    ensures most { IfSome result (λ n. n ≤ most) }
{
    if text.is_empty() {
        return None;
    }
    if has_leading_zero(text) {
        return None;
    }
    value_up_to(most, text)
}

/// A time or a delay in decimal, from 0 to 2^60 units.
pub(crate) fn units_spelled(text: &[u8]) -> Option<Units>
    ensures value { result ≡ units_spelled text.now }
    ensures range { IfSome result IsTime }
{
    let number = number_up_to(LATEST, text)?;
    Some(Units::from_amount(number))
}

fn minus(magnitude: u64) -> Option<Ppb>
    requires { magnitude ≤ 1000000000 }
    ensures value { result ≡ minus magnitude }
    ensures range { IfSome result IsRate }
{
    if magnitude == 0 {
        return None;
    }
    Some(Ppb(-(magnitude as i32)))
}

/// A rate in decimal, from -10^9 to 10^9 parts per 10^9. There is no sign before 0.
pub(crate) fn rate_spelled(text: &[u8]) -> Option<Ppb>
    ensures value { result ≡ rate_spelled text.now }
    ensures range { IfSome result IsRate }
{
    let (first, rest) = text.split_first()?;
    if *first == b'-' {
        let magnitude = number_up_to(FASTEST, rest)?;
        return minus(magnitude);
    }
    let number = number_up_to(FASTEST, text)?;
    Some(Ppb(number as i32))
}
