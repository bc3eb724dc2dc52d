//! The words of a message's line, each with its value.
ghost use Rattle.std.specs.{List.list_all, Prelude.{◌^◌, ◌≡◌, ◌≤◌, IfOk, IfSome, IsTrue}};
ghost use Rattle.net_plan.specs.{NameText.{IsNameText, is_name_character}, Places.IsEndSystem, Ranges.IsInRange};
ghost use Rattle.lens_plan.specs.messages.Steps.{Reads};
ghost use Rattle.lens_plan.specs.messages.Values.{end_system_spelled, in_unit, is_end, is_name_text, number_between, period_spelled};
ghost use Rattle.lens_plan.specs.messages.Values.{time_spelled};
ghost use Rattle.lens_plan.specs.messages.Words.{end_system, number, period, time};

use crate::MessageRefusal;
use crate::messages::line::MessageWords;
use net_plan::{DeviceId, Network};
use trace_text::device_spelled;
use tte_forms::number_up_to;

/// The latest place in a cycle, in units.
const LATEST: u64 = 1 << 40;

/// A nanosecond, a microsecond and a millisecond in units.
const NS: u64 = 65_536;

const US: u64 = 65_536_000;

const MS: u64 = 65_536_000_000;

/// The number of this decimal without leading zeros, if it is from `least` to `most`.
#[tactic(auto, using(crate::proofs::Decimals::none_spelled), unfolding(crate::specs::messages::Values::number_between))]
pub(crate) fn number_between(least: u64, most: u64, text: &[u8]) -> Option<u64>
    ensures value { result ≡ number_between least most text.now }
    ensures least { IfSome result (λ n. least ≤ n) }
    ensures most { IfSome result (λ n. n ≤ most) }
{
    let Ok(text) = str::from_utf8(text) else {
        return None;
    };
    let number = number_up_to(most, text)?;
    if number < least {
        return None;
    }
    Some(number)
}

/// So many of the unit, in units of 2^-16 ns, if that is at most `most`.
#[tactic(auto, unfolding(crate::specs::messages::Values::in_unit))]
fn in_unit(most: u64, unit: u64, digits: &[u8]) -> Option<u64>
    requires { 1 ≤ unit }
    ensures value { result ≡ in_unit most unit digits.now }
    ensures most { IfSome result (λ n. n ≤ most) }
{
    let number = number_between(0, most / unit, digits)?;
    Some(number * unit)
}

/// The time that the text spells, in units of 2^-16 ns, if it is at most `most`: a number of units, or of ns, us or ms
/// with that word right behind it, without leading zeros.
#[tactic(auto, unfolding(crate::specs::messages::Values::time_spelled))]
pub fn time_spelled(most: u64, text: &[u8]) -> Option<u64>
    ensures value { result ≡ time_spelled most text.now }
    ensures most { IfSome result (λ n. n ≤ most) }
{
    let (digits, unit) = text.split_at(text.len().saturating_sub(2));
    if unit == b"ns".as_slice() {
        in_unit(most, NS, digits)
    } else if unit == b"us".as_slice() {
        in_unit(most, US, digits)
    } else if unit == b"ms".as_slice() {
        in_unit(most, MS, digits)
    } else {
        in_unit(most, 1, text)
    }
}

/// The period of this decimal: a power of two up to 64.
#[tactic(auto, unfolding(crate::specs::messages::Values::period_spelled))]
fn period_spelled(text: &[u8]) -> Option<u32>
    ensures value { result ≡ period_spelled text.now }
    ensures some { IfSome result (λ n. 1 ≤ n) }
{
    let number = number_between(1, 64, text)?;
    if 64 % number == 0 {
        Some(number as u32)
    } else {
        None
    }
}

/// Is the text a name: 1 to 16 lower-case ASCII letters, digits or `_`?
#[tactic(auto, unfolding(crate::specs::messages::Values::is_name_text))]
pub fn is_name_text(text: &[u8]) -> bool
    ensures value { result ≡ is_name_text text.now }
    ensures meaning { IsTrue result → IsNameText text.now }
{
    !text.is_empty() && text.len() <= 16 && has_name_characters(text)
}

/// Are the octets all characters of names?
fn has_name_characters(text: &[u8]) -> bool
    ensures { result ≡ list_all is_name_character text.now }
{
    text.iter().all(|octet| octet.is_ascii_lowercase() || octet.is_ascii_digit() || *octet == b'_')
}

/// Is the device an end system?
pub(crate) fn is_end_system(network: &Network, device: DeviceId) -> bool
    ensures { result ≡ is_end network.now device }
{
    match network.device.as_slice().get(device.0 as usize) {
        Some(found) => found.role.is_end_system(),
        None => false,
    }
}

/// The end system of this name.
#[tactic(auto, using(crate::proofs::Courses::end_is), unfolding(crate::specs::messages::Values::end_system_spelled))]
pub(crate) fn end_system_spelled(network: &Network, text: &[u8]) -> Option<DeviceId>
    requires { IsInRange network.now }
    ensures value { result ≡ end_system_spelled network.now text.now }
    ensures ends { IfSome result (IsEndSystem network.now) }
{
    let device = device_spelled(network, text)?;
    if is_end_system(network, device) {
        Some(device)
    } else {
        None
    }
}

impl<'a> MessageWords<'a> {
    /// A number from `least` to `most`.
    #[tactic(auto, unfolding(crate::specs::messages::Words::number))]
    pub(crate) fn number(&mut self, least: u64, most: u64) -> Result<u64, MessageRefusal>
        ensures value { Reads (number least most self.old) result self.new }
        ensures least { IfOk result (λ n. least ≤ n) }
        ensures most { IfOk result (λ n. n ≤ most) }
    {
        let text = self.word()?;
        number_between(least, most, text).ok_or(MessageRefusal::Number)
    }

    /// A place in the cycle.
    #[tactic(auto, unfolding(crate::specs::messages::Words::time))]
    pub(crate) fn time(&mut self) -> Result<u64, MessageRefusal>
        ensures value { Reads (time self.old) result self.new }
        ensures most { IfOk result (λ n. n ≤ 2 ^ 40) }
    {
        let text = self.word()?;
        time_spelled(LATEST, text).ok_or(MessageRefusal::Number)
    }

    /// A period.
    #[tactic(auto, unfolding(crate::specs::messages::Words::period))]
    pub(crate) fn period(&mut self) -> Result<u32, MessageRefusal>
        ensures value { Reads (period self.old) result self.new }
        ensures some { IfOk result (λ n. 1 ≤ n) }
    {
        let text = self.word()?;
        period_spelled(text).ok_or(MessageRefusal::Number)
    }

    /// An end system's name.
    #[tactic(auto, unfolding(crate::specs::messages::Words::end_system))]
    pub(crate) fn end_system(&mut self, network: &Network) -> Result<DeviceId, MessageRefusal>
        requires { IsInRange network.now }
        ensures value { Reads (end_system network.now self.old) result self.new }
        ensures ends { IfOk result (IsEndSystem network.now) }
    {
        let text = self.word()?;
        end_system_spelled(network, text).ok_or(MessageRefusal::Name)
    }
}
