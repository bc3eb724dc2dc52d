ghost use Rattle.std.specs.Prelude.{◌<◌, ◌∷◌, ◌≡◌, IfOk, IfSome, MatchOption, MatchResult, [], length, position};
ghost use Rattle.net_plan.specs.{Belonging.{HasDevice, HasLink}, Ranges.IsInRange};
ghost use Rattle.trace_text.specs.{Ranges.{IsFrame, IsRate, IsTime}, Steps.{Reads, is_space, line_end, words}};
ghost use Rattle.trace_text.specs.WordReading.{device, event_word, link, octets, rate, units, way};
ghost use Rattle.trace_text.specs.declared.refusal.LineRefusal.TheVariants.{Form};

use crate::LineRefusal;
use crate::event_word::{EventWord, way_spelled};
use crate::frames::octets_spelled;
use crate::names::{device_spelled, link_spelled};
use crate::numbers::{rate_spelled, units_spelled};
use memchr::memchr;
use net_plan::{DeviceId, LinkId, Network, Octets, Way};
use std::marker::Model;
use tte_units::{Ppb, Units};

fn first_space(text: &[u8]) -> Option<usize>
    ensures place { result ≡ position is_space text.now }
    ensures within { IfSome result (λ place. place < length text.now) }
{
    memchr(b' ', text)
}

/// The words of a line, the texts between its spaces, to be read from the left. Each reader of a
/// word tells that the line's form is wrong where the line has ended.
#[derive(Drop)]
pub struct Words<'a> {
    // It is None where the line has ended.
    left: Option<&'a [u8]>,
}

impl<'a> Model for Words<'a> {
    ghost use Rattle.std.specs.Prelude.{ℕ, List};
    ghost use Rattle.trace_text.specs.WordsLeft.{words_left};

    ghost Value = { List (List ℕ) };

    ghost view = { λ w. words_left w.left };
}

impl<'a> Words<'a> {
    /// The words of a line.
    pub fn of(line: &'a [u8]) -> Words<'a>
        ensures { result ≡ words line.now }
    {
        Words { left: Some(line) }
    }

    /// The next word. It is None where the line has ended.
    pub fn next_word(&mut self) -> Option<&'a [u8]>
        ensures { MatchOption result ((self.old ≡ []) × (self.new ≡ [])) (λ word. self.old ≡ word.now ∷ self.new) }
    {
        let left = self.left?;
        match first_space(left) {
            Some(place) => {
                self.left = Some(&left[place + 1..]);
                Some(&left[..place])
            }
            None => {
                self.left = None;
                Some(left)
            }
        }
    }

    fn word(&mut self) -> Result<&'a [u8], LineRefusal>
        ensures { MatchResult result (λ word. self.old ≡ word.now ∷ self.new) (λ e. (self.old ≡ []) × (self.new ≡ [])
            × (e ≡ Form)) }
    {
        match self.next_word() {
            Some(word) => Ok(word),
            None => Err(LineRefusal::Form),
        }
    }

    /// The word of an event.
    #[tactic(auto, unfolding(crate::specs::WordReading::event_word))]
    pub(crate) fn event_word(&mut self) -> Result<EventWord, LineRefusal>
        ensures { Reads (event_word self.old) result self.new }
    {
        let text = self.word()?;
        EventWord::spelled(text).ok_or(LineRefusal::Form)
    }

    /// A time or a delay.
    #[tactic(auto, unfolding(crate::specs::WordReading::units))]
    pub(crate) fn units(&mut self) -> Result<Units, LineRefusal>
        ensures value { Reads (units self.old) result self.new }
        ensures range { IfOk result IsTime }
    {
        let text = self.word()?;
        units_spelled(text).ok_or(LineRefusal::Number)
    }

    /// A rate.
    #[tactic(auto, unfolding(crate::specs::WordReading::rate))]
    pub(crate) fn rate(&mut self) -> Result<Ppb, LineRefusal>
        ensures value { Reads (rate self.old) result self.new }
        ensures range { IfOk result IsRate }
    {
        let text = self.word()?;
        rate_spelled(text).ok_or(LineRefusal::Number)
    }

    /// The first device of a name.
    #[tactic(auto, unfolding(crate::specs::WordReading::device))]
    pub(crate) fn device(&mut self, network: &Network) -> Result<DeviceId, LineRefusal>
        requires { IsInRange network.now }
        ensures value { Reads (device network.now self.old) result self.new }
        ensures of_network { IfOk result (HasDevice network.now) }
    {
        let text = self.word()?;
        device_spelled(network, text).ok_or(LineRefusal::Name)
    }

    /// The first link of a name.
    #[tactic(auto, unfolding(crate::specs::WordReading::link))]
    pub(crate) fn link(&mut self, network: &Network) -> Result<LinkId, LineRefusal>
        requires { IsInRange network.now }
        ensures value { Reads (link network.now self.old) result self.new }
        ensures of_network { IfOk result (HasLink network.now) }
    {
        let text = self.word()?;
        link_spelled(network, text).ok_or(LineRefusal::Name)
    }

    /// A way of a link.
    #[tactic(auto, unfolding(crate::specs::WordReading::way))]
    pub(crate) fn way(&mut self) -> Result<Way, LineRefusal>
        ensures { Reads (way self.old) result self.new }
    {
        let text = self.word()?;
        way_spelled(text).ok_or(LineRefusal::Form)
    }

    /// The octets of a frame. They need room, which is cleared at each call, so that other words do without.
    #[inline(never)]
    #[tactic(auto, unfolding(crate::specs::WordReading::octets))]
    pub(crate) fn octets(&mut self) -> Result<Octets, LineRefusal>
        ensures value { Reads (octets self.old) result self.new }
        ensures range { IfOk result IsFrame }
    {
        let text = self.word()?;
        octets_spelled(text)
    }

    /// That no word is left.
    #[tactic(auto, unfolding(crate::specs::Steps::line_end))]
    pub(crate) fn end(&mut self) -> Result<(), LineRefusal>
        ensures { Reads (line_end self.old) result self.new }
    {
        match self.next_word() {
            None => Ok(()),
            Some(_) => Err(LineRefusal::Form),
        }
    }
}
