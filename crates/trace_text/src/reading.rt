ghost use Rattle.std.specs.Prelude.{◌≡◌, IfOk, OnOk};
ghost use Rattle.net_plan.specs.{Belonging.IsOfNetwork, Ranges.IsInRange};
ghost use Rattle.trace_text.specs.EventReading.{event_read, what_behind, what_reader};
ghost use Rattle.trace_text.specs.{Ranges.{IsEventInRange, IsWhatInRange}, Steps.{Reads, read_in}};

use crate::LineRefusal;
use crate::event_word::EventWord;
use crate::words::Words;
use net_plan::{Event, Network, What};
use tte_units::Units;

// Reads what befalls the network, and puts it in the place of another. An event is large, so that none is moved.
#[tactic(auto, unfolding(crate::specs::EventReading::what_behind))]
fn what_behind(
    network: &Network,
    word: EventWord,
    words: &mut Words,
    what: &mut What,
) -> Result<(), LineRefusal>
    requires { IsInRange network.now }
    ensures value { Reads (what_behind network.now word words.old) (read_in result what.new) words.new }
    ensures of_network { OnOk result (IsOfNetwork network.now what.new) }
    ensures range { OnOk result (IsWhatInRange what.new) }
{
    match word {
        EventWord::Rate => {
            let device = words.device(network)?;
            *what = What::Rate(device, words.rate()?);
        }
        EventWord::Wire => {
            let link = words.link(network)?;
            let way = words.way()?;
            *what = What::Wire(link, way, words.units()?);
        }
        EventWord::Hold => {
            let link = words.link(network)?;
            let way = words.way()?;
            *what = What::Hold(link, way, words.units()?);
        }
        EventWord::Cut => {
            let link = words.link(network)?;
            *what = What::Cut(link, words.way()?);
        }
        EventWord::Heal => {
            let link = words.link(network)?;
            *what = What::Heal(link, words.way()?);
        }
        EventWord::On => *what = What::On(words.device(network)?),
        EventWord::Break => *what = What::Break(words.device(network)?),
        EventWord::Send => return send_behind(network, words, what),
        EventWord::End => *what = What::End,
    }
    Ok(())
}

// Reads what a broken master sends. Its octets are large, so the other events are read without room for them.
#[inline(never)]
#[tactic(auto, unfolding(crate::specs::EventReading::what_behind))]
fn send_behind(network: &Network, words: &mut Words, what: &mut What) -> Result<(), LineRefusal>
    requires { IsInRange network.now }
    ensures value { Reads (what_behind network.now EventWord.Send words.old) (read_in result what.new) words.new }
    ensures of_network { OnOk result (IsOfNetwork network.now what.new) }
    ensures range { OnOk result (IsWhatInRange what.new) }
{
    let link = words.link(network)?;
    *what = What::Send(link, words.octets()?);
    Ok(())
}

/// Reads what befalls the network: the words of an event's line without its time, up to the line's end. It is put in the
/// place of another, which on an error is of no use.
///
/// The network is in its ranges.
#[tactic(auto, unfolding(crate::specs::EventReading::what_reader))]
pub fn what_in(network: &Network, words: &mut Words, what: &mut What) -> Result<(), LineRefusal>
    requires { IsInRange network.now }
    ensures value { Reads (what_reader network.now words.old) (read_in result what.new) words.new }
    ensures of_network { OnOk result (IsOfNetwork network.now what.new) }
    ensures range { OnOk result (IsWhatInRange what.new) }
{
    let word = words.event_word()?;
    what_behind(network, word, words, what)?;
    words.end()
}

/// Reads a line of a trace, without its LF, to an event, and puts it in the place of another. On an error that one is
/// of no use.
///
/// The network is in its ranges. The line is judged word by word from the left, and the error is
/// the fault of its leftmost wrong word.
#[tactic(auto, unfolding(crate::specs::EventReading::event_read, crate::specs::EventReading::event_reader))]
pub fn line_in(network: &Network, text: &[u8], event: &mut Event) -> Result<(), LineRefusal>
    requires { IsInRange network.now }
    ensures value { read_in result event.new ≡ event_read network.now text.now }
    ensures of_network { OnOk result (IsOfNetwork network.now event.new.what) }
    ensures range { OnOk result (IsEventInRange event.new) }
{
    let mut words = Words::of(text);
    event.time = words.units()?;
    let word = words.event_word()?;
    what_behind(network, word, &mut words, &mut event.what)?;
    words.end()
}

/// Reads a line of a trace, without its LF, to an event.
///
/// The network is in its ranges. The line is judged word by word from the left, and the error is
/// the fault of its leftmost wrong word.
pub fn line(network: &Network, text: &[u8]) -> Result<Event, LineRefusal>
    requires { IsInRange network.now }
    ensures value { result ≡ event_read network.now text.now }
    ensures of_network { IfOk result (λ event. IsOfNetwork network.now event.what) }
    ensures range { IfOk result IsEventInRange }
{
    let mut event = Event {
        time: Units(0),
        what: What::End,
    };
    match line_in(network, text, &mut event) {
        Ok(()) => Ok(event),
        Err(fault) => Err(fault),
    }
}
