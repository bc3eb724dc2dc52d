ghost use Rattle.std.specs.{Fmt.signed_decimal, Io.KnownBytes.Appends};
ghost use Rattle.std.specs.Prelude.{◌++◌, ◌+◌, ◌∷◌, ◌≡◌, ◌≤◌, OnErr, OnOk, length};
ghost use Rattle.net_plan.specs.{Belonging.{HasDevice, HasLink, IsOfNetwork, device_name, link_name}, Ranges.IsInRange};
ghost use Rattle.tte_io.specs.{Faults.{Rose, next_count}, Line.line_limit, Told.AppendsFront};
ghost use Rattle.trace_text.specs.EventLine.{event_line, longest_text, what_text};
ghost use Rattle.trace_text.specs.{EventWords.{event_word_text, way_text}, Steps.space};

use crate::event_word::{EventWord, way_text};
use net_plan::{DeviceId, Event, LinkId, Network, Way, What};
use std::marker::Model;
use tte_io::{LineText, Sink, SinkFailed};

/// The text of an event behind its time, kept in place.
#[derive(Drop)]
pub struct EventText {
    text: LineText,
}

impl Model for EventText {
    ghost use Rattle.std.specs.Prelude.{ℕ, ◌≤◌, List, length};
    ghost use Rattle.trace_text.specs.EventLine.{longest_text};

    ghost Value = { List ℕ };

    ghost view = { λ t. t.text };

    ghost invariant = { λ t. length t.text ≤ longest_text };
}

impl EventText {
    /// The text: at most 3,050 octets.
    pub fn as_slice(&self) -> &[u8]
        ensures value { result.now ≡ self.now }
        ensures short { length result.now ≤ longest_text }
    {
        self.text.as_slice()
    }
}

fn push_number(line: &mut LineText, number: i64)
    requires { length line.old + 21 ≤ line_limit }
    ensures text { line.new ≡ line.old ++ signed_decimal number }
    ensures grows { length line.new ≤ length line.old + 21 }
{
    if number < 0 {
        line.push("-");
    }
    line.push_decimal(number.unsigned_abs());
}

fn push_of_device(line: &mut LineText, word: EventWord, network: &Network, device: DeviceId)
    requires in_range { IsInRange network.now }
    requires of_network { HasDevice network.now device }
    requires room { length line.old + 22 ≤ line_limit }
    ensures text { line.new ≡ line.old ++ (event_word_text word ++ space ∷ device_name network.now device) }
    ensures grows { length line.new ≤ length line.old + 22 }
{
    line.push(word.text());
    line.push(" ");
    line.append(network.device_name(device));
}

fn push_of_link(line: &mut LineText, word: EventWord, network: &Network, link: LinkId)
    requires in_range { IsInRange network.now }
    requires of_network { HasLink network.now link }
    requires room { length line.old + 22 ≤ line_limit }
    ensures text { line.new ≡ line.old ++ (event_word_text word ++ space ∷ link_name network.now link) }
    ensures grows { length line.new ≤ length line.old + 22 }
{
    line.push(word.text());
    line.push(" ");
    line.append(network.link_name(link));
}

fn push_of_way(line: &mut LineText, word: EventWord, network: &Network, link: LinkId, way: Way)
    requires in_range { IsInRange network.now }
    requires of_network { HasLink network.now link }
    requires room { length line.old + 27 ≤ line_limit }
    ensures text { line.new ≡ line.old
        ++ (event_word_text word ++ space ∷ (link_name network.now link ++ space ∷ way_text way)) }
    ensures grows { length line.new ≤ length line.old + 27 }
{
    push_of_link(line, word, network, link);
    line.push(" ");
    line.push(way_text(way));
}

/// Adds the text of what befalls the network, which takes at most 3,050 octets.
///
/// The network is in its ranges, and the device and the link are its own.
#[tactic(auto, unfolding(crate::specs::EventLine::what_text))]
pub fn push_what(line: &mut LineText, network: &Network, what: &What)
    requires in_range { IsInRange network.now }
    requires of_network { IsOfNetwork network.now what.now }
    requires room { length line.old + longest_text ≤ line_limit }
    ensures text { line.new ≡ line.old ++ what_text network.now what.now }
    ensures grows { length line.new ≤ length line.old + longest_text }
{
    match what {
        What::Rate(device, rate) => {
            push_of_device(line, EventWord::Rate, network, *device);
            line.push(" ");
            push_number(line, rate.0.into());
        }
        What::Wire(link, way, delay) => {
            push_of_way(line, EventWord::Wire, network, *link, *way);
            line.push(" ");
            push_number(line, delay.0);
        }
        What::Hold(link, way, delay) => {
            push_of_way(line, EventWord::Hold, network, *link, *way);
            line.push(" ");
            push_number(line, delay.0);
        }
        What::Cut(link, way) => push_of_way(line, EventWord::Cut, network, *link, *way),
        What::Heal(link, way) => push_of_way(line, EventWord::Heal, network, *link, *way),
        What::On(device) => push_of_device(line, EventWord::On, network, *device),
        What::Break(device) => push_of_device(line, EventWord::Break, network, *device),
        What::Send(link, octets) => {
            push_of_link(line, EventWord::Send, network, *link);
            line.push(" ");
            line.push_hex(octets.as_slice());
        }
        What::End => line.push(EventWord::End.text()),
    }
}

/// The text of what befalls the network: an event's line without its time and the space behind it.
///
/// The network is in its ranges, and the device and the link are its own.
pub fn event_text(network: &Network, what: &What) -> EventText
    requires in_range { IsInRange network.now }
    requires of_network { IsOfNetwork network.now what.now }
    ensures { result ≡ what_text network.now what.now }
{
    let mut text = LineText::new();
    push_what(&mut text, network, what);
    EventText { text }
}

fn event_line(network: &Network, event: &Event) -> LineText
    requires in_range { IsInRange network.now }
    requires of_network { IsOfNetwork network.now event.now.what }
    ensures { result ≡ event_line network.now event.now }
{
    let mut line = LineText::new();
    push_number(&mut line, event.time.0);
    line.push(" ");
    push_what(&mut line, network, &event.what);
    line.push("\n");
    line
}

/// Puts an event's line, ended by LF, in one put.
///
/// The network is in its ranges, and the event's device and link are its own.
pub fn print<K: Sink>(network: &Network, event: &Event, out: &mut K) -> Result<(), SinkFailed>
    requires in_range { IsInRange network.now }
    requires of_network { IsOfNetwork network.now event.now.what }

    ensures all { OnOk result (Appends (K.written out.old) (K.written out.new) (event_line network.now event.now)) }
    ensures front { OnErr result
        (AppendsFront (K.written out.old) (K.written out.new) (event_line network.now event.now)) }
    ensures counted { K.puts out.new ≡ next_count (K.puts out.old) }

    ensures never_falls { K.faults out.old ≤ K.faults out.new }
    ensures ok_unchanged { OnOk result (K.faults out.new ≡ K.faults out.old) }
    ensures failed_rose { OnErr result (Rose (K.faults out.old) (K.faults out.new)) }
{
    let line = event_line(network, event);
    out.put(line.as_slice())
}
