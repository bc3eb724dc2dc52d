ghost use Rattle.net_plan.specs.Ranges.{IsInRange};

use crate::layout::stray_octets;
use crate::part::{Part, parts_of};
use crate::saying::Hole::{Count, Text};
use crate::saying::filled;
use net_plan::Network;
use std::alloc::Global;
use trace_text::Words;

/// How many octets of a word are shown.
const SHOWN: usize = 32;

/// A word in quotes: its first octets, those that are no letters of ASCII by their numbers.
fn quote(alloc: Global, word: &[u8]) -> Option<String> {
    match word.split_at_checked(SHOWN) {
        Some((shown, _)) => format!(in alloc; "\"{}..\"", shown.escape_ascii()).ok(),
        None => format!(in alloc; "\"{}\"", word.escape_ascii()).ok(),
    }
}

/// What is wrong with a line whatever its words are.
fn layout_fault(text: &[u8]) -> Option<&'static str> {
    if text.is_empty() {
        Some("it is empty; a trace has no blank line")
    } else if text.first() == Some(&b'#') {
        Some(COMMENT)
    } else {
        stray_octets(text)
    }
}

const COMMENT: &str = "it has a comment; a trace has none";

/// That no word stands for a part.
fn missing_word(alloc: Global, place: u32, part: &Part) -> Option<String> {
    filled(
        alloc,
        "word {}, {}, is missing; it must be {}",
        &[Count(place.into()), Text(part.name), Text(part.must_be)],
    )
}

/// What is wrong with a word that may not stand for a part.
fn wrong_word(alloc: Global, place: u32, part: &Part, word: &[u8]) -> Option<String> {
    let place = Count(place.into());
    if word.is_empty() {
        return filled(
            alloc,
            "a space too many stands before word {}; one space stands between two words, none at either end",
            &[place],
        );
    }
    let quote = quote(alloc, word)?;
    filled(
        alloc,
        "word {} is {}; {} must be {}",
        &[
            place,
            Text(quote.as_str()),
            Text(part.name),
            Text(part.must_be),
        ],
    )
}

/// What is wrong with a word behind the last one of an event.
fn surplus_word(alloc: Global, place: u32, word: &[u8]) -> Option<String> {
    match word.first() {
        None => String::from_str(alloc, "a space stands at its end").ok(),
        Some(b'#') => String::from_str(alloc, COMMENT).ok(),
        Some(_) => {
            let quote = quote(alloc, word)?;
            filled(
                alloc,
                "word {}, {}, is one too many",
                &[Count(place.into()), Text(quote.as_str())],
            )
        }
    }
}

/// The word of a line's event, or no octets where it has none.
fn event_of<'t>(text: &'t [u8]) -> &'t [u8] {
    let mut words = Words::of(text);
    let _time = words.next_word();
    words.next_word().unwrap_or(b"")
}

/// Why a line of a trace over a network has no event, by its leftmost wrong word. None where it has one, or where
/// memory runs out.
///
/// The network is in its ranges.
pub(crate) fn line_fault(alloc: Global, network: &Network, text: &[u8]) -> Option<String>
    requires { IsInRange network.now }
{
    if let Some(fault) = layout_fault(text) {
        return String::from_str(alloc, fault).ok();
    }
    let mut words = Words::of(text);
    let mut place = 1u32;
    for part in parts_of(event_of(text)) {
        match words.next_word() {
            Some(word) if part.admits(network, word) => place = place.saturating_add(1),
            Some(word) => return wrong_word(alloc, place, part, word),
            None => return missing_word(alloc, place, part),
        }
    }
    surplus_word(alloc, place, words.next_word()?)
}
