ghost use Rattle.std.specs.Prelude.{◌≡◌, ◌≤◌, IfSome};
ghost use Rattle.net_plan.specs.Ranges.{IsWithin};
ghost use Rattle.{trace_text.specs.Numbers.number_up_to, tte_forms.specs.Forms.{vote_form, way_spelled, wire_form}};
ghost use Rattle.tte_forms.specs.Forms.{IsFormInRange, cycles_spelled, form_of, four_words_form, granule_spelled};
ghost use Rattle.tte_forms.specs.Forms.{greatest_granule, one_file_form, stamp_form, storm_form, two_files_form};

use crate::{Word, Words};
use itoa::Buffer;
use net_plan::Way;
use tte_units::Units;

/// The most cycles of a storm.
const MOST_CYCLES: u64 = 100_000;

/// The greatest granule of stamps, in units.
const GREATEST_GRANULE: u64 = 1 << 60;

/// What the words ask for.
#[derive(Drop)]
pub enum Form<'a> {
    /// `show FILE`.
    Show,
    /// `check NETWORK`.
    Check,
    /// `run NETWORK TRACE`.
    Run,
    /// `storm NETWORK SEED CYCLES`.
    Storm {
        seed: u64,
        /// From 1 to 100,000.
        cycles: u32,
    },
    /// `stamp NETWORK TRACE GRANULE`.
    Stamp {
        /// From 1 to 2^60.
        granule: Units,
    },
    /// `audit NETWORK REPORT`.
    Audit,
    /// `capture FILE`.
    Capture,
    /// `wire NETWORK TRACE LINK WAY`.
    Wire {
        link: Word<'a>,
        way: Way,
    },
    /// `vote NETWORK TRACE VL VL VL`.
    Vote {
        first: Word<'a>,
        second: Word<'a>,
        third: Word<'a>,
    },
}

/// The form of a command with one file.
fn one_file_form(command: &str) -> Option<Form<'static>>
    ensures form { result ≡ one_file_form command.now }
    ensures range { IfSome result IsFormInRange }
{
    match command {
        "show" => Some(Form::Show),
        "check" => Some(Form::Check),
        "capture" => Some(Form::Capture),
        _ => None,
    }
}

/// The form of a command with two files.
fn two_files_form(command: &str) -> Option<Form<'static>>
    ensures form { result ≡ two_files_form command.now }
    ensures range { IfSome result IsFormInRange }
{
    match command {
        "run" => Some(Form::Run),
        "audit" => Some(Form::Audit),
        _ => None,
    }
}

/// The number whose decimal the text is, without leading zeros, if it is at most `most`.
pub fn number_up_to(most: u64, text: &str) -> Option<u64>
    ensures value { result ≡ number_up_to most text.now }
    ensures most { IfSome result (λ n. n ≤ most) }
{
    let Ok(number) = text.parse::<u64>() else {
        return None;
    };
    if number > most {
        return None;
    }
    let mut buffer = Buffer::new();
    if buffer.format(number) == text {
        Some(number)
    } else {
        None
    }
}

/// The cycles of a storm, if the text is the decimal of 1 to 100,000, without leading zeros.
pub fn cycles_spelled(text: &str) -> Option<u32>
    ensures value { result ≡ cycles_spelled text.now }
    ensures least { IfSome result (λ n. 1 ≤ n) }
    ensures most { IfSome result (λ n. n ≤ 100000) }
{
    match number_up_to(MOST_CYCLES, text)? {
        0 => None,
        cycles => Some(cycles as u32),
    }
}

/// The form of a storm.
fn storm_form(seed: &str, cycles: &str) -> Option<Form<'static>>
    ensures form { result ≡ storm_form seed.now cycles.now }
    ensures range { IfSome result IsFormInRange }
{
    let seed = number_up_to(u64::MAX, seed)?;
    let cycles = cycles_spelled(cycles)?;
    Some(Form::Storm { seed, cycles })
}

/// The granule of stamps.
fn granule_spelled(text: &str) -> Option<Units>
    ensures value { result ≡ granule_spelled text.now }
    ensures range { IfSome result (IsWithin 1 greatest_granule) }
{
    match number_up_to(GREATEST_GRANULE, text)? {
        0 => None,
        units => Some(Units::from_amount(units)),
    }
}

/// The form of stamps.
fn stamp_form(granule: &str) -> Option<Form<'static>>
    ensures form { result ≡ stamp_form granule.now }
    ensures range { IfSome result IsFormInRange }
{
    let granule = granule_spelled(granule)?;
    Some(Form::Stamp { granule })
}

/// The form of a command with four words, by its first and its last two.
fn four_words_form(command: &str, third: &str, last: &str) -> Option<Form<'static>>
    ensures form { result ≡ four_words_form command.now third.now last.now }
    ensures range { IfSome result IsFormInRange }
{
    match command {
        "storm" => storm_form(third, last),
        "stamp" => stamp_form(last),
        _ => None,
    }
}

/// The way of a link whose word this is.
fn way_spelled(text: &str) -> Option<Way>
    ensures value { result ≡ way_spelled text.now }
{
    match text {
        "up" => Some(Way::Up),
        "down" => Some(Way::Down),
        _ => None,
    }
}

/// The form of a way of a link.
fn wire_form<'a>(command: &str, link: &'a str, way: &str) -> Option<Form<'a>>
    ensures form { result ≡ wire_form command.now link.now way.now }
    ensures range { IfSome result IsFormInRange }
{
    if command != "wire" {
        return None;
    }
    let way = way_spelled(way)?;
    Some(Form::Wire {
        link: Word::of(link),
        way,
    })
}

/// The form of a vote on three virtual links.
fn vote_form<'a>(command: &str, first: &'a str, second: &'a str, third: &'a str) -> Option<Form<'a>>
    ensures form { result ≡ vote_form command.now first.now second.now third.now }
    ensures range { IfSome result IsFormInRange }
{
    if command != "vote" {
        return None;
    }
    Some(Form::Vote {
        first: Word::of(first),
        second: Word::of(second),
        third: Word::of(third),
    })
}

/// The form of the words, if they have one.
pub fn read_form(words: &Words) -> Option<Form<'_>>
    ensures form { result ≡ form_of words.now }
    ensures range { IfSome result IsFormInRange }
{
    let command = words.get(0)?;
    match words.len() {
        2 => one_file_form(command),
        3 => two_files_form(command),
        4 => four_words_form(command, words.get(2)?, words.get(3)?),
        5 => wire_form(command, words.get(3)?, words.get(4)?),
        6 => vote_form(command, words.get(3)?, words.get(4)?, words.get(5)?),
        _ => None,
    }
}
