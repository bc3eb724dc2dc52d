//! The words of the program `lens` and their forms.

ghost use Rattle.std.specs.Prelude.{◌≡◌, ◌≤◌, IfSome};
ghost use Rattle.std.specs.{Char.is_ascii_digit, List.list_all};
ghost use Rattle.lens_slack.specs.Inequalities.{IsInequality};
ghost use Rattle.lens.specs.Forms.{IsFormInRange, IsPartInRange, cycle_part, draw_form, events_form, five_words_form, is_number};
ghost use Rattle.lens.specs.Forms.{is_unit, named_by, reads_as_time, six_words_form, times_part, two_words_form};
ghost use Rattle.lens.specs.Forms.{form_of, four_words_form, inequality_spelled, network_form};
ghost use Rattle.lens.specs.Forms.{number_spelled, slack_of_form, three_words_form, why_form};

use lens_plan::{is_name_text, time_spelled};
use schedule_tables::Rule;
use tte_forms::{Word, Words, cycles_spelled, number_up_to};

/// The greatest number of a cycle that is drawn.
const GREATEST_CYCLE: u64 = 1 << 20;

/// What the words ask for.
#[derive(Drop)]
pub enum Form<'a> {
    /// `slack NETWORK`.
    Slack,
    /// `slack NETWORK RULE`, of a rule that is an inequality.
    SlackOf(Rule),
    /// `least NETWORK`.
    Least,
    /// `sheet NETWORK`.
    Sheet,
    /// `latency NETWORK`.
    Latency,
    /// `draw NETWORK`.
    Schedule,
    /// `plan NETWORK MESSAGES`.
    Plan,
    /// A command, a network, a report, and what is asked of that.
    Report(Question),
    /// `draw NETWORK REPORT CYCLE NAME` or `draw NETWORK REPORT FROM TO NAME`.
    DrawNamed {
        part: RunPart,
        name: Word<'a>,
    },
    /// `events NETWORK SEED CYCLES`.
    Events {
        seed: u64,
        /// From 1 to 100,000.
        cycles: u32,
    },
}

/// What is asked of a finished report.
#[derive(Clone, Copy, PartialEq, Eq)]
pub enum Question {
    /// `why NETWORK REPORT N`.
    Why {
        /// At least 1.
        number: u64,
    },
    /// `draw NETWORK REPORT`.
    DrawWhole,
    /// `draw NETWORK REPORT CYCLE` or `draw NETWORK REPORT FROM TO`.
    Draw(RunPart),
    /// `page NETWORK REPORT`.
    Page,
    /// `flows NETWORK REPORT`.
    Flows,
    /// `latency NETWORK REPORT`.
    LatencySeen,
    /// `clocks NETWORK REPORT`.
    Clocks,
}

/// A part of a run.
#[derive(Clone, Copy, PartialEq, Eq)]
pub enum RunPart {
    /// A cycle.
    Cycle {
        /// From 0 to 2^20.
        number: u32,
    },
    /// From one time to another, both in units of 2^-16 ns.
    Times {
        from: u64,
        /// No earlier than `from`.
        to: u64,
    },
}

/// The form of a command with a network alone.
fn network_form(command: &str) -> Option<Form<'static>>
    ensures form { result ≡ network_form command.now }
    ensures range { IfSome result IsFormInRange }
{
    match command {
        "slack" => Some(Form::Slack),
        "least" => Some(Form::Least),
        "sheet" => Some(Form::Sheet),
        "latency" => Some(Form::Latency),
        "draw" => Some(Form::Schedule),
        _ => None,
    }
}

/// The inequality of this number.
fn inequality_spelled(text: &str) -> Option<Rule>
    ensures rule { result ≡ inequality_spelled text.now }
    ensures inequality { IfSome result IsInequality }
{
    match text {
        "8" => Some(Rule::Delays),
        "9" => Some(Rule::Settling),
        "10" => Some(Rule::Precision),
        "11" => Some(Rule::Correction),
        "12" => Some(Rule::ScheduleStart),
        "13" => Some(Rule::WindowEnds),
        "21" => Some(Rule::Spacing),
        "23" => Some(Rule::Forwarding),
        _ => None,
    }
}

/// The form of a network and a rule.
fn slack_of_form(rule: &str) -> Option<Form<'static>>
    ensures form { result ≡ slack_of_form rule.now }
    ensures range { IfSome result IsFormInRange }
{
    let rule = inequality_spelled(rule)?;
    Some(Form::SlackOf(rule))
}

/// The form of a command with three words, by its first and its last.
fn three_words_form(command: &str, third: &str) -> Option<Form<'static>>
    ensures form { result ≡ three_words_form command.now third.now }
    ensures range { IfSome result IsFormInRange }
{
    match command {
        "slack" => slack_of_form(third),
        "plan" => Some(Form::Plan),
        "draw" => Some(Form::Report(Question::DrawWhole)),
        "page" => Some(Form::Report(Question::Page)),
        "flows" => Some(Form::Report(Question::Flows)),
        "latency" => Some(Form::Report(Question::LatencySeen)),
        "clocks" => Some(Form::Report(Question::Clocks)),
        _ => None,
    }
}

/// The number of a record, if the text is the decimal of one that is not 0, without leading zeros.
fn number_spelled(text: &str) -> Option<u64>
    ensures value { result ≡ number_spelled text.now }
    ensures least { IfSome result (λ n. 1 ≤ n) }
{
    match number_up_to(u64::MAX, text)? {
        0 => None,
        number => Some(number),
    }
}

/// The form of a record of a report.
fn why_form(number: &str) -> Option<Form<'static>>
    ensures form { result ≡ why_form number.now }
    ensures range { IfSome result IsFormInRange }
{
    let number = number_spelled(number)?;
    Some(Form::Report(Question::Why { number }))
}

/// The form of the events of a storm.
fn events_form(seed: &str, cycles: &str) -> Option<Form<'static>>
    ensures form { result ≡ events_form seed.now cycles.now }
    ensures range { IfSome result IsFormInRange }
{
    let seed = number_up_to(u64::MAX, seed)?;
    let cycles = cycles_spelled(cycles)?;
    Some(Form::Events { seed, cycles })
}

/// The cycle of this number.
fn cycle_part(cycle: &str) -> Option<RunPart>
    ensures part { result ≡ cycle_part cycle.now }
    ensures range { IfSome result IsPartInRange }
{
    let number = number_up_to(GREATEST_CYCLE, cycle)? as u32;
    Some(RunPart::Cycle { number })
}

/// The form of a cycle of a run.
fn cycle_form(cycle: &str) -> Option<Form<'static>>
    ensures form { result ≡ draw_form (cycle_part cycle.now) }
    ensures range { IfSome result IsFormInRange }
{
    let part = cycle_part(cycle)?;
    Some(Form::Report(Question::Draw(part)))
}

/// The part between these times.
fn times_part(from: &str, to: &str) -> Option<RunPart>
    ensures part { result ≡ times_part from.now to.now }
    ensures range { IfSome result IsPartInRange }
{
    let from = time_spelled(u64::MAX, from.as_bytes())?;
    let to = time_spelled(u64::MAX, to.as_bytes())?;
    if from <= to {
        Some(RunPart::Times { from, to })
    } else {
        None
    }
}

/// The form of a command with four words, by its first and its last two.
fn four_words_form(command: &str, third: &str, last: &str) -> Option<Form<'static>>
    ensures form { result ≡ four_words_form command.now third.now last.now }
    ensures range { IfSome result IsFormInRange }
{
    match command {
        "why" => why_form(last),
        "draw" => cycle_form(last),
        "events" => events_form(third, last),
        _ => None,
    }
}

/// The form of one thing of a part of a run, if the name is one.
fn named_by(name: &str, part: RunPart) -> Option<Form<'_>>
    requires { IsPartInRange part }
    ensures form { result ≡ named_by name.now part }
    ensures range { IfSome result IsFormInRange }
{
    if is_name_text(name.as_bytes()) {
        let name = Word::of(name);
        Some(Form::DrawNamed { part, name })
    } else {
        None
    }
}

/// Are the octets all digits?
fn has_digits(text: &[u8]) -> bool
    ensures { result ≡ list_all is_ascii_digit text.now }
{
    text.iter().all(|octet| octet.is_ascii_digit())
}

/// Are there digits, and nothing else?
fn is_number(text: &[u8]) -> bool
    ensures { result ≡ is_number text.now }
{
    !text.is_empty() && has_digits(text)
}

/// Is it the word of a unit of time?
fn is_unit(text: &[u8]) -> bool
    ensures { result ≡ is_unit text.now }
{
    text == b"ns".as_slice() || text == b"us".as_slice() || text == b"ms".as_slice()
}

/// Are there digits, or digits and the word of a unit right behind them?
#[tactic(auto, unfolding(crate::specs::Forms::reads_as_time))]
fn reads_as_time(text: &[u8]) -> bool
    ensures { result ≡ reads_as_time text.now }
{
    let (digits, unit) = text.split_at(text.len().saturating_sub(2));
    is_number(text) || (is_unit(unit) && is_number(digits))
}

/// The form of two words behind the report.
fn two_words_form<'a>(fourth: &str, last: &'a str) -> Option<Form<'a>>
    ensures form { result ≡ two_words_form fourth.now last.now }
    ensures range { IfSome result IsFormInRange }
{
    if reads_as_time(last.as_bytes()) {
        let part = times_part(fourth, last)?;
        Some(Form::Report(Question::Draw(part)))
    } else {
        let part = cycle_part(fourth)?;
        named_by(last, part)
    }
}

/// The form of a command with five words, by its first and its last two.
fn five_words_form<'a>(command: &str, fourth: &str, last: &'a str) -> Option<Form<'a>>
    ensures form { result ≡ five_words_form command.now fourth.now last.now }
    ensures range { IfSome result IsFormInRange }
{
    if command == "draw" {
        two_words_form(fourth, last)
    } else {
        None
    }
}

/// The form of a command with six words, by its first and its last three.
fn six_words_form<'a>(command: &str, from: &str, to: &str, name: &'a str) -> Option<Form<'a>>
    ensures form { result ≡ six_words_form command.now from.now to.now name.now }
    ensures range { IfSome result IsFormInRange }
{
    if command != "draw" {
        return None;
    }
    let part = times_part(from, to)?;
    named_by(name, part)
}

/// The form of the words, if they have one.
pub fn read_form(words: &Words) -> Option<Form<'_>>
    ensures form { result ≡ form_of words.now }
    ensures range { IfSome result IsFormInRange }
{
    let command = words.get(0)?;
    match words.len() {
        2 => network_form(command),
        3 => three_words_form(command, words.get(2)?),
        4 => four_words_form(command, words.get(2)?, words.get(3)?),
        5 => five_words_form(command, words.get(3)?, words.get(4)?),
        6 => six_words_form(command, words.get(3)?, words.get(4)?, words.get(5)?),
        _ => None,
    }
}
