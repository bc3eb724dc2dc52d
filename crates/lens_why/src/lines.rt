//! The lines of grounds, and of a number that no record has.
ghost use Rattle.std.specs.{Fmt.{decimal, signed_decimal}, Prelude.{◌++◌, ◌+◌, ◌≡◌, ◌≤◌, MatchResult, codes, length}};
ghost use Rattle.lens_why.specs.Lines.{against_text, best_text, collection_text, ground_line, ground_text, is_told};
ghost use Rattle.lens_why.specs.Lines.{number_refused_line, off_text, outside_text, told_lines, told_text, window_text};
ghost use Rattle.{net_plan.specs.Ranges.IsInRange, tte_io.specs.Line.line_limit};
ghost use Rattle.{report_text.specs.{NoteWords.members_text, Ranges.IsNoteOf}, tte_forms.specs.Faults.PutFailed};
ghost use Rattle.{sync_state.specs.membership.Members.count_of, tte_forms.specs.Putting.{Over, Puts}};

use crate::{Best, BestHeard, Ground, LastCollection};
use itoa::Buffer;
use net_plan::Network;
use report_text::{state_text, write_in};
use run_law::Note;
use sync_state::State;
use sync_state::membership::count;
use tte_io::{LineText, Sink, SinkFailed};
use tte_units::Units;
use tte_units::frames::Members;

/// Adds a number that may be great, which takes at most 40 octets.
fn push_wide(line: &mut LineText, n: u128)
    requires { length line.old + 40 ≤ line_limit }
    ensures text { line.new ≡ line.old ++ decimal n }
    ensures grows { length line.new ≤ length line.old + 40 }
{
    let mut buffer = Buffer::new();
    line.push(buffer.format(n));
}

/// Adds a number of units with its sign, which takes at most 40 octets.
fn push_units(line: &mut LineText, units: Units)
    requires { length line.old + 40 ≤ line_limit }
    ensures text { line.new ≡ line.old ++ signed_decimal units.0 }
    ensures grows { length line.new ≤ length line.old + 40 }
{
    let mut buffer = Buffer::new();
    line.push(buffer.format(units.0));
}

/// Adds a number with its sign, which takes at most 40 octets.
fn push_signed(line: &mut LineText, n: i128)
    requires { length line.old + 40 ≤ line_limit }
    ensures text { line.new ≡ line.old ++ signed_decimal n }
    ensures grows { length line.new ≤ length line.old + 40 }
{
    let mut buffer = Buffer::new();
    line.push(buffer.format(n));
}

/// Adds two numbers with a word before each.
fn push_two(line: &mut LineText, first: &str, a: u64, second: &str, b: u64)
    requires first { length first.now ≤ 20 }
    requires second { length second.now ≤ 20 }
    requires room { length line.old + 80 ≤ line_limit }
    ensures text { line.new ≡ line.old ++ (first.now ++ (decimal a ++ (second.now ++ decimal b))) }
    ensures grows { length line.new ≤ length line.old + 80 }
{
    line.push(first);
    line.push_decimal(a);
    line.push(second);
    line.push_decimal(b);
}

/// Adds what a dispatch says.
#[tactic(auto, unfolding(crate::specs::Lines::ground_text))]
fn push_dispatch(line: &mut LineText, value: u128, row: u32, offset: u64, cycle: u32)
    requires room { length line.old + 300 ≤ line_limit }
    ensures text { line.new ≡ line.old ++ ground_text (Ground.Dispatched value row offset cycle) }
    ensures grows { length line.new ≤ length line.old + 300 }
{
    line.push("local ");
    push_wide(line, value);
    line.push(" row ");
    line.push_decimal(row.into());
    push_two(line, " offset ", offset, " cycle ", cycle.into());
}

/// Adds what a window says, and where a frame came.
#[tactic(auto, unfolding(crate::specs::Lines::window_text))]
fn push_window(line: &mut LineText, at: i128, from: Units, to: Units)
    requires room { length line.old + 200 ≤ line_limit }
    ensures text { line.new ≡ line.old ++ window_text at from to }
    ensures grows { length line.new ≤ length line.old + 200 }
{
    line.push("position ");
    push_signed(line, at);
    line.push(" window ");
    push_units(line, from);
    line.push(" ");
    push_units(line, to);
}

/// Adds the cycle in which a frame came, and the window that it missed.
#[tactic(auto, unfolding(crate::specs::Lines::ground_text))]
fn push_missed(line: &mut LineText, cycle: u128, at: i128, from: Units, to: Units)
    requires room { length line.old + 300 ≤ line_limit }
    ensures text { line.new ≡ line.old ++ ground_text (Ground.Missed cycle at from to) }
    ensures grows { length line.new ≤ length line.old + 300 }
{
    line.push("cycle ");
    push_wide(line, cycle);
    line.push(" ");
    push_window(line, at, from, to);
}

/// Adds the cycle in which a frame came, and the record of the one that was taken.
#[tactic(auto, unfolding(crate::specs::Lines::ground_text))]
fn push_taken(line: &mut LineText, cycle: u128, number: u64)
    requires room { length line.old + 300 ≤ line_limit }
    ensures text { line.new ≡ line.old ++ ground_text (Ground.Taken cycle number) }
    ensures grows { length line.new ≤ length line.old + 300 }
{
    line.push("cycle ");
    push_wide(line, cycle);
    line.push(" taken ");
    line.push_decimal(number);
}

/// Adds the marker of a frame, that of the network, and the id of the frame's virtual link.
#[tactic(auto, unfolding(crate::specs::Lines::ground_text))]
fn push_unknown(line: &mut LineText, marker: u32, of: u32, id: u16)
    requires room { length line.old + 300 ≤ line_limit }
    ensures text { line.new ≡ line.old ++ ground_text (Ground.Unknown marker of id) }
    ensures grows { length line.new ≤ length line.old + 300 }
{
    line.push("marker ");
    line.push_hex(&marker.to_be_bytes());
    line.push(" of ");
    line.push_hex(&of.to_be_bytes());
    line.push(" id ");
    line.push_decimal(id.into());
}

/// Adds the state of a device, and the record by which it came to it.
#[tactic(auto, unfolding(crate::specs::Lines::ground_text))]
fn push_unsynchronised(line: &mut LineText, state: State, number: u64)
    requires room { length line.old + 300 ≤ line_limit }
    ensures text { line.new ≡ line.old ++ ground_text (Ground.Unsynchronised state number) }
    ensures grows { length line.new ≤ length line.old + 300 }
{
    line.push("state ");
    line.push(state_text(state));
    line.push(" since ");
    line.push_decimal(number);
}

/// Adds how far beyond the opening of a gate a clock stands, and up to where the gate is open.
#[tactic(auto, unfolding(crate::specs::Lines::ground_text))]
fn push_gate(line: &mut LineText, beyond: i128, most: u128)
    requires room { length line.old + 300 ≤ line_limit }
    ensures text { line.new ≡ line.old ++ ground_text (Ground.Gate beyond most) }
    ensures grows { length line.new ≤ length line.old + 300 }
{
    line.push("gate ");
    push_signed(line, beyond);
    line.push(" open ");
    push_wide(line, most);
}

/// Adds what a local clock shows at a point, against what is expected there.
#[tactic(auto, unfolding(crate::specs::Lines::ground_text))]
fn push_heard(
    line: &mut LineText,
    point: Units,
    adjustment: i128,
    expected: i128,
    off: i128,
    most: u64,
)
    requires room { length line.old + 300 ≤ line_limit }
    ensures text { line.new ≡ line.old ++ ground_text (Ground.Heard point adjustment expected off most) }
    ensures grows { length line.new ≤ length line.old + 300 }
{
    line.push("point ");
    push_units(line, point);
    line.push(" adj ");
    push_signed(line, adjustment);
    push_against(line, expected, off, most);
}

/// Adds what is expected, how far beyond it a clock stands, and how far it may.
#[tactic(auto, unfolding(crate::specs::Lines::against_text))]
fn push_against(line: &mut LineText, expected: i128, off: i128, most: u64)
    requires room { length line.old + 150 ≤ line_limit }
    ensures text { line.new ≡ line.old ++ against_text expected off most }
    ensures grows { length line.new ≤ length line.old + 150 }
{
    line.push(" expected ");
    push_signed(line, expected);
    push_off(line, off, most);
}

/// Adds how far beyond what is expected a clock stands, and how far it may.
#[tactic(auto, unfolding(crate::specs::Lines::off_text))]
fn push_off(line: &mut LineText, off: i128, most: u64)
    requires room { length line.old + 100 ≤ line_limit }
    ensures text { line.new ≡ line.old ++ off_text off most }
    ensures grows { length line.new ≤ length line.old + 100 }
{
    line.push(" off ");
    push_signed(line, off);
    line.push(" precision ");
    line.push_decimal(most);
}

/// Adds the last collection before a frame, if there is one.
#[tactic(auto, unfolding(crate::specs::Lines::collection_text))]
fn push_collection(line: &mut LineText, last: Option<LastCollection>)
    requires room { length line.old + 150 ≤ line_limit }
    ensures text { line.new ≡ line.old ++ collection_text last }
    ensures grows { length line.new ≤ length line.old + 150 }
{
    match last {
        Some(last) => {
            push_units(line, last.opened);
            line.push(" ends ");
            push_signed(line, last.ends);
            line.push(" cycle ");
            line.push_decimal(last.cycle.into());
        }
        None => line.push("none"),
    }
}

/// Adds the master of a frame, its cycle, and the last collection before it.
#[tactic(auto, unfolding(crate::specs::Lines::ground_text))]
fn push_collected(line: &mut LineText, master: u32, cycle: u32, last: Option<LastCollection>)
    requires room { length line.old + 300 ≤ line_limit }
    ensures text { line.new ≡ line.old ++ ground_text (Ground.Collected master cycle last) }
    ensures grows { length line.new ≤ length line.old + 300 }
{
    push_two(line, "master ", master.into(), " cycle ", cycle.into());
    line.push(" opened ");
    push_collection(line, last);
}

/// Adds the record that opened a collection, and the middle of its points.
#[tactic(auto, unfolding(crate::specs::Lines::ground_text))]
fn push_middle(line: &mut LineText, number: u64, middle: i128)
    requires room { length line.old + 300 ≤ line_limit }
    ensures text { line.new ≡ line.old ++ ground_text (Ground.Middle number middle) }
    ensures grows { length line.new ≤ length line.old + 300 }
{
    line.push("from ");
    line.push_decimal(number);
    line.push(" middle ");
    push_signed(line, middle);
}

/// Adds what a channel says to a correction.
#[tactic(auto, unfolding(crate::specs::Lines::best_text))]
fn push_best(line: &mut LineText, best: Option<Best>)
    requires room { length line.old + 120 ≤ line_limit }
    ensures text { line.new ≡ line.old ++ best_text best }
    ensures grows { length line.new ≤ length line.old + 120 }
{
    match best {
        Some(best) => {
            line.push_decimal(best.number);
            line.push(" members ");
            line.push_hex(&best.members.0.to_be_bytes());
            line.push(" value ");
            push_signed(line, best.value);
        }
        None => line.push("none"),
    }
}

/// Adds what both channels say to a correction.
#[tactic(auto, unfolding(crate::specs::Lines::ground_text))]
fn push_corrected(line: &mut LineText, a: Option<Best>, b: Option<Best>)
    requires room { length line.old + 300 ≤ line_limit }
    ensures text { line.new ≡ line.old ++ ground_text (Ground.Corrected a b) }
    ensures grows { length line.new ≤ length line.old + 300 }
{
    line.push("a ");
    push_best(line, a);
    line.push(" b ");
    push_best(line, b);
}

/// Adds the best frame of a channel, if there is one.
#[tactic(auto, unfolding(crate::specs::Lines::told_text))]
fn push_told(line: &mut LineText, told: Option<BestHeard>)
    requires room { length line.old + 80 ≤ line_limit }
    ensures text { line.new ≡ line.old ++ told_text told }
    ensures grows { length line.new ≤ length line.old + 80 }
{
    match told {
        Some(told) => {
            line.push_decimal(told.number);
            line.push(" members ");
            push_members(line, told.members);
        }
        None => line.push("none"),
    }
}

/// Adds a set of masters and how many they are.
fn push_members(line: &mut LineText, members: Members)
    requires room { length line.old + 40 ≤ line_limit }
    ensures text { line.new ≡ line.old ++ (members_text members ++ (codes " count " ++ decimal (count_of members))) }
    ensures grows { length line.new ≤ length line.old + 40 }
{
    line.push_hex(&members.0.to_be_bytes());
    line.push(" count ");
    line.push_decimal(count(members).into());
}

/// Adds the members of what was heard outside its time, and how many masters are enough.
#[tactic(auto, unfolding(crate::specs::Lines::outside_text))]
fn push_outside(line: &mut LineText, outside: Members, threshold: u32)
    requires room { length line.old + 100 ≤ line_limit }
    ensures text { line.new ≡ line.old ++ outside_text outside threshold }
    ensures grows { length line.new ≤ length line.old + 100 }
{
    line.push(" outside ");
    push_members(line, outside);
    line.push(" threshold ");
    line.push_decimal(threshold.into());
}

/// Adds what both channels told where a device comes to a clique.
#[tactic(auto, unfolding(crate::specs::Lines::ground_text))]
fn push_clique(
    line: &mut LineText,
    a: Option<BestHeard>,
    b: Option<BestHeard>,
    outside: Members,
    threshold: u32,
)
    requires room { length line.old + 300 ≤ line_limit }
    ensures text { line.new ≡ line.old ++ ground_text (Ground.Clique a b outside threshold) }
    ensures grows { length line.new ≤ length line.old + 300 }
{
    line.push("a ");
    push_told(line, a);
    line.push(" b ");
    push_told(line, b);
    push_outside(line, outside, threshold);
}

/// Adds what a ground says.
#[tactic(auto, unfolding(crate::specs::Lines::ground_text))]
fn push_ground(line: &mut LineText, said: Ground)
    requires { length line.old + 300 ≤ line_limit }
    ensures text { line.new ≡ line.old ++ ground_text said }
    ensures grows { length line.new ≤ length line.old + 300 }
{
    match said {
        Ground::Untold => (),
        Ground::Line(number) => {
            line.push("line ");
            line.push_decimal(number);
        }
        Ground::Local(value) => {
            line.push("local ");
            push_wide(line, value);
        }
        Ground::Held(held, measured) => push_two(line, "held ", held, " measured ", measured),
        Ground::Clock(clock, dmax) => push_two(line, "clock ", clock, " dmax ", dmax),
        Ground::Dispatched(value, row, offset, cycle) => {
            push_dispatch(line, value, row, offset, cycle)
        }
        Ground::Heard(point, adjustment, expected, off, most) => {
            push_heard(line, point, adjustment, expected, off, most)
        }
        Ground::Collected(master, cycle, last) => push_collected(line, master, cycle, last),
        Ground::Middle(number, middle) => push_middle(line, number, middle),
        Ground::Corrected(a, b) => push_corrected(line, a, b),
        Ground::Clique(a, b, outside, threshold) => push_clique(line, a, b, outside, threshold),
        Ground::CutBy(number) => {
            line.push("cut ");
            line.push_decimal(number);
        }
        Ground::Window(at, from, to) => push_window(line, at, from, to),
        Ground::Missed(cycle, at, from, to) => push_missed(line, cycle, at, from, to),
        Ground::Taken(cycle, number) => push_taken(line, cycle, number),
        Ground::Length(size, of) => push_two(line, "length ", size, " of ", of),
        Ground::Unknown(marker, of, id) => push_unknown(line, marker, of, id),
        Ground::Unsynchronised(state, number) => push_unsynchronised(line, state, number),
        Ground::Gate(beyond, most) => push_gate(line, beyond, most),
        Ground::Reading(reading) => {
            line.push("reading ");
            push_units(line, reading);
        }
    }
}

/// Makes the line of a ground.
fn make_ground_line(line: &mut LineText, said: Ground)
    ensures { line.new ≡ ground_line said }
{
    line.clear();
    line.push("ground ");
    push_ground(line, said);
    line.push("\n");
}

/// Does the ground say anything?
fn is_told(said: Ground) -> bool
    ensures { result ≡ is_told said }
{
    !matches!(said, Ground::Untold)
}

/// Makes the line of a number that none of so many records has.
pub(crate) fn make_refused_line(line: &mut LineText, number: u64, count: u64)
    ensures { line.new ≡ number_refused_line number count }
{
    line.clear();
    line.push("refused number ");
    line.push_decimal(number);
    line.push(" of ");
    line.push_decimal(count);
    line.push("\n");
}

/// Puts the lines of a record and of its ground, if that says anything. They are made in `line`.
pub(crate) fn put_record<K: Sink>(
    line: &mut LineText,
    network: &Network,
    note: &Note,
    said: Ground,
    out: &mut K,
) -> Result<(), SinkFailed>
    requires range { IsInRange network.now }
    requires of_network { IsNoteOf network.now note.now }
    ensures puts { Over K.Sink out.old out.new (Puts (told_lines network.now note.now said) result) }
    ensures faults { MatchResult result (λ _. K.faults out.new ≡ K.faults out.old)
        (λ _. PutFailed K.Sink out.old out.new) }
{
    match write_in(line, network, note, out) {
        Ok(()) => (),
        Err(failed) => return Err(failed),
    }
    if !is_told(said) {
        return Ok(());
    }
    make_ground_line(line, said);
    match out.put(line.as_slice()) {
        Ok(()) => Ok(()),
        Err(failed) => Err(failed),
    }
}
