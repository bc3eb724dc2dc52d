//! The lines of messages that have no plan.
ghost use Rattle.std.specs.Prelude.{◌++◌, ◌+◌, ◌-◌, ◌==◌, ◌≡◌, ◌≤◌, All, IfOk, IfSome, [], length};
ghost use Rattle.lens_plan.specs.text.Refusals.{bound_text, excess_line, has_text, limit_text, line_refusal, message_text};
ghost use Rattle.lens_plan.specs.text.Refusals.{HasExcess, IsTellable, reason_text, row_limit, short_line, short_row, short_row_text};
ghost use Rattle.std.specs.{List.find, Option.option_map_or};
ghost use Rattle.{lens_plan.specs.places.Placing.IsOrdered, net_plan.specs.Ranges.IsInRange};

use crate::places::{Attempt, Excess, Hop, Placed, is_last, rows_in_order, schedule_end};
use crate::{Message, MessageRefusal, RefusedLine};
use net_plan::{Name, Network};
use std::alloc::Global;
use trace_text::way_text;
use tte_io::{LineText, OutOfMemory};

/// Why a line has no message, in a word.
fn reason_text(refusal: MessageRefusal) -> &'static str
    ensures text { result.now ≡ reason_text refusal }
    ensures short { length result.now ≤ 6 }
{
    match refusal {
        MessageRefusal::Long => "long",
        MessageRefusal::Form => "form",
        MessageRefusal::Number => "number",
        MessageRefusal::Name => "name",
        MessageRefusal::Taken => "taken",
        MessageRefusal::Twice => "twice",
    }
}

/// Makes the line of messages that are refused.
pub(crate) fn make_line_refusal(line: &mut LineText, refused: RefusedLine)
    ensures { line.new ≡ line_refusal refused }
{
    line.clear();
    line.push("refused line ");
    line.push_decimal(refused.number);
    line.push(" ");
    line.push(reason_text(refused.refusal));
    line.push("\n");
}

/// Adds what there is, and what is wanted.
fn push_has(line: &mut LineText, has: u64, wants: u64)
    requires { length line.old + 60 ≤ 4096 }
    ensures text { line.new ≡ line.old ++ has_text has wants }
    ensures grows { length line.new ≤ length line.old + 60 }
{
    line.push(" has ");
    line.push_decimal(has);
    line.push(" wants ");
    line.push_decimal(wants);
}

/// Adds what there may be, what there would be, and how many too many that is.
fn push_limit(line: &mut LineText, has: u64, wants: u64)
    requires { length line.old + 120 ≤ 4096 }
    ensures { line.new ≡ line.old ++ limit_text has wants }
{
    push_has(line, has, wants);
    line.push(" short ");
    line.push_decimal(wants.saturating_sub(has));
    line.push("\n");
}

/// Makes the line of what there would be too many of.
pub(crate) fn make_excess_line(line: &mut LineText, network: &Network, excess: Excess)
    requires range { IsInRange network.now }
    requires device { HasExcess network.now excess }
    ensures { line.new ≡ excess_line network.now excess }
{
    line.clear();
    match excess {
        Excess::VirtualLinks(wants) => {
            line.push("rule 1 at index 2 vls");
            push_limit(line, 64, wants);
        }
        Excess::Rows(wants) => {
            line.push("rule 1 at index 3 rows");
            push_limit(line, 1024, wants);
        }
        Excess::RowsOf(device, wants) => {
            line.push("rule 24 at index ");
            line.push_decimal(device.0.into());
            line.push(" ");
            line.append(network.device_name(device));
            push_limit(line, 256, wants);
        }
    }
}

/// Where the window of a row of the message is to end at the latest.
fn row_limit(network: &Network, message: &Message, hop: Hop) -> u64
    requires { IsInRange network.now }
    ensures { result ≡ row_limit network.now message.now hop }
{
    let end = schedule_end(network);
    if is_last(network, hop) {
        message.by.unwrap_or(end).min(end)
    } else {
        end
    }
}

/// Does the row end so late for its limit?
fn is_late_by(network: &Network, message: &Message, short: u64, row: &Placed) -> bool
    requires { IsInRange network.now }
    ensures { result ≡ ((row.now.end - row_limit network.now message.now row.now.hop) == short) }
{
    row.end.saturating_sub(row_limit(network, message, row.hop)) == short
}

/// Of the rows in the order of links, the first that ends so late as the one that ends latest for its limit.
pub(crate) fn short_row(
    alloc: Global,
    network: &Network,
    message: &Message,
    attempt: &Attempt,
) -> Result<Option<Placed>, OutOfMemory>
    requires range { IsInRange network.now }
    requires ordered { All IsOrdered attempt.now.placed.items }
    ensures row { IfOk result (λ row. row ≡ short_row network.now message.now attempt.now) }
    ensures tells { IfOk result (λ row. IfSome row (IsTellable network.now)) }
{
    let rows = match rows_in_order(alloc, network, attempt.placed.as_slice()) {
        Ok(rows) => rows,
        Err(OutOfMemory) => return Err(OutOfMemory),
    };
    Ok(first_late(network, message, attempt.score.short, rows.as_slice()))
}

/// The first of the rows that ends so late for its limit.
fn first_late(network: &Network, message: &Message, short: u64, rows: &[Placed]) -> Option<Placed>
    requires range { IsInRange network.now }
    ensures { result ≡ find (λ p. (p.end - row_limit network.now message.now p.hop) == short) rows.now }
{
    rows.iter()
        .copied()
        .find(|row| is_late_by(network, message, short, row))
}

/// Adds what bounds the window of the row.
fn push_bound(line: &mut LineText, network: &Network, message: &Message, row: &Placed)
    requires range { IsInRange network.now }
    requires tells { IsTellable network.now row.now }
    requires room { length line.old + 100 ≤ 4096 }
    ensures text { line.new ≡ line.old ++ bound_text network.now message.now row.now }
    ensures grows { length line.new ≤ length line.old + 100 }
{
    let limit = row_limit(network, message, row.hop);
    if limit < schedule_end(network) {
        line.push(" by");
        push_has(line, limit, row.end);
    } else {
        let wants = row.end + 4 * network.precision.amount();
        line.push(" rule 13");
        push_has(line, network.cycle.amount(), wants);
    }
}

/// Adds the row, and what bounds it.
fn push_short_row(line: &mut LineText, network: &Network, message: &Message, row: &Placed)
    requires range { IsInRange network.now }
    requires tells { IsTellable network.now row.now }
    requires room { length line.old + 130 ≤ 4096 }
    ensures text { line.new ≡ line.old ++ short_row_text network.now message.now row.now }
    ensures grows { length line.new ≤ length line.old + 130 }
{
    line.push(" at ");
    line.append(network.link_name(row.hop.link));
    line.push(" ");
    line.push(way_text(row.hop.way));
    push_bound(line, network, message, row);
}

/// Adds the row, if there is one, and what bounds it.
fn push_some_row(line: &mut LineText, network: &Network, message: &Message, row: Option<Placed>)
    requires range { IsInRange network.now }
    requires tells { IfSome row (IsTellable network.now) }
    requires room { length line.old + 130 ≤ 4096 }
    ensures text { line.new ≡ line.old ++ option_map_or (short_row_text network.now message.now) row [] }
    ensures grows { length line.new ≤ length line.old + 130 }
{
    if let Some(row) = row {
        push_short_row(line, network, message, &row);
    }
}

/// Adds a name.
fn push_name(line: &mut LineText, name: Name)
    requires { length line.old + 16 ≤ 4096 }
    ensures text { line.new ≡ line.old ++ name }
    ensures grows { length line.new ≤ length line.old + 16 }
{
    line.append(name.as_slice());
}

/// Adds the message and its best phase.
fn push_message(line: &mut LineText, word: &str, message: &Message, phase: u32)
    requires room { length line.old + 60 ≤ 4096 }
    requires word { length word.now ≤ 10 }
    ensures text { line.new ≡ line.old ++ message_text word.now message.now phase }
    ensures grows { length line.new ≤ length line.old + 60 }
{
    line.push(word);
    line.push(" ");
    push_name(line, message.name);
    line.push(" phase ");
    line.push_decimal(phase.into());
}

/// Makes the line of a message that has no place: its best phase, and the row that ends latest for its limit.
pub(crate) fn make_short_line(
    line: &mut LineText,
    network: &Network,
    word: &str,
    message: &Message,
    attempt: &Attempt,
    row: Option<Placed>,
)
    requires range { IsInRange network.now }
    requires word { length word.now ≤ 10 }
    requires tells { IfSome row (IsTellable network.now) }
    requires row { row ≡ short_row network.now message.now attempt.now }
    ensures { line.new ≡ short_line word.now network.now message.now attempt.now }
{
    line.clear();
    push_message(line, word, message, attempt.phase);
    push_some_row(line, network, message, row);
    line.push(" short ");
    line.push_decimal(attempt.score.short);
    line.push("\n");
}
