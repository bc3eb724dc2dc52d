//! The lines of the local clocks at the end of a cycle.
ghost use Rattle.std.specs.{Fmt.signed_decimal, Prelude.{◌++◌, ◌+◌, ◌≡◌, ◌≤◌, IfSome, length}};
ghost use Rattle.lens_clocks.specs.{Lines.{apart_text, clock_line, spread_line, values_text}, Telling.IsWritable};
ghost use Rattle.{device_rules.specs.Widths.IsLocal, net_plan.specs.Ranges.IsInRange};

use crate::{DeviceClock, Ends};
use itoa::Buffer;
use net_plan::Network;
use tte_io::LineText;

/// Adds a number with its sign, which takes at most 40 octets.
fn push_signed(line: &mut LineText, n: i128)
    requires { length line.old + 40 ≤ 4096 }
    ensures text { line.new ≡ line.old ++ signed_decimal n }
    ensures grows { length line.new ≤ length line.old + 40 }
{
    let mut buffer = Buffer::new();
    line.push(buffer.format(n));
}

/// Adds what a clock shows, and how far that is beyond the least.
#[tactic(auto, unfolding(crate::specs::Lines::values_text))]
fn push_values(line: &mut LineText, least: i128, local: i128)
    requires least { IsLocal least }
    requires local { IsLocal local }
    requires room { length line.old + 82 ≤ 4096 }
    ensures text { line.new ≡ line.old ++ values_text least local }
    ensures grows { length line.new ≤ length line.old + 82 }
{
    line.push(" ");
    push_signed(line, local);
    line.push(" ");
    push_signed(line, local - least);
}

/// Makes the line of a clock at the end of the cycle of this number, counted from 1.
#[tactic(auto, unfolding(crate::specs::Lines::clock_line))]
pub(crate) fn make_clock_line(
    line: &mut LineText,
    network: &Network,
    number: u64,
    least: i128,
    clock: &DeviceClock,
)
    requires range { IsInRange network.now }
    requires clock { IsWritable network.now clock.now }
    requires least { IsLocal least }
    ensures { line.new ≡ clock_line network.now number least clock.now }
{
    line.clear();
    line.push("clock ");
    line.push_decimal(number);
    line.push(" ");
    line.append(network.device_name(clock.device));
    push_values(line, least, clock.local);
    line.push("\n");
}

/// Adds how far the clocks are apart, if there are any.
#[tactic(auto, unfolding(crate::specs::Lines::apart_text))]
fn push_apart(line: &mut LineText, ends: Option<Ends>)
    requires fits { IfSome ends (λ e. IsLocal e.least × IsLocal e.greatest) }
    requires room { length line.old + 40 ≤ 4096 }
    ensures text { line.new ≡ line.old ++ apart_text ends }
    ensures grows { length line.new ≤ length line.old + 40 }
{
    match ends {
        Some(ends) => push_signed(line, ends.greatest - ends.least),
        None => line.push("none"),
    }
}

/// Makes the line of how far the clocks are apart at the end of the cycle of this number.
#[tactic(auto, unfolding(crate::specs::Lines::spread_line))]
pub(crate) fn make_spread_line(
    line: &mut LineText,
    network: &Network,
    number: u64,
    ends: Option<Ends>,
)
    requires range { IsInRange network.now }
    requires fits { IfSome ends (λ e. IsLocal e.least × IsLocal e.greatest) }
    ensures { line.new ≡ spread_line network.now number ends }
{
    line.clear();
    line.push("spread ");
    line.push_decimal(number);
    line.push(" ");
    push_apart(line, ends);
    line.push(" precision ");
    line.push_decimal(network.precision.amount());
    line.push("\n");
}
