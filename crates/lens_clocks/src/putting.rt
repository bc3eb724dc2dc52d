//! The lines of a cycle, put one after another.

ghost use Rattle.std.specs.Prelude.{◌≡◌, All, MatchResult, map};
ghost use Rattle.lens_clocks.specs.{Lines.{clock_line, lines_between, told_lines}, Telling.IsWritable};
ghost use Rattle.{device_rules.specs.Widths.IsLocal, net_plan.specs.Ranges.IsInRange};
ghost use Rattle.{lens_clocks.specs.declared.spread.Ends.{Ends as EndsValue}, tte_forms.specs.Faults.PutFailed};
ghost use Rattle.{std.specs.declared.option.Option.TheVariants.Some, tte_forms.specs.Putting.{Over, Puts}};

use crate::lines::{make_clock_line, make_spread_line};
use crate::spread::ends_of;
use crate::{DeviceClock, Ends};
use net_plan::Network;
use tte_forms::{LineMaker, put_each};
use tte_io::{LineText, Sink, SinkFailed};

/// The lines of clocks at the end of a cycle.
#[derive(Drop)]
struct ClockLines<'a> {
    network: &'a Network,
    number: u64,
    least: i128,
}

impl LineMaker<DeviceClock> for ClockLines<'_> {
    ghost fit = { λ lines. IsInRange lines.network.now × IsLocal lines.least };

    ghost takes = { λ lines clock. IsWritable lines.network.now clock };

    ghost text = { λ lines clock. clock_line lines.network.now lines.number lines.least clock };

    fn make(&self, line: &mut LineText, thing: &DeviceClock) {
        make_clock_line(line, self.network, self.number, self.least, thing);
    }
}

/// Puts the line of each clock.
fn put_clocks<K: Sink>(
    network: &Network,
    number: u64,
    least: i128,
    clocks: &[DeviceClock],
    out: &mut K,
) -> Result<(), SinkFailed>
    requires range { IsInRange network.now }
    requires writable { All (IsWritable network.now) clocks.now }
    requires least { IsLocal least }
    ensures puts { Over K.Sink out.old out.new (Puts (map (clock_line network.now number least) clocks.now) result) }
    ensures faults { MatchResult result (λ _. K.faults out.new ≡ K.faults out.old)
        (λ _. PutFailed K.Sink out.old out.new) }
{
    let lines = ClockLines {
        network,
        number,
        least,
    };
    put_each(&lines, clocks, out)
}

/// Puts the lines of clocks that lie between these ends.
fn put_between<K: Sink>(
    network: &Network,
    number: u64,
    ends: Ends,
    clocks: &[DeviceClock],
    line: &mut LineText,
    out: &mut K,
) -> Result<(), SinkFailed>
    requires range { IsInRange network.now }
    requires writable { All (IsWritable network.now) clocks.now }
    requires least { IsLocal ends.least }
    requires greatest { IsLocal ends.greatest }
    ensures puts { Over K.Sink out.old out.new
        (Puts (lines_between network.now number (Some ends) clocks.now) result) }
    ensures faults { MatchResult result (λ _. K.faults out.new ≡ K.faults out.old)
        (λ _. PutFailed K.Sink out.old out.new) }
{
    match put_clocks(network, number, ends.least, clocks, out) {
        Ok(()) => (),
        Err(cause) => return Err(cause),
    }
    make_spread_line(line, network, number, Some(ends));
    out.put(line.as_slice())
}

/// Puts the lines of these clocks at the end of the cycle of this number, counted from 1.
pub(crate) fn put_told<K: Sink>(
    network: &Network,
    number: u64,
    clocks: &[DeviceClock],
    line: &mut LineText,
    out: &mut K,
) -> Result<(), SinkFailed>
    requires range { IsInRange network.now }
    requires writable { All (IsWritable network.now) clocks.now }
    ensures puts { Over K.Sink out.old out.new (Puts (told_lines network.now number clocks.now) result) }
    ensures faults { MatchResult result (λ _. K.faults out.new ≡ K.faults out.old)
        (λ _. PutFailed K.Sink out.old out.new) }
{
    match ends_of(clocks) {
        Some(ends) => put_between(network, number, ends, clocks, line, out),
        None => {
            make_spread_line(line, network, number, None);
            out.put(line.as_slice())
        }
    }
}
