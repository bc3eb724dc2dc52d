//! Times and corrections as people read them.
ghost use Rattle.std.specs.Prelude.{◌≡◌, ◌≤◌, ◌+◌, ◌++◌, length};
ghost use Rattle.{lens_svg.specs.Numbers.{micros_text, nanos_text}, tte_io.specs.Line.line_limit};

use tte_io::LineText;
use tte_units::Units;

/// Adds a time in microseconds, with three digits behind the point: at most 81 octets.
#[tactic(auto, unfolding(crate::specs::Numbers::micros_text))]
pub fn push_micros(line: &mut LineText, time: u64)
    requires { length line.old + 81 ≤ line_limit }
    ensures text { line.new ≡ line.old ++ micros_text time }
    ensures grows { length line.new ≤ length line.old + 81 }
{
    let nanos = time / 65_536;
    line.push_decimal(nanos / 1_000);
    line.push(".");
    line.push_decimal(nanos / 100 % 10);
    line.push_decimal(nanos / 10 % 10);
    line.push_decimal(nanos % 10);
}

/// Adds a correction in whole nanoseconds, rounded towards 0: at most 24 octets.
#[tactic(auto, unfolding(crate::specs::Numbers::nanos_text))]
pub(crate) fn push_nanos(line: &mut LineText, by: Units)
    requires { length line.old + 24 ≤ line_limit }
    ensures text { line.new ≡ line.old ++ nanos_text by }
    ensures grows { length line.new ≤ length line.old + 24 }
{
    if by.0 <= -65_536 {
        line.push("-");
    }
    line.push_decimal(by.0.unsigned_abs() / 65_536);
    line.push(" ns");
}
