ghost use Rattle.std.specs.{Fmt.signed_decimal, Prelude.{◌++◌, ◌+◌, ◌≡◌, ◌≤◌, length}};
ghost use Rattle.{tte_io.specs.Line.line_limit, tte_observers.specs.stamps.StampLines.stamp_line};

use tte_io::LineText;

/// Adds a number in decimal, with its sign where it is negative: at most 21 octets.
fn push_signed(line: &mut LineText, n: i64)
    requires { length line.old + 21 ≤ line_limit }
    ensures text { line.new ≡ line.old ++ signed_decimal n }
    ensures grows { length line.new ≤ length line.old + 21 }
{
    if n < 0 {
        line.push("-");
    }
    line.push_decimal(n.unsigned_abs());
}

/// Makes the line of a stamp by the device of this name, which has at most 16 octets.
pub(crate) fn make_stamp_line(line: &mut LineText, number: u64, name: &[u8], stamp: i64)
    requires { length name.now ≤ 16 }
    ensures { line.new ≡ stamp_line number name.now stamp }
{
    line.clear();
    line.push("stamp ");
    line.push_decimal(number);
    line.push(" ");
    line.append(name);
    line.push(" ");
    push_signed(line, stamp);
    line.push("\n");
}
