//! The lines of the least times.
ghost use Rattle.std.specs.Prelude.{◌≡◌, ◌+◌, ◌++◌, ◌≤◌, length};
ghost use Rattle.lens_slack.specs.least.Lines.{first_text, key_line, keys_text, last_text, least_line, next_text};

use crate::least::Times;
use tte_io::LineText;

/// Adds the first two times.
#[tactic(auto, unfolding(crate::specs::least::Lines::first_text))]
fn push_first(line: &mut LineText, times: &Times)
    requires { length line.old + 80 ≤ 4096 }
    ensures text { line.new ≡ line.old ++ first_text times.now }
    ensures grows { length line.new ≤ length line.old + 80 }
{
    line.push("least dmax ");
    line.push_decimal(times.dmax);
    line.push(" settled ");
    line.push_decimal(times.settled);
}

/// Adds the next two.
#[tactic(auto, unfolding(crate::specs::least::Lines::next_text))]
fn push_next(line: &mut LineText, times: &Times)
    requires { length line.old + 80 ≤ 4096 }
    ensures text { line.new ≡ line.old ++ next_text times.now }
    ensures grows { length line.new ≤ length line.old + 80 }
{
    line.push(" precision ");
    line.push_decimal(times.precision);
    line.push(" correction ");
    line.push_decimal(times.correction);
}

/// Adds the last one, and the end of the line.
#[tactic(auto, unfolding(crate::specs::least::Lines::last_text))]
fn push_last(line: &mut LineText, times: &Times)
    requires { length line.old + 40 ≤ 4096 }
    ensures { line.new ≡ line.old ++ last_text times.now }
{
    line.push(" tt_start ");
    line.push_decimal(times.tt_start);
    line.push("\n");
}

/// Makes the line of the least times.
pub(crate) fn make_least_line(line: &mut LineText, times: &Times)
    ensures { line.new ≡ least_line times.now }
{
    line.clear();
    push_first(line, times);
    push_next(line, times);
    push_last(line, times);
}

/// Adds the line of a key.
#[tactic(auto, unfolding(crate::specs::least::Lines::key_line))]
fn push_key(line: &mut LineText, key: &str, n: u64)
    requires key { length key.now ≤ 20 }
    requires room { length line.old + 60 ≤ 4096 }
    ensures text { line.new ≡ line.old ++ key_line key.now n }
    ensures grows { length line.new ≤ length line.old + 60 }
{
    line.push(key);
    line.push(" = ");
    line.push_decimal(n);
    line.push("\n");
}

/// Makes the lines of the keys that have the least times.
#[tactic(auto, unfolding(crate::specs::least::Lines::keys_text))]
pub(crate) fn make_keys(line: &mut LineText, times: &Times)
    ensures { line.new ≡ keys_text times.now }
{
    line.clear();
    push_key(line, "dmax", times.dmax);
    push_key(line, "settled", times.settled);
    push_key(line, "precision", times.precision);
    push_key(line, "correction", times.correction);
    push_key(line, "tt_start", times.tt_start);
}
