//! Numbers with three places behind the point.
ghost use Rattle.std.specs.Prelude.{◌*◌, ◌++◌, ◌+◌, ◌^◌, ◌≡◌, ◌≤◌, length};
ghost use Rattle.lens_sheet.specs.Figures.{figure, minutes, ns, percent, places_text, ppm, thousandths, us};
ghost use Rattle.lens_sheet.specs.Lines.{part_text, time_text};

use tte_io::LineText;

/// Units of 2^-16 ns in a nanosecond.
const NANOSECOND: u64 = 65_536;
/// Units in a microsecond.
const MICROSECOND: u64 = 1_000 * NANOSECOND;
/// Units in a minute.
const MINUTE: u64 = 60_000_000 * MICROSECOND;

/// How many thousandths so many parts are, of which one has so many: the nearest number, and of two the upper one.
fn thousandths(parts: u64, one: u64) -> u64
    requires { 1000 ≤ one }
    ensures { result ≡ thousandths parts one }
{
    let one = u128::from(one);
    ((2 * 1000 * u128::from(parts) + one) / (2 * one)) as u64
}

/// Adds so many thousandths, with three places behind the point.
#[tactic(auto, unfolding(crate::specs::Figures::places_text))]
fn push_places(line: &mut LineText, thousandths: u64)
    requires { length line.old + 81 ≤ 4096 }
    ensures text { line.new ≡ line.old ++ places_text thousandths }
    ensures grows { length line.new ≤ length line.old + 81 }
{
    line.push_decimal(thousandths / 1000);
    line.push(".");
    line.push_decimal(thousandths / 100 % 10);
    line.push_decimal(thousandths / 10 % 10);
    line.push_decimal(thousandths % 10);
}

/// Adds so many parts, of which one has so many.
fn push_figure(line: &mut LineText, parts: u64, one: u64)
    requires some { 1000 ≤ one }
    requires room { length line.old + 81 ≤ 4096 }
    ensures text { line.new ≡ line.old ++ figure parts one }
    ensures grows { length line.new ≤ length line.old + 81 }
{
    push_places(line, thousandths(parts, one));
}

/// Adds a time in microseconds.
pub(crate) fn push_us(line: &mut LineText, units: u64)
    requires { length line.old + 81 ≤ 4096 }
    ensures text { line.new ≡ line.old ++ us units }
    ensures grows { length line.new ≤ length line.old + 81 }
{
    push_figure(line, units, MICROSECOND);
}

/// Adds a time in nanoseconds.
pub(crate) fn push_ns(line: &mut LineText, units: u64)
    requires { length line.old + 81 ≤ 4096 }
    ensures text { line.new ≡ line.old ++ ns units }
    ensures grows { length line.new ≤ length line.old + 81 }
{
    push_figure(line, units, NANOSECOND);
}

/// Adds a time in minutes.
pub(crate) fn push_minutes(line: &mut LineText, units: u64)
    requires { length line.old + 81 ≤ 4096 }
    ensures text { line.new ≡ line.old ++ minutes units }
    ensures grows { length line.new ≤ length line.old + 81 }
{
    push_figure(line, units, MINUTE);
}

/// Adds a rate in parts of 10^6, which is given in parts of 10^9.
pub(crate) fn push_ppm(line: &mut LineText, rate: u64)
    requires { length line.old + 81 ≤ 4096 }
    ensures text { line.new ≡ line.old ++ ppm rate }
    ensures grows { length line.new ≤ length line.old + 81 }
{
    push_figure(line, rate, 1000);
}

/// Adds so much of the whole in percent.
pub(crate) fn push_percent(line: &mut LineText, part: u64, whole: u64)
    requires small { part ≤ 2 ^ 50 }
    requires some { 1000 ≤ whole }
    requires room { length line.old + 81 ≤ 4096 }
    ensures text { line.new ≡ line.old ++ percent part whole }
    ensures grows { length line.new ≤ length line.old + 81 }
{
    push_figure(line, 100 * part, whole);
}

/// Adds a time of the network behind its name.
#[tactic(auto, unfolding(crate::specs::Lines::time_text))]
pub(crate) fn push_time(line: &mut LineText, name: &str, units: u64)
    requires short { length name.now ≤ 20 }
    requires room { length line.old + 105 ≤ 4096 }
    ensures text { line.new ≡ line.old ++ time_text name.now units }
    ensures grows { length line.new ≤ length line.old + 105 }
{
    line.push(name);
    line.push(" ");
    push_us(line, units);
    line.push(" us");
}

/// Adds a word, and a time behind it.
#[tactic(auto, unfolding(crate::specs::Lines::part_text))]
pub(crate) fn push_part(line: &mut LineText, word: &str, units: u64)
    requires short { length word.now ≤ 20 }
    requires room { length line.old + 101 ≤ 4096 }
    ensures text { line.new ≡ line.old ++ part_text word.now units }
    ensures grows { length line.new ≤ length line.old + 101 }
{
    line.push(word);
    push_us(line, units);
}
