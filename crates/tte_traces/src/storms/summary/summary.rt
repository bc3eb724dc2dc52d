ghost use Rattle.std.specs.{Fmt.signed_decimal, Prelude.{◌++◌, ◌+◌, ◌<◌, ◌≡◌, ◌≤◌, Some, length, slice_get}};
ghost use Rattle.tte_io.specs.Line.{line_limit};
ghost use Rattle.tte_traces.specs.storms.summary.Lines.{count_line, lines_of, spread_line, storm_line};

use crate::storms::summary::counts::Counts;
use tte_io::LineText;
use tte_units::Units;

/// How many lines a summary has.
pub const LINES: usize = 23;

/// The summary of a run under the storm of a seed over so many cycles.
#[derive(Clone, Copy, PartialEq, Eq)]
pub struct Summary {
    pub seed: u64,
    pub cycles: u32,
    pub counts: Counts,
    /// How far apart local clocks were seen at most, in units of 2^-16 ns.
    pub spread: Units,
    /// The network's precision, in units of 2^-16 ns.
    pub precision: Units,
}

impl Summary {
    /// Makes the line of this number, from 0, ended by LF.
    pub fn make_line(&self, line: &mut LineText, number: usize)
        requires { number < 23 }
        ensures { slice_get (lines_of self.now) number ≡ Some line.new }
    {
        line.clear();
        match number {
            0 => push_storm(line, self.seed, self.cycles),
            1..=7 => {
                let (words, count) = self.counted(number);
                push_count(line, words, count);
            }
            8..=21 => {
                let (words, count) = self.dropped(number);
                push_count(line, words, count);
            }
            _ => push_spread(line, self.spread, self.precision),
        }
    }

    // What the line of this number, from 1 to 7, counts: its words and the count.
    fn counted(&self, number: usize) -> (&'static str, u64)
        requires least { 1 ≤ number }
        requires most { number ≤ 7 }
        ensures line { slice_get (lines_of self.now) number ≡ Some (count_line result.0.now result.1) }
        ensures short { length result.0.now ≤ 22 }
    {
        let counts = &self.counts;
        match number {
            1 => ("records", counts.records),
            2 => ("compressed", counts.compressed),
            3 => ("corrected", counts.corrected),
            4 => ("lost", counts.lost),
            5 => ("ttsent", counts.tt_sent),
            6 => ("accepted", counts.accepted),
            _ => ("delivered", counts.delivered),
        }
    }

    // What the line of this number, from 8 to 21, counts.
    fn dropped(&self, number: usize) -> (&'static str, u64)
        requires least { 8 ≤ number }
        requires most { number ≤ 21 }
        ensures line { slice_get (lines_of self.now) number ≡ Some (count_line result.0.now result.1) }
        ensures short { length result.0.now ≤ 22 }
    {
        let drops = &self.counts.dropped;
        match number {
            8 => ("dropped off", drops.off),
            9 => ("dropped refused", drops.refused),
            10 => ("dropped coldstart", drops.cold_start),
            11 => ("dropped domain", drops.domain),
            12 => ("dropped member", drops.member),
            13 => ("dropped old", drops.too_old),
            14 => ("dropped gate", drops.gate),
            15 => ("dropped cycle", drops.cycle),
            16 => ("dropped unsynchronised", drops.unsynchronised),
            17 => ("dropped unknown", drops.unknown),
            18 => ("dropped length", drops.wrong_length),
            19 => ("dropped early", drops.early),
            20 => ("dropped late", drops.late),
            _ => ("dropped repeat", drops.repeated),
        }
    }
}

fn push_storm(line: &mut LineText, seed: u64, cycles: u32)
    requires { length line.old + 100 ≤ line_limit }
    ensures { line.new ≡ line.old ++ storm_line seed cycles }
{
    line.push("storm seed ");
    line.push_decimal(seed);
    line.push(" cycles ");
    line.push_decimal(cycles.into());
    line.push("\n");
}

fn push_count(line: &mut LineText, words: &str, count: u64)
    requires room { length line.old + 100 ≤ line_limit }
    requires short { length words.now ≤ 22 }
    ensures { line.new ≡ line.old ++ count_line words.now count }
{
    line.push(words);
    line.push(" ");
    line.push_decimal(count);
    line.push("\n");
}

fn push_spread(line: &mut LineText, spread: Units, precision: Units)
    requires { length line.old + 100 ≤ line_limit }
    ensures { line.new ≡ line.old ++ spread_line spread precision }
{
    line.push("spread ");
    push_units(line, spread);
    line.push(" precision ");
    push_units(line, precision);
    line.push("\n");
}

// Adds a number of units, which takes at most 21 octets.
fn push_units(line: &mut LineText, units: Units)
    requires { length line.old + 21 ≤ line_limit }
    ensures text { line.new ≡ line.old ++ signed_decimal units.0 }
    ensures grows { length line.new ≤ length line.old + 21 }
{
    if units.0 < 0 {
        line.push("-");
    }
    line.push_decimal(units.0.unsigned_abs());
}
