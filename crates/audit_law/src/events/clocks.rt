ghost use Rattle.std.specs.List.{All, Sorted.{IsNonDecreasingBy, IsPartitionPoint}};
ghost use Rattle.std.specs.Prelude.{◌^◌, ◌≡◌, ◌≤ℤ◌, ◌≤◌, Option, false, length, pos, true, ℕ};
ghost use Rattle.drift_clock.specs.{Reach.IsReach, Segment.segment_reading};
ghost use Rattle.audit_law.specs.events.Clocks.{AreClocks, HasReached, IsReadable, IsShortOf, clocks_reading, reading_then};
ghost use Rattle.audit_law.specs.events.Reaches.{IsFirstReach};

use crate::events::settings::{Setting, Settings};
use drift_clock::{Clock, SegmentClock};
use tte_units::Units;

/// What the clock reads at a time up to 2^60.
pub(crate) fn reading(clocks: &Settings<SegmentClock>, time: u64) -> u64
    requires clocks { AreClocks clocks.now.initial clocks.now.changes.items }
    requires limit { time ≤ 2 ^ 60 }
    ensures { result ≡ clocks_reading clocks.now.initial clocks.now.changes.items time }
{
    let clock = clocks.at(time);
    clock.read(Units::from_amount(time)).amount()
}

/// The least time from `from` on, up to `until`, at which the clock reads at least the goal, which is at most 2^61.
pub(crate) fn reach(
    clocks: &Settings<SegmentClock>,
    from: u64,
    goal: Units,
    until: u64,
) -> Option<u64>
    requires clocks { AreClocks clocks.now.initial clocks.now.changes.items }
    requires start { from ≤ until }
    requires limit { until ≤ 2 ^ 60 }
    requires goal { goal.0 ≤ℤ pos (2 ^ 61) }
    ensures { IsFirstReach (clocks_reading clocks.now.initial clocks.now.changes.items) from goal.0 until result }
{
    let last = last_short(clocks, from, goal);
    time_up_to(&last.value, last.from, goal, until)
}

// The clock from which on the goal is sought: as the last change leaves it at which it still reads less, or else as it
// is at `from`.
fn last_short(clocks: &Settings<SegmentClock>, from: u64, goal: Units) -> Setting<SegmentClock>
    requires clocks { AreClocks clocks.now.initial clocks.now.changes.items }
    requires limit { from ≤ 2 ^ 60 }
    ensures readable { IsReadable result }
    ensures same { (until : ℕ) (first : Option ℕ)
        → IsFirstReach (segment_reading result.value) result.from goal.0 until first
        → IsFirstReach (clocks_reading clocks.now.initial clocks.now.changes.items) from goal.0 until first }
{
    let later = clocks.after(from);
    let count = count_short(later, goal);
    if count == 0 {
        Setting {
            from,
            value: clocks.at(from),
        }
    } else {
        later[count - 1]
    }
}

// At how many changes the clock reads less than the goal. Readings never fall, so these are the first ones.
fn count_short(changes: &[Setting<SegmentClock>], goal: Units) -> usize
    requires each { All IsReadable changes.now }
    requires rising { IsNonDecreasingBy reading_then changes.now }
    ensures bound { result ≤ length changes.now }
    ensures part { IsPartitionPoint (IsShortOf goal.0) (HasReached goal.0) changes.now result }
{
    let mut low = 0;
    let mut high = changes.len();
    'halves: while low < high {
        let middle = low + (high - low) / 2;
        if is_short(&changes[middle], goal) {
            low = middle + 1;
        } else {
            high = middle;
        }
    }
    low
}

// Does the clock read less than the goal when it changes?
fn is_short(change: &Setting<SegmentClock>, goal: Units) -> bool
    requires readable { IsReadable change.now }
    ensures short { result ≡ true → IsShortOf goal.0 change.now }
    ensures reached { result ≡ false → HasReached goal.0 change.now }
{
    change.value.read(Units::from_amount(change.from)).0 < goal.0
}

// The least such time up to `until`.
fn time_up_to(clock: &SegmentClock, from: u64, goal: Units, until: u64) -> Option<u64>
    requires stepped { clock.now.at ≤ from }
    requires limit { from ≤ 2 ^ 60 }
    requires goal { goal.0 ≤ℤ pos (2 ^ 61) }
    ensures { IsFirstReach (segment_reading clock.now) from goal.0 until result }
{
    let time = time_of(clock, from, goal);
    if time <= until { Some(time) } else { None }
}

// The least time from `from` on at which the clock, at its present rate, reads at least the goal.
fn time_of(clock: &SegmentClock, from: u64, goal: Units) -> u64
    requires stepped { clock.now.at ≤ from }
    requires limit { from ≤ 2 ^ 60 }
    requires goal { goal.0 ≤ℤ pos (2 ^ 61) }
    ensures { IsReach (segment_reading clock.now) (pos from) goal.0 (pos result) }
{
    clock.reach(Units::from_amount(from), goal).amount()
}
