ghost use Rattle.std.specs.{Int.div_ceil, Prelude.{◌%◌, ◌*ℤ◌, ◌*◌, ◌+◌, ◌-◌, ◌/◌, ◌<◌, ◌^◌, ◌≡◌, ◌≤◌, pos, unsigned_abs}};
ghost use Rattle.drift_clock.specs.{Counts.gain, Segment.counted};

use crate::Clock;
use std::marker::Model;
use tte_units::{Ppb, Units};

// The parts in which a unit is counted.
const PARTS: u64 = 1_000_000_000;

// How long a stretch is at most whose drift is reckoned in 64 bits: 2^42 units.
const SHORT: u64 = 1 << 42;

// More whole units than a clock drifts by in a short stretch.
const SHIFT: u64 = 4_500_000_000;

/// A clock that counts exactly: it keeps its count at the last rate step, in whole units and parts, and the rate since.
#[derive(Clone, Copy, PartialEq, Eq)]
pub struct SegmentClock {
    grain: u64,
    at: u64,
    whole: u64,
    part: u64,
    rate: Ppb,
}

impl Model for SegmentClock {
    ghost use Rattle.std.specs.Prelude.{◌/◌, ◌%◌, ◌^◌, ◌<◌};
    ghost use Rattle.drift_clock.specs.Segment.{Segment, IsSegment, counted};

    ghost Value = { Segment };

    ghost view = { λ c. record { grain = c.grain; at = c.at; count = counted c.whole c.part; rate = c.rate.0 } };

    ghost invariant = { λ c. IsSegment c.grain c.at (counted c.whole c.part) c.rate.0 × (c.part < 10 ^ 9) };

    ghost inverse = { λ c. record {
      grain = c.grain;
      at = c.at;
      whole = c.count / 10 ^ 9;
      part = c.count % 10 ^ 9;
      rate = record { 0 = c.rate };
    } };

    ghost use Rattle.drift_clock.specs.Splits.{split_back};

    ghost inverse_ok = { λ c h. split_back c h.1 };
}

impl Clock for SegmentClock {
    ghost use Rattle.std.{proofs.Common.rules, specs.Prelude.refl};
    ghost use Rattle.drift_clock.specs.Segment.{Segment, fresh_segment, segment_count, segment_reading};
    ghost use Rattle.drift_clock.specs.{Segment.stepped_segment, SegmentLaws.{advances, counts_time, keeps_count}};

    ghost fresh = { fresh_segment };

    ghost after_step = { stepped_segment };

    ghost reading = { segment_reading };

    ghost grain_of = { λ c. c.grain };

    ghost last_step = { λ c. c.at };

    ghost count = { segment_count };

    fn fresh(grain: Units) -> SegmentClock {
        SegmentClock {
            grain: grain.amount(),
            at: 0,
            whole: 0,
            part: 0,
            rate: Ppb(0),
        }
    }

    fn grain(&self) -> Units {
        Units::from_amount(self.grain)
    }

    fn read(&self, t: Units) -> Units {
        let whole = self.count_at(t.amount()).whole;
        Units::from_amount(in_grains(whole, self.grain))
    }

    fn reach(&self, from: Units, v: Units) -> Units {
        if v.0 <= 0 {
            return from;
        }
        let goal = full_grains(v.amount(), self.grain);
        if goal <= self.whole {
            return from;
        }
        let reached = self.time_of(goal);
        if reached < from.amount() {
            return from;
        }
        Units::from_amount(reached)
    }

    fn rate(&mut self, t: Units, r: Ppb) {
        let t = t.amount();
        let count = self.count_at(t);
        self.whole = count.whole;
        self.part = count.part;
        self.at = t;
        self.rate = r;
    }

    ghost has_grain = { λ g. refl };

    ghost keeps_grain = { λ c t r. refl };

    ghost begins_unstepped = { λ g. refl };

    ghost steps_by = { Prim.search rules };

    ghost reads_count = { λ c t. refl };

    ghost counts_time = { λ g t. counts_time g t };

    ghost keeps_count = { λ c t r. keeps_count c t r };

    ghost drifts = { λ c s t u r rho small most from to. advances c s t u r rho small most from to };
}

// A count in whole units and parts of 10^9 of one.
#[derive(Clone, Copy)]
struct GrainTally {
    whole: u64,
    part: u64,
}

impl SegmentClock {
    ghost use Rattle.std.specs.Prelude.{ℕ, ◌+◌, ◌*◌, ◌<◌};
    ghost use Rattle.drift_clock.specs.Segment.{segment_count};

    // The count at a time that is not before the last rate step.
    fn count_at(&self, t: u64) -> GrainTally
        requires stepped { self.now.at ≤ t }
        requires limit { t ≤ 2 ^ 60 }
        ensures count { counted result.whole result.part ≡ segment_count self.now t }
        ensures part { result.part < 10 ^ 9 }
    {
        let since = t - self.at;
        if self.rate.0 == 0 {
            return GrainTally {
                whole: self.whole + since,
                part: self.part,
            };
        }
        if since < SHORT {
            return drifted(self.whole, self.part, self.rate, since);
        }
        let count = in_parts(self.whole, self.part)
            + u128::from(gain_of(self.rate)) * u128::from(since);
        split(count)
    }

    // The least time, from the last rate step on, at which so many units are counted.
    fn time_of(&self, goal: u64) -> u64
        requires limit { goal ≤ 2 ^ 61 + 2 ^ 20 }
        requires ahead { self.now.count ≤ 10 ^ 9 * goal }
        ensures stepped { self.now.at ≤ result }
        ensures counted { 10 ^ 9 * goal ≤ segment_count self.now result }
        ensures not_before { (t : ℕ) → self.now.at ≤ t → t < result
            → segment_count self.now t < 10 ^ 9 * goal }
        ensures bound { result < 2 ^ 63 }
    {
        self.at + self.steps_to(goal)
    }

    // The fewest steps, from the last rate step on, by which so many units are counted.
    fn steps_to(&self, goal: u64) -> u64
        requires limit { goal ≤ 2 ^ 61 + 2 ^ 20 }
        requires ahead { self.now.count ≤ 10 ^ 9 * goal }
        ensures { result ≡ div_ceil (10 ^ 9 * goal - self.now.count) (gain self.now.rate) }
    {
        let missing = goal - self.whole;
        if self.rate.0 == 0 {
            return missing;
        }
        if missing < SHORT {
            return short_steps(missing, self.part, self.rate);
        }
        let lacking = u128::from(goal) * u128::from(PARTS) - in_parts(self.whole, self.part);
        lacking.div_ceil(u128::from(gain_of(self.rate))) as u64
    }
}

// So many whole units and parts, and what is counted at the rate in a short stretch.
fn drifted(whole: u64, part: u64, rate: Ppb, since: u64) -> GrainTally
    requires whole { whole ≤ 2 ^ 61 }
    requires part { part < 10 ^ 9 }
    requires short { since < 2 ^ 42 }
    requires slow { unsigned_abs rate.0 ≤ 1000000 }
    ensures count { counted result.whole result.part ≡ counted whole part + gain rate.0 * since }
    ensures part { result.part < 10 ^ 9 }
{
    let more = shifted_parts(part, rate, since);
    GrainTally {
        whole: whole + since + more / PARTS - SHIFT,
        part: more % PARTS,
    }
}

// The drift of a short stretch, in parts.
fn drift_of(rate: Ppb, since: u64) -> i64
    requires short { since < 2 ^ 42 }
    requires slow { unsigned_abs rate.0 ≤ 1000000 }
    ensures is { result ≡ (rate.0 *ℤ pos since) }
    ensures bound { unsigned_abs result ≤ 4400000000000000000 }
{
    i64::from(rate.0) * since as i64
}

// The parts and the drift of a short stretch, and the shift.
fn shifted_parts(part: u64, rate: Ppb, since: u64) -> u64
    requires part { part < 10 ^ 9 }
    requires short { since < 2 ^ 42 }
    requires slow { unsigned_abs rate.0 ≤ 1000000 }
    ensures { result + 10 ^ 9 * since ≡ 10 ^ 9 * 4500000000 + part + gain rate.0 * since }
{
    ((SHIFT * PARTS + part) as i64 + drift_of(rate, since)) as u64
}

// The fewest steps at the rate by which so many units less a part are counted, where these are few.
fn short_steps(missing: u64, part: u64, rate: Ppb) -> u64
    requires part { part < 10 ^ 9 }
    requires some { part ≤ 10 ^ 9 * missing }
    requires short { missing < 2 ^ 42 }
    requires slow { unsigned_abs rate.0 ≤ 1000000 }
    ensures { result ≡ div_ceil (10 ^ 9 * missing - part) (gain rate.0) }
{
    let each = gain_of(rate);
    let more = shifted_lack(missing, part, rate, each);
    missing + more.div_ceil(each) - SHIFT
}

// What is lacking of so many units less a part, after as many steps at the rate, and the shift.
fn shifted_lack(missing: u64, part: u64, rate: Ppb, each: u64) -> u64
    requires part { part < 10 ^ 9 }
    requires some { part ≤ 10 ^ 9 * missing }
    requires short { missing < 2 ^ 42 }
    requires slow { unsigned_abs rate.0 ≤ 1000000 }
    requires each { each ≡ gain rate.0 }
    ensures { result + each * missing + part ≡ 10 ^ 9 * missing + each * 4500000000 }
{
    ((SHIFT * each - part) as i64 - drift_of(rate, missing)) as u64
}

// The count of whole units and parts, in parts.
fn in_parts(whole: u64, part: u64) -> u128
    requires { part < 10 ^ 9 }
    ensures { result ≡ counted whole part }
{
    u128::from(whole) * u128::from(PARTS) + u128::from(part)
}

// A count of parts, in whole units and parts.
fn split(count: u128) -> GrainTally
    requires { count < 10 ^ 9 * 2 ^ 63 }
    ensures count { counted result.whole result.part ≡ count }
    ensures part { result.part < 10 ^ 9 }
{
    let parts = u128::from(PARTS);
    GrainTally {
        whole: (count / parts) as u64,
        part: (count % parts) as u64,
    }
}

// Whole units in whole grains.
fn in_grains(whole: u64, grain: u64) -> u64
    requires { 1 ≤ grain }
    ensures { result ≡ grain * (whole / grain) }
{
    if grain == 1 {
        return whole;
    }
    grain * (whole / grain)
}

// The first whole grains from a value on.
fn full_grains(value: u64, grain: u64) -> u64
    requires some { 1 ≤ grain }
    requires fine { grain ≤ 2 ^ 20 }
    requires limit { value ≤ 2 ^ 61 }
    ensures whole { result % grain ≡ 0 }
    ensures enough { value ≤ result }
    ensures least { result < value + grain }
{
    if grain == 1 {
        return value;
    }
    value.next_multiple_of(grain)
}

// What is counted in one unit of time.
fn gain_of(rate: Ppb) -> u64
    requires { unsigned_abs rate.0 ≤ 1000000 }
    ensures { result ≡ gain rate.0 }
{
    (PARTS as i64 + i64::from(rate.0)) as u64
}
