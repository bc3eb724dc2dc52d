ghost use Rattle.std.specs.Prelude.{◌*◌, ◌-◌, ◌^◌, ◌≡◌, ◌≤ℤ◌, ◌≤◌, pos, unsigned_abs, ℕ, ℤ};
ghost use Rattle.drift_clock.specs.{Counts.{Advances, rounded}, Reach.IsReach};

use tte_units::{Ppb, Units};

/// A clock that was set going at time 0, and whose rate is changed step by step.
///
/// It reads whole grains, rounded down. The values that `fresh` and each `rate` give determine all
/// that it reads.
pub trait Clock: Drop {
    /// The clock of a grain as it begins.
    ghost fresh: { ℕ → Self };

    /// The clock after its rate is set at a time.
    ghost after_step: { Self → ℕ → ℤ → Self };

    /// The reading at a time.
    ghost reading: { Self → ℕ → ℕ };

    /// The grain that it was made with.
    ghost grain_of: { Self → ℕ };

    /// The time of the last step that changed it, or 0.
    ghost last_step: { Self → ℕ };

    /// The count at a time, in parts of 10^9 of a unit.
    ghost count: { Self → ℕ → ℕ };

    /// A clock that reads 0 at time 0 and has the rate 0.
    ///
    /// The grain is from 1 to 1,048,576 units.
    fn fresh(grain: Units) -> Self
        requires some { pos 1 ≤ℤ grain.0 }
        requires fine { grain.0 ≤ℤ pos (2 ^ 20) }
        ensures { result ≡ fresh (unsigned_abs grain.0) };

    /// The grain that it was made with: each reading is a multiple of it.
    fn grain(&self) -> Units
        ensures { result.0 ≡ pos (grain_of self.now) };

    /// The reading at time `t`, which is not before the last rate step, and at most 2^60.
    fn read(&self, t: Units) -> Units
        requires stepped { pos (last_step self.now) ≤ℤ t.0 }
        requires limit { t.0 ≤ℤ pos (2 ^ 60) }
        ensures { result.0 ≡ pos (reading self.now (unsigned_abs t.0)) };

    /// The least time from `from` on at which the reading is at least `v`, at the present rate.
    ///
    /// `from` is not before the last rate step, and at most 2^60; `v` is at most 2^61.
    fn reach(&self, from: Units, v: Units) -> Units
        requires stepped { pos (last_step self.now) ≤ℤ from.0 }
        requires limit { from.0 ≤ℤ pos (2 ^ 60) }
        requires value { v.0 ≤ℤ pos (2 ^ 61) }
        ensures { IsReach (reading self.now) from.0 v.0 result.0 };

    /// Goes on at rate `r` from time `t` on. The count at `t` stays.
    ///
    /// `t` is not before the last rate step, and at most 2^60; the magnitude of `r` is at most
    /// 1,000,000.
    fn rate(&mut self, t: Units, r: Ppb)
        requires stepped { pos (last_step self.old) ≤ℤ t.0 }
        requires limit { t.0 ≤ℤ pos (2 ^ 60) }
        requires magnitude { unsigned_abs r.0 ≤ 1000000 }
        ensures { self.new ≡ after_step self.old (unsigned_abs t.0) r.0 };

    /// It keeps its grain.
    ghost has_grain: { (g : ℕ) → grain_of (fresh g) ≡ g };

    ghost keeps_grain: { (c : Self) (t : ℕ) (r : ℤ) → grain_of (after_step c t r) ≡ grain_of c };

    /// It may be read from its last step on.
    ghost begins_unstepped: { (g : ℕ) → last_step (fresh g) ≡ 0 };

    ghost steps_by: { (c : Self) (t : ℕ) (r : ℤ) → last_step (after_step c t r) ≤ t };

    /// It reads its count in whole grains.
    ghost reads_count: { (c : Self) (t : ℕ) → reading c t ≡ rounded (grain_of c) (count c t) };

    /// Before any step it counts the time.
    ghost counts_time: { (g t : ℕ) → count (fresh g) t ≡ 10 ^ 9 * t };

    /// A step keeps the count.
    ghost keeps_count: { (c : Self) (t : ℕ) (r : ℤ) → count (after_step c t r) t ≡ count c t };

    /// After a step the count drifts by no more than its rate.
    ghost drifts: { (c : Self) (s t u : ℕ) (r : ℤ) (rho : ℕ) → unsigned_abs r ≤ rho → rho ≤ 1000000
        → s ≤ t → t ≤ u → Advances rho (u - t) (count (after_step c s r) t) (count (after_step c s r) u) };
}
