ghost use Rattle.std.specs.Prelude.{◌++◌, ◌+ℤ◌, ◌+◌, ◌^◌, ◌↔◌, ◌∷◌, ◌≡◌, ◌≤ℤ◌, ◌≤◌, IfNone, IfSome, IsSomeAnd, IsTrue};
ghost use Rattle.std.specs.Prelude.{List, Option, SomeIff, [], neg_ℤ, pos, ℕ};
ghost use Rattle.sync_state.specs.{Plan.IsPlan, correction.Deviation.IsSmall};
ghost use Rattle.sync_state.specs.{Verdicts.members_of_best, membership.Summary.{Summary, best_on}};
ghost use Rattle.sync_state.specs.Calls.{CarriesOn, StandsAfter, after, heard_frame, reached_point, turned_on};
ghost use Rattle.sync_state.specs.{Integration.{Integrates, joined_by}, Standing.{IsAtIntegration, begun, next_point}};
ghost use Rattle.sync_state.specs.Verdicts.{HasVerdict, IfCorrected, IsNear, IsOutnumbered, deviation_on};
ghost use Rattle.tte_units.specs.{Reading.{greatest_reading, least_reading}, declared.units.Units.Units};

use crate::correction::{correction, deviation};
use crate::membership::{Heard, count};
use crate::{Joined, State, SyncPlan, Verdict};
use std::marker::Model;
use tte_units::Units;
use tte_units::frames::{Channel, Pcf};

/// A frame of a later cycle integrates no device.
pub const LAST_CYCLE: u32 = (1 << 20) + (1 << 17);

/// The synchronisation of one device: its state, its adjustment, and the cycle of its next
/// correction point.
#[derive(Clone, Copy, PartialEq, Eq)]
pub struct Sync {
    plan: SyncPlan,
    state: State,
    adjustment: Units,
    /// The cycle of the next correction point, where the state has one.
    number: u32,
    /// The cycle of the frame that integrated the device last.
    integrated: Option<u32>,
}

impl Model for Sync {
    ghost use Rattle.sync_state.specs.{Plan.IsPlan, Standing.Standing};

    ghost Value = { Standing };

    ghost view = { λ s. record {
      plan = s.plan;
      state = s.state;
      adjustment = s.adjustment;
      number = s.number;
      integrated = s.integrated;
    } };

    ghost invariant = { λ s. IsPlan s.plan };

    ghost inverse = { λ s. record {
      plan = s.plan;
      state = s.state;
      adjustment = s.adjustment;
      number = s.number;
      integrated = s.integrated;
    } };
}

impl Sync {
    /// A device that begins synchronised with the adjustment `start`, or off where there is none.
    ///
    /// The plan's values are in their ranges.
    pub fn new(plan: SyncPlan, start: Option<Units>) -> Sync
        requires { IsPlan plan }
        ensures value { result ≡ begun plan start }
        ensures calls { StandsAfter plan start [] result }
    {
        Sync {
            plan,
            state: if start.is_some() {
                State::Synchronised
            } else {
                State::Off
            },
            adjustment: start.unwrap_or(Units(0)),
            number: 1,
            integrated: None,
        }
    }

    /// Where the device stands.
    pub fn state(&self) -> State
        ensures { result ≡ self.now.state }
    {
        self.state
    }

    /// What the local clock shows beyond the reading.
    pub fn adjustment(&self) -> Units
        ensures { result ≡ self.now.adjustment }
    {
        self.adjustment
    }

    /// The cycle of the next correction point. It is None exactly where the device is off or
    /// integrating.
    pub fn next_correction(&self) -> Option<u32>
        ensures { result ≡ next_point self.now }
    {
        match self.state {
            State::Off | State::Integrating => None,
            State::Joining | State::Synchronised => Some(self.number),
        }
    }

    /// Turns on the device, which is off.
    pub fn on(&mut self)
        requires { self.old.state ≡ State.Off }
        ensures value { self.new ≡ after self.old turned_on }
        ensures calls { CarriesOn self.old turned_on self.new }
    {
        self.state = State::Integrating;
    }

    /// Joins by a frame with this permanence point. It is None exactly where the device is not
    /// integrating, the frame has fewer members than the threshold, or its cycle exceeds
    /// 2^20 + 2^17, and then nothing changes.
    ///
    /// `point` lies from -(2^61 + 2^58) to 2^61 + 2^58.
    pub fn integrate(&mut self, frame: &Pcf, point: Units) -> Option<Joined>
        requires low { least_reading ≤ℤ point.0 }
        requires high { point.0 ≤ℤ greatest_reading }
        ensures joined { SomeIff result (Integrates self.old frame.now)
            (joined_by self.old.plan frame.now point) }
        ensures none { IfNone result (self.new ≡ self.old) }
        ensures value { self.new ≡ after self.old (heard_frame frame.now point result) }
        ensures calls { CarriesOn self.old (heard_frame frame.now point result) self.new }
    {
        let joined = self.joined_by(frame, point)?;
        self.state = State::Joining;
        self.adjustment = joined.adjustment;
        self.number = joined.cycle;
        self.integrated = Some(joined.cycle);
        Some(joined)
    }

    /// Judges what was heard since the last correction point, and corrects the clock, at the
    /// correction point of the cycle that `next_correction` answers.
    ///
    /// That cycle is at most 2^21 + 2^18. For the best frame of each channel its expected local
    /// value less its point, and that less the adjustment, lie strictly between -2^61 and 2^61.
    pub fn at_correction(&mut self, heard: &Heard) -> Verdict
        requires number { IsSomeAnd (next_point self.old) (λ n. n ≤ 2 ^ 21 + 2 ^ 18) }
        requires near_a { IfSome heard.now.best_a (IsNear self.old) }
        requires near_b { IfSome heard.now.best_b (IsNear self.old) }
        ensures verdict { HasVerdict self.old heard.now result }
        ensures value { self.new ≡ after self.old (reached_point heard.now result) }
        ensures small { IfCorrected result (λ _. IsSmall self.new.adjustment.0) }
        ensures calls { CarriesOn self.old (reached_point heard.now result) self.new }
    {
        let verdict = self.verdict(heard);
        self.follow(verdict);
        verdict
    }

    /// How the frame integrates the device, if it does.
    fn joined_by(&self, frame: &Pcf, point: Units) -> Option<Joined>
        requires low { least_reading ≤ℤ point.0 }
        requires high { point.0 ≤ℤ greatest_reading }
        ensures { SomeIff result (Integrates self.now frame.now)
            (joined_by self.now.plan frame.now point) }
    {
        let integrates = self.state == State::Integrating
            && count(frame.members) >= self.plan.threshold
            && frame.cycle <= LAST_CYCLE;
        if !integrates {
            return None;
        }
        Some(Joined {
            cycle: frame.cycle,
            adjustment: Units(self.plan.expected_at(frame.cycle).0 - point.0),
        })
    }

    /// What the correction point comes to.
    fn verdict(&self, heard: &Heard) -> Verdict
        requires number { self.now.number ≤ 2 ^ 21 + 2 ^ 18 }
        requires near_a { IfSome heard.now.best_a (IsNear self.now) }
        requires near_b { IfSome heard.now.best_b (IsNear self.now) }
        ensures verdict { HasVerdict self.now heard.now result }
        ensures small { IfCorrected result (λ by. IsSmall (self.now.adjustment.0 +ℤ by.0)) }
    {
        if self.is_at_integration() {
            return Verdict::Cleared;
        }
        let a = self.deviation_on(heard, Channel::A);
        let b = self.deviation_on(heard, Channel::B);
        match correction(a, b) {
            None => Verdict::SyncClique,
            Some(_) if is_outnumbered(heard) => Verdict::AsyncClique,
            Some(by) => Verdict::Corrected(by),
        }
    }

    /// Does what the verdict says, and goes on to the next correction point.
    fn follow(&mut self, verdict: Verdict)
        requires number { self.old.number ≤ 2 ^ 21 + 2 ^ 18 }
        requires small { IfCorrected verdict (λ by. IsSmall (self.old.adjustment.0 +ℤ by.0)) }
        ensures { (heard : Summary) → self.new ≡ after self.old (reached_point heard verdict) }
    {
        self.number += 1;
        match verdict {
            Verdict::Corrected(by) => {
                self.state = State::Synchronised;
                self.adjustment = Units(self.adjustment.0 + by.0);
            }
            Verdict::SyncClique | Verdict::AsyncClique => self.state = State::Integrating,
            Verdict::Cleared => {}
        }
    }

    /// Whether the correction point is that of the cycle by whose frame the device joined.
    fn is_at_integration(&self) -> bool
        ensures { IsTrue result ↔ IsAtIntegration self.now }
    {
        self.state == State::Joining && self.integrated == Some(self.number)
    }

    /// How far the clock is behind by the channel's best frame, where the channel qualifies.
    fn deviation_on(&self, heard: &Heard, channel: Channel) -> Option<Units>
        requires number { self.now.number ≤ 2 ^ 21 + 2 ^ 18 }
        requires near { IfSome (best_on channel heard.now) (IsNear self.now) }
        ensures value { result ≡ deviation_on self.now heard.now channel }
        ensures small { IfSome result (λ d. IsSmall d.0) }
    {
        if !heard.qualified(channel, self.plan.threshold) {
            return None;
        }
        let frame = heard.best(channel)?;
        let expected = self.plan.expected_at(self.number);
        Some(deviation(expected, frame.point, self.adjustment))
    }
}

/// Whether at least as many masters were heard outside as the best frame with most members has.
pub fn is_outnumbered(heard: &Heard) -> bool
    ensures { IsTrue result ↔ IsOutnumbered heard.now }
{
    let most = members_of_best(heard, Channel::A).max(members_of_best(heard, Channel::B));
    count(heard.outside()) >= most
}

/// How many members the channel's best frame has, or 0 where there is none.
fn members_of_best(heard: &Heard, channel: Channel) -> u32
    ensures { result ≡ members_of_best heard.now channel }
{
    heard.best(channel).map_or(0, |frame| count(frame.members))
}
