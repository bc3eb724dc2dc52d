ghost use Rattle.std.specs.Int.{int_div_euclid};
ghost use Rattle.std.specs.Prelude.{◌++◌, ◌+ℤ◌, ◌+◌, ◌-ℤ◌, ◌-◌, ◌^◌, ◌∷◌, ◌≡◌, ◌≤ℤ◌, ◌≤◌, List, [], neg_ℤ, pos, ℕ};
ghost use Rattle.net_plan.specs.Ranges.{IsInRange};
ghost use Rattle.run_law.specs.device.Standpoints.{natural};

use crate::Carried;
use crate::effect::{Effect, effect_of};
use device_rules::{correction_value, joined_adjustment, start_of};
use net_plan::{DeviceId, Network};
use run_law::NoteBody;
use std::marker::Model;
use sync_state::State;
use sync_state::membership::{Heard, HeardFrame};
use tte_units::Units;
use tte_units::frames::Channel;

/// What a device's clock reads at a time, and a unit of time before.
#[derive(Clone, Copy)]
pub struct Readings {
    pub now: u64,
    pub before: u64,
}

/// What the records so far show of a device. Times, readings and adjustments are in units of 2^-16 ns.
#[derive(Clone, Copy)]
pub struct Shown {
    state: State,
    adjustment: i128,
    /// The cycle of the correction point that the records leave as the next.
    cycle: u64,
    /// The cycle of the frame that told the device the time last.
    integrated: Option<u32>,
    /// When the adjustment changed last, or 0.
    changed: u64,
    /// What the local clock showed right after that.
    at_change: i128,
    /// When a frame told the device the time last.
    joined: Option<u64>,
    /// What was heard where `come` correction points had come since the change, as at the last hearing.
    heard: Heard,
    come: u64,
}

impl Model for Shown {
    ghost use Rattle.audit_devices.specs.Showing.{IsBounded, Shown as Showing};

    ghost Value = { Showing };

    ghost view = { λ s. record {
      state = s.state;
      adjustment = s.adjustment;
      cycle = s.cycle;
      integrated = s.integrated;
      changed = s.changed;
      at_change = s.at_change;
      joined = s.joined;
      heard = s.heard;
      come = s.come;
    } };

    ghost invariant = { λ s. IsBounded s.adjustment s.cycle s.at_change };

    ghost inverse = { λ s. record {
      state = s.state;
      adjustment = s.adjustment;
      cycle = s.cycle;
      integrated = s.integrated;
      changed = s.changed;
      at_change = s.at_change;
      joined = s.joined;
      heard = s.heard;
      come = s.come;
    } };
}

impl Shown {
    ghost use Rattle.audit_devices.specs.Following.{Follows, HearsOne, IsMet, adjustment_at, changed_to, joined_to};
    ghost use Rattle.audit_devices.specs.Reading.{OnlyJoined, ReadBefore};
    ghost use Rattle.audit_devices.specs.Showing.{IsAfter, IsSteady, NoneLater, Shows, heard_by_then, points_by};
    ghost use Rattle.audit_law.specs.law.CorrectionNumbers.{heard_since_point, next_number};
    ghost use Rattle.sync_state.specs.membership.Summary.{Summarizes, Summary};
    ghost use Rattle.net_plan.specs.declared.ids.DeviceId.{DeviceId};
    ghost use Rattle.run_law.specs.device.States.{adjustment_at_hearing, has_joined_at, state_before};
    ghost use Rattle.run_law.specs.records.Happenings.{Happening, earlier, time_of};
    ghost use Rattle.run_law.specs.scenario.Scenarios.{Scenario, is_turned_on_at};

    /// What no record shows of the device: it stands as the network says.
    pub fn new(network: &Network, device: DeviceId) -> Shown
        ensures { (s : Scenario) → s.network ≡ network.now → IsSteady s device → Shows s [] device result }
    {
        let start = start_of(network, device);
        let adjustment = i128::from(start.map_or(0, |units| units.0));
        Shown {
            state: if start.is_some() {
                State::Synchronised
            } else {
                State::Off
            },
            adjustment,
            cycle: 1,
            integrated: None,
            changed: 0,
            at_change: adjustment,
            joined: None,
            heard: Heard::new(),
            come: 0,
        }
    }

    /// What is shown with one more record, which is none of an earlier time.
    pub fn after(
        &self,
        network: &Network,
        device: DeviceId,
        time: u64,
        body: &NoteBody,
        carried: Carried,
        readings: Readings,
    ) -> Shown
        requires { IsInRange network.now }
        ensures { (s : Scenario) (hs : List Happening) (h : Happening) → s.network ≡ network.now
            → IsMet s device h time body.now carried readings → NoneLater (time_of h) hs → Shows s hs device self.now
            → Shows s (hs ++ h ∷ []) device result }
    {
        let mut shown = *self;
        let effect = effect_of(network, device, carried, body);
        shown.follow(network, device, time, readings, effect);
        shown
    }

    /// How many correction points have come since the last change of the adjustment, where the clock read this a unit
    /// of time ago.
    pub fn points_come(&self, network: &Network, before: u64) -> u64
        requires { IsInRange network.now }
        ensures value { result ≡ points_by network.now self.now before }
        ensures few { result ≤ 2 ^ 50 }
    {
        let first = correction_value(network, self.cycle);
        let local = i128::from(before) + self.adjustment;
        if self.at_change < first && first <= local {
            cycles_in((local - first) as u128, network) + 1
        } else {
            0
        }
    }

    /// The cycle of the device's next correction point at a time, by what the records of earlier times show.
    pub fn next_number(&self, network: &Network, before: u64) -> u64
        requires { IsInRange network.now }
        ensures { (s : Scenario) (hs : List Happening) (device : DeviceId) (t : ℕ)
            → ReadBefore s network.now device t before → Shows s (earlier t hs) device self.now
            → result ≡ next_number s hs device t }
    {
        self.cycle + self.points_come(network, before)
    }

    /// What the device has heard since its last correction point before a time. This is what records show of which
    /// none is later, and none of the time changes the adjustment.
    pub fn heard_since(&self, network: &Network, before: u64) -> Heard
        requires { IsInRange network.now }
        ensures { (s : Scenario) (hs : List Happening) (device : DeviceId) (t : ℕ)
            → ReadBefore s network.now device t before → IsAfter hs device t → Shows s hs device self.now
            → Summarizes result (heard_since_point s hs device t) }
    {
        self.heard_by(self.points_come(network, before))
    }

    /// The device's state when something comes at a time, by what the records of earlier times show.
    pub fn state_before(&self, turned_on: bool) -> State
        ensures { (s : Scenario) (hs : List Happening) (device : DeviceId) (t : ℕ)
            → turned_on ≡ is_turned_on_at s device t → Shows s (earlier t hs) device self.now
            → result ≡ state_before s hs device t }
    {
        if turned_on {
            State::Integrating
        } else {
            self.state
        }
    }

    /// Whether a frame has told the device the time at this very time, by records of which none is later.
    pub fn has_joined_at(&self, time: u64) -> bool
        ensures { (s : Scenario) (hs : List Happening) (device : DeviceId) → NoneLater time hs
            → Shows s hs device self.now → result ≡ has_joined_at hs device time }
    {
        match self.joined {
            Some(joined) => joined == time,
            None => false,
        }
    }

    /// The adjustment when the device hears a frame at a time: that which records of which none is later show, where
    /// of this time none but frames that told the time changed it.
    pub fn adjustment_at_hearing(&self) -> i128
        ensures { (s : Scenario) (hs : List Happening) (device : DeviceId) (t : ℕ) → NoneLater t hs
            → OnlyJoined hs device t → Shows s hs device self.now
            → result ≡ (adjustment_at_hearing s hs device t).0 }
    {
        self.adjustment()
    }

    /// What was heard since the last of so many correction points.
    pub fn heard_by(&self, points: u64) -> Heard
        ensures { result ≡ heard_by_then self.now points }
    {
        if points == self.come {
            self.heard
        } else {
            Heard::new()
        }
    }

    /// The state that the records leave the device in.
    pub fn state(&self) -> State
        ensures { result ≡ self.now.state }
    {
        self.state
    }

    /// The adjustment that the records leave the device with, in units of 2^-16 ns, from -2^80 to 2^80.
    pub fn adjustment(&self) -> i128
        ensures value { result ≡ self.now.adjustment }
        ensures least { neg_ℤ (pos (2 ^ 80)) ≤ℤ result }
        ensures most { result ≤ℤ pos (2 ^ 80) }
    {
        self.adjustment
    }

    /// The cycle of the correction point that the records leave as the next.
    pub fn cycle(&self) -> u64
        ensures value { result ≡ self.now.cycle }
        ensures few { result ≤ 2 ^ 32 }
    {
        self.cycle
    }

    /// The cycle of the frame that told the device the time last.
    pub fn integrated(&self) -> Option<u32>
        ensures { result ≡ self.now.integrated }
    {
        self.integrated
    }

    /// When the adjustment changed last, or 0.
    pub fn changed(&self) -> u64
        ensures { result ≡ self.now.changed }
    {
        self.changed
    }

    /// What the local clock showed right after that.
    pub fn at_change(&self) -> i128
        ensures value { result ≡ self.now.at_change }
        ensures least { neg_ℤ (pos (2 ^ 81)) ≤ℤ result }
        ensures most { result ≤ℤ pos (2 ^ 81) }
    {
        self.at_change
    }

    /// When a frame told the device the time last.
    pub fn joined(&self) -> Option<u64>
        ensures { result ≡ self.now.joined }
    {
        self.joined
    }

    /// Goes on by a record of this effect.
    fn follow(
        &mut self,
        network: &Network,
        device: DeviceId,
        time: u64,
        readings: Readings,
        effect: Effect,
    )
        requires { IsInRange network.now }
        ensures { Follows network.now device time readings effect self.old self.new }
    {
        match effect {
            Effect::Nothing => {}
            Effect::Joins { cycle, own, point } => {
                let adjustment = joined_adjustment(network, device, own, point);
                self.join(adjustment, cycle, time, readings.now);
            }
            Effect::Hears {
                channel,
                frame,
                within,
            } => {
                let points = self.points_come(network, readings.before);
                self.hear(points, channel, frame, within);
            }
            Effect::Corrects { cycle, adjustment } => {
                self.change(
                    i128::from(adjustment.0),
                    u64::from(cycle) + 1,
                    time,
                    readings.now,
                );
            }
            Effect::Turns { state } => self.state = state,
        }
    }

    /// The adjustment changes, and the correction point of the cycle is next.
    fn change(&mut self, adjustment: i128, cycle: u64, time: u64, reading: u64)
        requires least { neg_ℤ (pos (2 ^ 80)) ≤ℤ adjustment }
        requires most { adjustment ≤ℤ pos (2 ^ 80) }
        requires few { cycle ≤ 2 ^ 32 }
        ensures { self.new ≡ changed_to self.old adjustment cycle time reading }
    {
        self.adjustment = adjustment;
        self.cycle = cycle;
        self.changed = time;
        self.at_change = i128::from(reading) + adjustment;
        self.heard = Heard::new();
        self.come = 0;
    }

    /// A frame of the cycle tells the time, by which the adjustment becomes this.
    fn join(&mut self, adjustment: i128, cycle: u32, time: u64, reading: u64)
        requires least { neg_ℤ (pos (2 ^ 80)) ≤ℤ adjustment }
        requires most { adjustment ≤ℤ pos (2 ^ 80) }
        ensures { self.new ≡ joined_to self.old adjustment cycle time reading }
    {
        self.change(adjustment, u64::from(cycle), time, reading);
        self.state = State::Joining;
        self.integrated = Some(cycle);
        self.joined = Some(time);
    }

    /// A frame is heard where so many correction points have come.
    fn hear(&mut self, points: u64, channel: Channel, frame: HeardFrame, within: bool)
        ensures value { self.new ≡ record self.old { heard = self.new.heard; come = points } }
        ensures heard { HearsOne (heard_by_then self.old points)
            (record { channel = channel; frame = frame; within = within }) self.new.heard }
    {
        let mut heard = self.heard_by(points);
        heard.hear(channel, frame, within);
        self.heard = heard;
        self.come = points;
    }
}

/// How many whole cycles are in the time.
fn cycles_in(time: u128, network: &Network) -> u64
    requires range { IsInRange network.now }
    requires short { time ≤ 2 ^ 81 }
    ensures value { result ≡ natural (int_div_euclid (pos time) network.now.cycle.0) }
    ensures few { result ≤ 2 ^ 49 }
{
    (time / u128::from(network.cycle.amount())) as u64
}
