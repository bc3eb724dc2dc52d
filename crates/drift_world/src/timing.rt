ghost use Rattle.std.specs.Prelude.{◌+◌, ◌<◌, ◌≡◌, IsTrue, Some, length, slice_get};
ghost use Rattle.world_state.specs.timers.Times.{AreFrom};

use crate::next::LAST;
use crate::part::Part;
use crate::state::State;
use device_rules::TellsKind;
use drift_clock::Clock;
use net_plan::Network;
use run_law::plain::Rank;
use tte_units::Units;
use world_state::hearing::Before;
use world_state::timing::{least_point, time_for};

/// Are two readings, if there are such, the same?
fn is_same(one: Option<Units>, other: Option<Units>) -> bool
    ensures { IsTrue result → one ≡ other }
{
    one == other
}

impl<C: Clock, M: TellsKind + Drop> State<C, M> {
    ghost use Rattle.drift_world.specs.{Acting.{IsDueAt, IsNextDue, IsPartAt}, Sound.IsSized, Sourcing.AreTimed};
    ghost use Rattle.drift_world.specs.Stepping.{IsActTimed, IsRekeyed, IsRipeTimed, IsTimedFor, MaySetTimers};
    ghost use Rattle.drift_world.specs.{Parts.part_rank, Stepping.{KeepsPart, MayRekey, SetsOnly}};

    /// The reading at which the machine of a device acts by itself next, if it does.
    #[inline(always)]
    pub fn due_of(&self, network: &Network, device: u32) -> Option<Units>
        requires sized { IsSized C.last_step network.now self.now }
        requires there { device < length network.now.device }
        ensures { IsNextDue M.stands self.now (record { 0 = device }) result }
    {
        self.machines[device as usize].due()
    }

    /// Sets the timer of a device for the frames that wait at it.
    #[inline(always)]
    pub fn rekey_ripe(&mut self, network: &Network, device: u32)
        requires may { MayRekey C.last_step C.reading M.stands network.now self.old (record { 0 = device }) }
        ensures sets { SetsOnly (λ slot. slot ≡ device) self.old self.new }
        ensures timed { IsRipeTimed C.reading self.new.timers self.new (record { 0 = device }) }
    {
        let index = device as usize;
        let point = least_point(&self.waiting, device);
        let ripe = time_for(&self.clocks[index], self.time, point);
        self.timers.set(index, ripe, Rank::Permanent.number());
    }

    /// The part of the first of all that a device does at a time of the run from now on, if it does anything then; else
    /// any.
    #[inline(always)]
    fn part_at(&self, network: &Network, device: u32, time: u64) -> Part
        requires sized { IsSized C.last_step network.now self.now }
        requires there { device < length network.now.device }
        ensures { IsPartAt C.reading M.stands self.now (record { 0 = device }) time result }
    {
        if time < self.time || time > LAST {
            return Part::Emissions;
        }
        let index = device as usize;
        let reading = self.clocks[index].read(Units::from_amount(time));
        Part::of(self.machines[index].first_kind(reading))
    }

    /// Sets the timer of a device for what it does by itself: at this reading, or never.
    #[inline(always)]
    pub fn rekey_act_at(&mut self, network: &Network, device: u32, due: Option<Units>)
        requires may { MayRekey C.last_step C.reading M.stands network.now self.old (record { 0 = device }) }
        requires due { IsNextDue M.stands self.old (record { 0 = device }) due }
        ensures sets { SetsOnly (λ slot. slot ≡ length network.now.device + device) self.old self.new }
        ensures timed { IsActTimed C.reading M.stands network.now self.new.timers self.new (record { 0 = device }) }
    {
        let index = device as usize;
        let act = time_for(&self.clocks[index], self.time, due);
        let part = self.part_at(network, device, act);
        let devices = network.device.as_slice().len();
        self.timers.set(devices + index, act, part.rank().number());
    }

    /// Puts off what a device does by itself to the part that comes first of it now, behind what other devices do before.
    #[inline(always)]
    pub fn defer(&mut self, network: &Network, device: u32, part: Part)
        requires may { MayRekey C.last_step C.reading M.stands network.now self.old (record { 0 = device }) }
        requires first { IsDueAt C.reading M.stands network.now self.old part (record { 0 = device }) }
        ensures sets { SetsOnly (λ slot. slot ≡ length network.now.device + device) self.old self.new }
        ensures timed { IsActTimed C.reading M.stands network.now self.new.timers self.new (record { 0 = device }) }
        ensures put { slice_get self.new.timers (length network.now.device + device)
            ≡ Some (record { time = self.new.time; rank = part_rank part }) }
    {
        let index = device as usize;
        let devices = network.device.as_slice().len();
        self.timers
            .set(devices + index, self.time, part.rank().number());
    }

    /// Sets the timer of a device for what it does by itself, at the reading that its machine tells.
    #[inline(always)]
    pub fn rekey_act(&mut self, network: &Network, device: u32)
        requires may { MayRekey C.last_step C.reading M.stands network.now self.old (record { 0 = device }) }
        ensures sets { SetsOnly (λ slot. slot ≡ length network.now.device + device) self.old self.new }
        ensures timed { IsActTimed C.reading M.stands network.now self.new.timers self.new (record { 0 = device }) }
    {
        let due = self.due_of(network, device);
        self.rekey_act_at(network, device, due);
    }

    /// Sets the timers of a device: for the frames that wait at it, and for what it does by itself.
    #[inline(always)]
    pub fn rekey(&mut self, network: &Network, device: u32)
        requires may { MayRekey C.last_step C.reading M.stands network.now self.old (record { 0 = device }) }
        ensures { IsRekeyed C.reading M.stands network.now (record { 0 = device }) self.old self.new }
    {
        self.rekey_ripe(network, device);
        self.rekey_act(network, device);
    }

    /// Is the timer of a device for what it does by itself of the right part, if its time is right?
    #[inline(always)]
    fn keeps_part(&self, network: &Network, device: u32) -> bool
        requires may { MayRekey C.last_step C.reading M.stands network.now self.now (record { 0 = device }) }
        ensures { IsTrue result → KeepsPart C.reading M.stands network.now self.now device }
    {
        let devices = network.device.as_slice().len();
        let timer = self.timers.get(devices + device as usize);
        if timer.rank == Part::Emissions.rank().number() {
            return true;
        }
        let part = self.part_at(network, device, timer.time);
        part.is_from(timer.rank)
    }

    /// Sets the timer of a device for what it does by itself, if it has other things to do than before, for which it is
    /// right but for the part.
    #[inline(always)]
    pub fn rekey_act_from(&mut self, network: &Network, device: u32, before: Before)
        requires may { MayRekey C.last_step C.reading M.stands network.now self.old (record { 0 = device }) }
        requires before { IsTimedFor C.reading M.stands network.now self.old device before }
        ensures sets { SetsOnly (λ slot. slot ≡ length network.now.device + device) self.old self.new }
        ensures timed { IsActTimed C.reading M.stands network.now self.new.timers self.new (record { 0 = device }) }
    {
        match before {
            Before::Same => {}
            Before::Due(before) => {
                let due = self.due_of(network, device);
                if is_same(due, before) && self.keeps_part(network, device) {
                    return;
                }
                self.rekey_act_at(network, device, due);
            }
        }
    }

    /// Sets the timers of a device: for the frames that wait at it, and for what it does by itself, if it has other
    /// things to do than before, for which that is right but for the part.
    #[inline(always)]
    pub fn rekey_from(&mut self, network: &Network, device: u32, before: Before)
        requires may { MayRekey C.last_step C.reading M.stands network.now self.old (record { 0 = device }) }
        requires before { IsTimedFor C.reading M.stands network.now self.old device before }
        ensures { IsRekeyed C.reading M.stands network.now (record { 0 = device }) self.old self.new }
    {
        self.rekey_ripe(network, device);
        self.rekey_act_from(network, device, before);
    }

    /// Sets the timers of all devices, where none is past.
    pub fn rekey_all(&mut self, network: &Network)
        requires may { MaySetTimers C.last_step C.reading M.stands network.now self.old }
        requires later { AreFrom self.old.time self.old.timers }
        ensures same { self.new ≡ record self.old { timers = self.new.timers } }
        ensures timed { AreTimed C.reading M.stands network.now self.new }
    {
        let devices = network.device.as_slice().len() as u32;
        for device in 0..devices {
            self.rekey(network, device);
        }
    }
}
