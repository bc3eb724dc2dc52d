ghost use Rattle.std.specs.{List.last_or, Prelude.{if◌then◌else◌, length, option_and_then, ℕ}};
ghost use Rattle.std.specs.Prelude.{◌++◌, ◌<◌, ◌==◌, ◌∷◌, ◌≡◌, IfOk, List, None, OnOk, [], false, filter};

use crate::Taking;
use crate::taking::taken_by;
use net_plan::{DeviceId, LinkId, Network, VlId};
use run_law::NoteBody;
use std::alloc::{AllocError, Global};

/// The frames that a device took, by virtual link.
#[derive(Drop)]
pub(crate) struct DeviceTakings {
    vls: Vec<Vec<Taking>>,
}

impl DeviceTakings {
    ghost use Rattle.net_plan.specs.declared.ids.VlId.{VlId};
    ghost use Rattle.audit_devices.specs.{Taking.{AscendAll, is_taking_before}, Takings.taken_of};

    /// None.
    pub(crate) fn new(alloc: Global) -> DeviceTakings
        ensures { result.vls.items ≡ [] }
    {
        DeviceTakings {
            vls: Vec::new(alloc),
        }
    }

    /// The device took this one more of the virtual link.
    pub(crate) fn push(&mut self, alloc: Global, vl: VlId, taking: Taking) -> Result<(), AllocError>
        ensures { (other : VlId) → OnOk result (taken_of self.new other
            ≡ (if other.0 == vl.0 then taken_of self.old other ++ taking ∷ [] else taken_of self.old other)) }
    {
        self.make_room(alloc, vl)?;
        self.vls[vl.0 as usize].push(taking)?;
        Ok(())
    }

    /// Makes a list for the virtual link, where there is none.
    fn make_room(&mut self, alloc: Global, vl: VlId) -> Result<(), AllocError>
        ensures same { (other : VlId) → taken_of self.new other ≡ taken_of self.old other }
        ensures room { OnOk result (vl.0 < length self.new.vls.items) }
    {
        for _ in self.vls.len()..vl.0 as usize + 1 {
            self.vls.push(Vec::new(alloc))?;
        }
        Ok(())
    }

    /// The last one of the virtual link that came before a frame of this link and cause at the time.
    pub(crate) fn last_before(
        &self,
        vl: VlId,
        time: u64,
        link: LinkId,
        cause: u64,
    ) -> Option<Taking>
        ensures { AscendAll (taken_of self.now vl)
            → result ≡ last_or None (filter (is_taking_before time link cause) (taken_of self.now vl)) }
    {
        let takings = self.vls.as_slice().get(vl.0 as usize)?;
        // Mostly the frame that comes next asks, and all came before it.
        if let Some(last) = takings.last() {
            if last.is_before(time, link, cause) {
                return Some(*last);
            }
        }
        let point = takings.partition_point(|taking| taking.is_before(time, link, cause));
        let (front, _) = takings.split_at(point);
        front.last().copied()
    }
}

/// The time-triggered frames that the devices took, as the records so far say it.
#[derive(Drop)]
pub struct Takings {
    devices: Vec<DeviceTakings>,
}

impl Takings {
    ghost use Rattle.net_plan.specs.declared.network.Network.{Network};
    ghost use Rattle.run_law.specs.records.{Happenings.{Happening, time_of}, Order.AllBefore, Ranks.place_of};
    ghost use Rattle.run_law.specs.{scenario.Devices.is_end, timed.{Dispatching.last_accepted, Receptions.last_taken}};
    ghost use Rattle.audit_devices.specs.{Taking.taking_of, Takings.{HasTaken, TakesRightly, taker_count}};

    /// None of the network's devices took any.
    pub fn new(alloc: Global, network: &Network) -> Result<Takings, AllocError>
        ensures none { IfOk result (HasTaken network.now []) }
        ensures count { IfOk result (λ takings. taker_count takings ≡ length network.now.device) }
    {
        let mut devices = Vec::new(alloc);
        for _ in 0..network.device.as_slice().len() {
            devices.push(DeviceTakings::new(alloc))?;
        }
        Ok(Takings { devices })
    }

    /// Goes on by the next record.
    pub fn push(
        &mut self,
        alloc: Global,
        time: u64,
        number: u64,
        body: &NoteBody,
    ) -> Result<(), AllocError>
        ensures taken { (network : Network) (hs : List Happening) (h : Happening) → time ≡ time_of h
            → number ≡ h.note.number → h.note.body ≡ body.now → TakesRightly network body.now
            → AllBefore place_of hs (place_of h) → HasTaken network hs self.old
            → OnOk result (HasTaken network (hs ++ h ∷ []) self.new) }
        ensures count { taker_count self.new ≡ taker_count self.old }
    {
        let Some(taken) = taken_by(time, number, body) else {
            return Ok(());
        };
        let index = taken.device.0 as usize;
        if index >= self.devices.len() {
            return Ok(());
        }
        self.devices[index].push(alloc, taken.vl, taken.taking)
    }

    /// The cycle in which the device took the last frame of the virtual link, before one of this link and cause at the
    /// time.
    pub fn last_taken(
        &self,
        device: DeviceId,
        time: u64,
        link: LinkId,
        cause: u64,
        vl: VlId,
    ) -> Option<u32>
        requires { device.0 < taker_count self.now }
        ensures { (network : Network) (hs : List Happening) → HasTaken network hs self.now
            → result ≡ last_taken hs device time link cause vl }
    {
        let taking = self.devices[device.0 as usize].last_before(vl, time, link, cause)?;
        Some(taking.cycle)
    }

    /// The last frame of the virtual link that the switch took before the time.
    pub fn last_accepted(&self, device: DeviceId, vl: VlId, time: u64) -> Option<Taking>
        requires { device.0 < taker_count self.now }
        ensures { (network : Network) (hs : List Happening) → HasTaken network hs self.now
            → is_end network device ≡ false
            → option_and_then (taking_of device vl) (last_accepted hs device vl time) ≡ result }
    {
        self.devices[device.0 as usize].last_before(vl, time, LinkId(0), 0)
    }
}
