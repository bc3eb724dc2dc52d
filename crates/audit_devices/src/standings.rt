ghost use Rattle.std.specs.Prelude.{◌≡◌, ◌<◌, ◌≤◌, ◌∷◌, ◌++◌, [], List, IfOk, IfSome, OnOk, Some, ℕ, length};
ghost use Rattle.{audit_devices.specs.Lasting.end_of, net_plan.specs.Ranges.IsInRange};

use crate::history::History;
use crate::subject::subject_of;
use crate::{Carried, Readings, Shown};
use net_plan::{DeviceId, LinkId, Network};
use run_law::NoteBody;
use run_law::plain::{Place, Rank};
use std::alloc::{AllocError, Global};
use tte_units::Units;
use tte_units::frames::Members;

/// What the records so far show of each device, at any place of their order.
#[derive(Drop)]
pub struct Standings {
    histories: Vec<History>,
}

impl Standings {
    ghost use Rattle.audit_devices.specs.{Keeping.{IsSeen, Stands, device_count, records_before}, Lasting.ShowsWithin};
    ghost use Rattle.{audit_devices.specs.Showing.{IsSteady, Shows}, net_plan.specs.declared.ids.DeviceId.DeviceId};
    ghost use Rattle.run_law.specs.declared.{judgement.Judgement.Judgement, note.NoteBody.TheVariants.Permanent};
    ghost use Rattle.run_law.specs.{plain.Places.number_of, records.Order.AllBefore, scenario.Scenarios.Scenario};
    ghost use Rattle.run_law.specs.records.{Happenings.{Happening, earlier}, Ranks.{place_at, place_of}};

    /// What no record shows.
    pub fn new(alloc: Global, network: &Network) -> Result<Standings, AllocError>
        requires { IsInRange network.now }
        ensures stands { IfOk result (λ standings. (s : Scenario) → s.network ≡ network.now
            → ((device : DeviceId) → IsSteady s device) → Stands s [] standings) }
        ensures count { IfOk result (λ standings. device_count standings ≡ length network.now.device) }
    {
        let mut histories = Vec::new(alloc);
        for place in 0..network.device.as_slice().len() {
            let first = Shown::new(network, DeviceId(place as u32));
            histories.push(History::new(alloc, first))?;
        }
        Ok(Standings { histories })
    }

    /// Goes on by the next record.
    pub fn push(
        &mut self,
        network: &Network,
        time: u64,
        body: &NoteBody,
        carried: Carried,
        readings: Readings,
    ) -> Result<(), AllocError>
        requires { IsInRange network.now }
        ensures stands { (s : Scenario) (hs : List Happening) (h : Happening) → s.network ≡ network.now
            → IsSeen s h time body.now carried readings → AllBefore place_of hs (place_of h)
            → Stands s hs self.old → OnOk result (Stands s (hs ++ h ∷ []) self.new) }
        ensures count { device_count self.new ≡ device_count self.old }
    {
        let Some(device) = subject_of(body) else {
            return Ok(());
        };
        let index = device.0 as usize;
        if index >= self.histories.len() {
            return Ok(());
        }
        self.histories[index].take(network, device, time, body, carried, readings)
    }

    /// What all records so far show of the device.
    pub fn latest(&self, device: DeviceId) -> &Shown
        requires { device.0 < device_count self.now }
        ensures { (s : Scenario) (hs : List Happening) → Stands s hs self.now → Shows s hs device result.now }
    {
        self.histories[device.0 as usize].latest()
    }

    /// What the records before a place show of the device.
    pub fn before(&self, device: DeviceId, place: &Place) -> &Shown
        requires { device.0 < device_count self.now }
        ensures { (s : Scenario) (hs : List Happening) → Stands s hs self.now
            → Shows s (records_before place.now hs) device result.now }
    {
        self.histories[device.0 as usize].before(place)
    }

    /// What the records of earlier times show of the device.
    pub fn before_time(&self, device: DeviceId, time: u64) -> &Shown
        requires { device.0 < device_count self.now }
        ensures { (s : Scenario) (hs : List Happening) → Stands s hs self.now
            → Shows s (earlier time hs) device result.now }
    {
        self.before(device, &Place::of_time(time))
    }

    /// What the records of earlier times show of the device at the times later than this one, up to another one: that
    /// of the next record that shows something of it, or `until` if that comes before.
    pub fn after_time(&self, device: DeviceId, time: u64, until: u64) -> (&Shown, u64)
        requires device { device.0 < device_count self.now }
        requires before { time < until }
        ensures near { result.1 ≤ until }
        ensures later { (s : Scenario) (hs : List Happening) → Stands s hs self.now → time < result.1 }
        ensures shows { (s : Scenario) (hs : List Happening) → Stands s hs self.now
            → ShowsWithin s hs device time result.1 result.0.now }
    {
        let history = &self.histories[device.0 as usize];
        let (shown, next) = history.after(time);
        (shown, end_of(next, until))
    }

    /// What the records show of the device that are of earlier times, or of this one and of a lower rank.
    pub fn before_rank(&self, device: DeviceId, time: u64, rank: Rank) -> &Shown
        requires { device.0 < device_count self.now }
        ensures { (s : Scenario) (hs : List Happening) → Stands s hs self.now
            → Shows s (records_before (time ∷ number_of rank ∷ []) hs) device result.now }
    {
        self.before(device, &Place::of_rank(time, rank))
    }

    /// What the records before the place of a permanence show of its device.
    pub fn before_permanence(
        &self,
        device: DeviceId,
        time: u64,
        members: Members,
        link: LinkId,
        cause: u64,
        point: Units,
    ) -> &Shown
        requires { device.0 < device_count self.now }
        ensures { (s : Scenario) (hs : List Happening) (verdict : Judgement) → Stands s hs self.now
            → Shows s (records_before (place_at time members.0 (Permanent device link cause point verdict)) hs) device
            result.now }
    {
        self.before(
            device,
            &Place::of_permanence(time, device, point, members.0, link, cause),
        )
    }
}

/// The next time, or the last one where that comes before, or there is no next one.
fn end_of(next: Option<u64>, until: u64) -> u64
    ensures { result ≡ end_of next until }
{
    match next {
        Some(next) => next.min(until),
        None => until,
    }
}
