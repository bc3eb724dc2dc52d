//! The clocks of which no record tells at the end of the events.

ghost use Rattle.std.specs.Prelude.{◌↔◌, ◌∷◌, ◌≡◌, IsTrue, List, []};
ghost use Rattle.{audit_law.specs.law.FirstDebts.TellsFirst, run_law.specs.records.Happenings.Happening};
ghost use Rattle.{audit_sweep.specs.records.places.Placing.{ArePlacesOf, HasRecordAt}, net_plan.specs.Ranges.IsInRange};
ghost use Rattle.audit_sweep.specs.unpaid.{Clocks.{IsOnlyEnd, IsUntold}, Debtors.{AreKnown, scenario_of}};
ghost use Rattle.{audit_sweep.specs.unpaid.Sorts.IsClockDebt, net_plan.specs.declared.event.Event.Event};

use crate::unpaid::Debtor;
use net_plan::DeviceId;
use run_law::NoteBody;
use run_law::plain::Place;
use sync_state::State;
use tte_units::Units;

impl Debtor<'_> {
    /// The time of the end, where no record tells what the clock of a device reads at it. It is None exactly where one
    /// tells it of each, or the end is later than `until`.
    pub fn first_unpaid_clock(&self, end: u64) -> Option<u64>
        requires range { IsInRange self.now.network.now }
        ensures { (befallen : List Event) (hs : List Happening) → AreKnown befallen hs self.now → IsOnlyEnd befallen end
            → TellsFirst (scenario_of self.now befallen) hs self.now.until IsClockDebt result }
    {
        if self.until < end {
            return None;
        }
        match self.clock_untold(end) {
            Some(_) => Some(end),
            None => None,
        }
    }

    // The first device of whose clock at the time no record tells.
    fn clock_untold(&self, time: u64) -> Option<DeviceId>
        requires range { IsInRange self.now.network.now }
        ensures { (hs : List Happening) → ArePlacesOf hs self.now.places.now
            → IsUntold self.now.network.now hs time result }
    {
        'devices: for place in 0..self.network.device.as_slice().len() {
            let device = DeviceId(place as u32);
            if !self.has_clock(device, time) {
                return Some(device);
            }
        }
        None
    }

    // Does a record tell of the device's clock at the time?
    fn has_clock(&self, device: DeviceId, time: u64) -> bool
        ensures { (hs : List Happening) → ArePlacesOf hs self.now.places.now
            → IsTrue result ↔ HasRecordAt hs (time ∷ 14 ∷ device.0 ∷ []) }
    {
        let clock = NoteBody::Clock {
            device,
            reading: Units(0),
            adjustment: Units(0),
            state: State::Off,
        };
        self.places.has(time, &Place::of(time, 0, &clock))
    }
}
