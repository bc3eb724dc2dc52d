//! What is known of a report, and how it goes on by its records.

ghost use Rattle.std.specs.Prelude.{◌++◌, ◌^◌, ◌↔◌, ◌∷◌, ◌≡◌, ◌≤◌, IfOk, List, OnOk, Some, []};
ghost use Rattle.{audit_devices.specs.Effects.{carried_by, subject_of}, audit_sweep.specs.Knowing.{IsKnown, KnowsSome}};
ghost use Rattle.{audit_devices.specs.Showing.IsReading, tte_units.specs.declared.units.Units.{Units as UnitsValue}};
ghost use Rattle.audit_law.specs.events.{Readings.scenario_under, Remembering.{Remembers, RemembersSome}};
ghost use Rattle.{audit_law.specs.law.DueRecords.IsDue, run_law.specs.records.{Order.AllBefore, Ranks.place_of}};
ghost use Rattle.{audit_sweep.specs.Judging.IsJudgeable, run_law.specs.records.Happenings.{Happening, happening}};
ghost use Rattle.net_plan.specs.{Belonging.HasDevice, declared.ids.DeviceId.{DeviceId as DeviceIdValue}};
ghost use Rattle.{net_plan.specs.Ranges.IsInRange, run_law.specs.runs.{DueRecords.EndsAt, Runs.IsFounded}};
ghost use Rattle.net_plan.specs.declared.{event.Event.Event, network.Network.{Network as NetworkValue}};

use crate::records::dispatches::Exits;
use crate::records::{KeptRecords, OutOfMemory};
use audit_devices::clocks::DeviceMoment;
use audit_devices::stretches::{StretchHistory, points_rise};
use audit_devices::{Carried, Readings, Standings, Takings};
use audit_law::events::{EventHistory, reading_law};
use device_rules::Entrances;
use net_plan::Network;
use run_law::{Note, NoteBody};
use std::alloc::Global;
use tte_units::Units;
use tte_units::frames::{Members, Pcf};

/// What is known of a report: what all its events set, and what its records so far show.
#[derive(Drop)]
pub(crate) struct Known {
    pub(crate) events: EventHistory,
    /// The time of the end.
    pub(crate) end: Units,
    pub(crate) entrances: Entrances,
    pub(crate) exits: Exits,
    pub(crate) records: KeptRecords,
    pub(crate) standings: Standings,
    pub(crate) takings: Takings,
    pub(crate) stretches: StretchHistory,
}

impl Known {
    /// Nothing but the events, of which this is the history and which end at the time.
    ///
    /// Fails when memory runs out.
    pub(crate) fn new(
        alloc: Global,
        network: &Network,
        events: EventHistory,
        end: Units,
    ) -> Result<Known, OutOfMemory>
        requires range { IsInRange network.now }
        ensures known { IfOk result (λ known. (befallen : List Event) → Remembers network.now befallen events
            → ((time : UnitsValue) → (time ≡ end) ↔ EndsAt befallen time) → IsKnown network.now befallen [] known) }
        ensures end { IfOk result (λ known. known.end ≡ end) }
    {
        reading_law();
        let Ok(entrances) = Entrances::new(alloc, network) else {
            return Err(OutOfMemory);
        };
        let exits = Exits::new(alloc, network)?;
        let records = KeptRecords::new(alloc);
        let standings = Standings::new(alloc, network)?;
        let takings = Takings::new(alloc, network)?;
        let stretches = StretchHistory::new(alloc, network)?;
        Ok(Known {
            events,
            end,
            entrances,
            exits,
            records,
            standings,
            takings,
            stretches,
        })
    }

    /// Goes on by the next record, which is due given those before it.
    ///
    /// Fails when memory runs out. Then what is known is of no use any more.
    pub(crate) fn push(
        &mut self,
        alloc: Global,
        network: &Network,
        note: &Note,
    ) -> Result<(), OutOfMemory>
        requires range { IsInRange network.now }
        requires known { KnowsSome network.now self.old }
        requires judgeable { IsJudgeable network.now note.now.time note.now.body }
        ensures known { (befallen : List Event) (hs : List Happening) → IsKnown network.now befallen hs self.old
            → IsFounded place_of (IsDue (scenario_under network.now befallen)) hs
            → AllBefore place_of hs (place_of (happening network.now hs note.now))
            → IsDue (scenario_under network.now befallen) hs (happening network.now hs note.now)
            → OnOk result (IsKnown network.now befallen (hs ++ happening network.now hs note.now ∷ []) self.new) }
        ensures end { self.new.end ≡ self.old.end }
    {
        points_rise();
        reading_law();
        let time = note.time.amount();
        let kept = self.records.make(network, time, &note.body);
        let carried = carried_by(kept.frame);
        let readings = readings(&self.events, &note.body, time);
        self.standings
            .push(network, time, &note.body, carried, readings)?;
        self.takings.push(alloc, time, note.number, &note.body)?;
        self.stretches.push(network, time, &note.body, carried)?;
        self.records.push(kept)?;
        Ok(())
    }
}

/// What a record of this frame says: its cycle and its members.
pub fn carried_by(frame: Option<Pcf>) -> Carried
    ensures { (h : Happening) → h.frame ≡ frame → result ≡ carried_by h }
{
    match frame {
        Some(frame) => Carried {
            cycle: frame.cycle,
            members: frame.members,
        },
        None => Carried {
            cycle: 0,
            members: Members(0),
        },
    }
}

/// What the clock of the device of which a record shows something reads at the time, and a unit of time before.
pub fn readings(events: &EventHistory, body: &NoteBody, time: u64) -> Readings
    requires some { RemembersSome events.now }
    requires limit { time ≤ 2 ^ 60 }
    ensures { (network : NetworkValue) (befallen : List Event) (device : DeviceIdValue)
        → Remembers network befallen events.now → HasDevice network device → subject_of body.now ≡ Some device
        → IsReading (scenario_under network befallen) device time result }
{
    let device = match body {
        NoteBody::Permanent { device, .. }
        | NoteBody::Compressed { device, .. }
        | NoteBody::Corrected { device, .. }
        | NoteBody::State { device, .. } => *device,
        NoteBody::Event { .. }
        | NoteBody::Arrived { .. }
        | NoteBody::Sent { .. }
        | NoteBody::Left { .. }
        | NoteBody::Lost { .. }
        | NoteBody::TtSent { .. }
        | NoteBody::Accepted { .. }
        | NoteBody::Delivered { .. }
        | NoteBody::Dropped { .. }
        | NoteBody::Clock { .. } => return Readings { now: 0, before: 0 },
    };
    DeviceMoment::of(events, device, time).readings
}
