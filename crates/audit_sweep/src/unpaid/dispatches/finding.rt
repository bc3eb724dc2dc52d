//! Which dispatch has no record first: link by link, row by row, and in the order of time.

ghost use Rattle.std.specs.Prelude.{◌^◌, ◌≡◌, ◌≤◌, List};
ghost use Rattle.audit_devices.specs.clocks.Finding.{IsSeries};
ghost use Rattle.audit_law.specs.law.FirstDebts.{TellsFirst};
ghost use Rattle.audit_sweep.specs.records.dispatches.{Leaving.IsRowOn, Leavings.AreLeavings};
ghost use Rattle.audit_sweep.specs.unpaid.dispatches.Frames.{IsBy, IsTold, OwesFrame};
ghost use Rattle.audit_sweep.specs.unpaid.dispatches.Debtors.{AreKnown, AreSomeKnown, IsFit, scenario_of};
ghost use Rattle.{audit_devices.specs.Lasting.ShowsWithin, audit_sweep.specs.unpaid.points.FirstUnpaid.TellsFirstUnpaid};
ghost use Rattle.audit_sweep.specs.unpaid.Sorts.{IsDispatchDebt, IsDispatchDebtOn};
ghost use Rattle.{net_plan.specs.declared.event.Event.Event, run_law.specs.records.Happenings.Happening};

use crate::records::dispatches::LeavingRow;
use crate::unpaid::dispatches::RowDebtor;
use crate::unpaid::earlier_of;
use audit_devices::Shown;
use audit_devices::clocks::{Series, next_crossing};
use audit_law::events::reading_law;
use net_plan::LinkId;
use sync_state::State;

impl RowDebtor<'_> {
    /// The first time at which a device dispatches a frame of a row and no record says so. It is None exactly where one
    /// says so of each.
    pub fn first_undispatched(&self) -> Option<u64>
        requires fit { IsFit self.now }
        requires known { AreSomeKnown self.now }
        ensures { (befallen : List Event) (hs : List Happening) → AreKnown befallen hs self.now
            → TellsFirst (scenario_of self.now befallen) hs self.now.until IsDispatchDebt result }
    {
        let mut first = None;
        'links: for place in 0..self.network.link.as_slice().len() {
            first = earlier_of(first, self.first_on(LinkId(place as u32)));
        }
        first
    }

    // The same of the rows of the link.
    fn first_on(&self, link: LinkId) -> Option<u64>
        requires fit { IsFit self.now }
        requires known { AreSomeKnown self.now }
        ensures { (befallen : List Event) (hs : List Happening) → AreKnown befallen hs self.now
            → TellsFirst (scenario_of self.now befallen) hs self.now.until (IsDispatchDebtOn link) result }
    {
        let rows = self.exits.on(link);
        let mut first = None;
        'rows: for row in rows {
            first = earlier_of(first, self.first_by(link, row));
        }
        first
    }

    // The same of one row of the link.
    fn first_by(&self, link: LinkId, row: &LeavingRow) -> Option<u64>
        requires fit { IsFit self.now }
        requires known { AreSomeKnown self.now }
        requires row { IsRowOn self.now.network.now link row.now }
        ensures { (befallen : List Event) (hs : List Happening) → AreKnown befallen hs self.now
            → TellsFirst (scenario_of self.now befallen) hs self.now.until
            (IsBy (scenario_of self.now befallen) hs link row.now) result }
    {
        match row.leavings(self.network) {
            Some(series) => self.first_in(link, row, series),
            None => None,
        }
    }

    // The same, where the row's frames leave at these local values.
    fn first_in(&self, link: LinkId, row: &LeavingRow, series: Series) -> Option<u64>
        requires fit { IsFit self.now }
        requires known { AreSomeKnown self.now }
        requires row { IsRowOn self.now.network.now link row.now }
        requires series { IsSeries series }
        requires leavings { AreLeavings self.now.network.now row.now series }
        ensures { (befallen : List Event) (hs : List Happening) → AreKnown befallen hs self.now
            → TellsFirstUnpaid (OwesFrame (scenario_of self.now befallen) hs row.now)
            (IsTold (scenario_of self.now befallen) hs link row.now) 0 self.now.until result }
    {
        let mut after = 0;
        'stretches: while after < self.until {
            let (shown, end) = self.standings.after_time(row.device, after, self.until);
            let lacking = self.first_within(link, row, series, shown, after, end);
            if lacking.is_some() {
                return lacking;
            }
            after = end;
        }
        None
    }

    // The same later than `after`, where this is shown of the row's device.
    fn first_within(
        &self,
        link: LinkId,
        row: &LeavingRow,
        series: Series,
        shown: &Shown,
        after: u64,
        until: u64,
    ) -> Option<u64>
        requires fit { IsFit self.now }
        requires known { AreSomeKnown self.now }
        requires row { IsRowOn self.now.network.now link row.now }
        requires series { IsSeries series }
        requires leavings { AreLeavings self.now.network.now row.now series }
        requires limit { until ≤ 2 ^ 60 }
        ensures { (befallen : List Event) (hs : List Happening) → AreKnown befallen hs self.now
            → ShowsWithin (scenario_of self.now befallen) hs row.now.device after until shown.now
            → TellsFirstUnpaid (OwesFrame (scenario_of self.now befallen) hs row.now)
            (IsTold (scenario_of self.now befallen) hs link row.now) after until result }
    {
        reading_law();
        if shown.state() != State::Synchronised {
            return None;
        }
        let mut from = after;
        'left: while let Some(crossed) = next_crossing(
            self.events,
            row.device,
            shown,
            from,
            until,
            series,
        ) {
            if self.is_undispatched(link, row, shown, crossed) {
                return Some(crossed.time);
            }
            from = crossed.time;
        }
        None
    }
}
