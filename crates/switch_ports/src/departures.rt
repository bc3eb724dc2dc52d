//! The rows that leave a switch, and the frames that they have still to dispatch.

ghost use Rattle.std.specs.Prelude.{◌*◌, ◌+◌, ◌-ℤ◌, ◌<◌, ◌^◌, ◌≡◌, ◌≤ℤ◌, ◌≤◌, IfOk, None, OnOk};
ghost use Rattle.std.specs.Prelude.{length, map, option_map, pos};
ghost use Rattle.net_plan.specs.{Ranges.{IsInRange, IsWithin}, declared.network.Network.{Network as NetworkValue}};
ghost use Rattle.{schedule_tables.specs.Entries.IsEntry, sync_state.specs.correction.Deviation.IsSmall};
ghost use Rattle.{switch_ports.specs.Departing.{Changes, IsBegun, IsReady, KnowsNext}, tte_units.specs.Amount.amount};
ghost use Rattle.switch_ports.specs.Leaving.{AreLeaving, IsFirstOf, IsFit, IsTakingFit, awaited_of, closed};
ghost use Rattle.switch_ports.specs.Leaving.{dispatch_by, fresh_row, held_by, is_dispatch_in, key_by, place_in};
ghost use Rattle.switch_ports.specs.Leaving.{reopened, value_in, with_held, with_taking};

use device_rules::least_key::{Keys, NO_KEY, key_of, order_of};
use net_plan::{DeviceId, LinkId, Network, RowId, VlId};
use schedule_tables::{Entry, OutOfMemory, entry_of};
use std::alloc::{AllocError, Global};
use tte_units::Units;

/// More than there are places of rows.
const PLACES: u64 = 1 << 32;

/// A row that leaves the switch.
#[derive(Clone, Copy)]
pub struct SwitchRow {
    pub row: RowId,
    pub link: LinkId,
    pub vl: VlId,
    /// Where in the switch's cycle its frame is dispatched, in units of 2^-16 ns.
    pub offset: u64,
    /// The virtual link occurs in the cycles of this phase modulo the period.
    pub period: u32,
    pub phase: u32,
    /// The row's place among those that leave the switch.
    pub place: usize,
    /// The place of the row of the same virtual link that comes before it, if there is one.
    pub before: Option<usize>,
}

/// A frame that the switch took, as one row dispatches it.
#[derive(Clone, Copy, PartialEq, Eq)]
pub struct Held {
    /// The switch's cycle in which it was taken.
    pub cycle: u32,
    /// The local value at which it is dispatched.
    pub value: Units,
}

/// A row that leaves the switch, and the frame that it dispatches.
#[derive(Clone, Copy)]
pub struct Departure {
    pub of: SwitchRow,
    /// The last frame of the virtual link that the switch took, if the row's place came behind.
    pub held: Option<Held>,
    /// The same, while it is still to be dispatched.
    pub awaited: Option<Held>,
}

/// A frame of a virtual link that the switch takes, in a cycle of its own and at a local value.
#[derive(Clone, Copy)]
pub struct TakenFrameAt {
    pub vl: VlId,
    pub cycle: u32,
    pub at: Units,
}

/// A dispatch that is to come.
#[derive(Clone, Copy, Debug, PartialEq, Eq)]
pub struct Dispatch {
    /// The reading at which it comes.
    pub at: Units,
    pub link: LinkId,
    pub row: RowId,
    pub cycle: u32,
    /// The row's place among those that leave the switch.
    pub place: usize,
}

/// The rows that leave a switch, and which of their dispatches comes next.
#[derive(Drop)]
pub(crate) struct Departures {
    rows: Vec<Departure>,
    /// The place of the last row of each virtual link.
    lasts: Vec<Option<usize>>,
    /// The keys of what the rows have still to dispatch.
    keys: Keys,
    /// The dispatch that comes next. It is None while the switch has not the common time.
    pub(crate) next: Option<Dispatch>,
}

impl Departures {
    /// The rows that leave the device, which has taken no frame.
    ///
    /// Fails when memory runs out.
    pub(crate) fn new(
        alloc: Global,
        network: &Network,
        device: DeviceId,
    ) -> Result<Departures, OutOfMemory>
        requires { IsInRange network.now }
        ensures { IfOk result (IsBegun network.now device) }
    {
        let mut rows = Vec::new(alloc);
        let mut lasts = no_lasts(alloc, network)?;
        for place in 0..network.row.as_slice().len() {
            let row = RowId(place as u32);
            let entry = entry_of(network, row);
            add_row(&mut rows, &mut lasts, device, row, &entry)?;
        }
        let keys = Keys::new(alloc, rows.len())?;
        Ok(Departures {
            rows,
            lasts,
            keys,
            next: None,
        })
    }

    /// Keeps a frame that is taken for the rows of its virtual link, in the place of an earlier one.
    pub(crate) fn take(
        &mut self,
        length: Units,
        taking: TakenFrameAt,
        changed: Units,
        adjustment: Units,
    )
        requires ready { IsReady self.old }
        requires taking { IsTakingFit length taking }
        requires small { IsSmall adjustment.0 }
        ensures changes { Changes (with_taking (amount length) changed.0 taking) self.old self.new }
        ensures next { KnowsNext adjustment.0 self.new }
    {
        let mut at = self.last_of(taking.vl);
        'rows: while let Some(place) = at {
            let departure = &mut self.rows[place];
            at = departure.of.before;
            departure.take(length, &taking, changed);
            self.keys.set(place, departure.key());
        }
        self.next = self.first(adjustment);
    }

    /// Tells anew what is to come, where the adjustment has changed at a local value.
    pub(crate) fn reopen(&mut self, changed: Units, adjustment: Units)
        requires ready { IsReady self.old }
        requires small { IsSmall adjustment.0 }
        ensures changes { Changes (reopened changed.0) self.old self.new }
        ensures next { KnowsNext adjustment.0 self.new }
    {
        for place in 0..self.rows.len() {
            let departure = &mut self.rows[place];
            departure.reopen(changed);
            self.keys.set(place, departure.key());
        }
        self.next = self.first(adjustment);
    }

    /// Ends the dispatch that was to come of the row at the place.
    pub(crate) fn close(&mut self, place: usize, adjustment: Units)
        requires place { place < length self.old.rows.items }
        requires ready { IsReady self.old }
        requires small { IsSmall adjustment.0 }
        ensures changes { Changes (closed place) self.old self.new }
        ensures next { KnowsNext adjustment.0 self.new }
    {
        self.rows[place].awaited = None;
        self.keys.set(place, NO_KEY);
        self.next = self.first(adjustment);
    }

    /// Nothing comes while the switch has not the common time.
    pub(crate) fn stop(&mut self)
        ensures { self.new ≡ record self.old { next = None } }
    {
        self.next = None;
    }

    /// The reading at which the next dispatch comes, if one does.
    pub(crate) fn due(&self) -> Option<Units>
        ensures { result ≡ option_map (λ next. next.at) self.now.next }
    {
        match self.next {
            Some(next) => Some(next.at),
            None => None,
        }
    }

    /// The place of the last row of the virtual link, if one leaves the switch.
    fn last_of(&self, vl: VlId) -> Option<usize>
        ensures { result ≡ place_in self.now.lasts.items vl.0 }
    {
        match self.lasts.get(vl.0 as usize) {
            Some(last) => *last,
            None => None,
        }
    }

    /// The first dispatch that the rows have still to make.
    fn first(&self, adjustment: Units) -> Option<Dispatch>
        requires ready { IsReady self.now }
        requires small { IsSmall adjustment.0 }
        ensures { IsFirstOf adjustment.0 self.now.rows.items result }
    {
        let place = order_of(self.keys.least()) % PLACES;
        match self.rows.get(place as usize) {
            Some(departure) => departure.dispatch(adjustment),
            None => None,
        }
    }
}

impl Departure {
    /// Keeps the frame, which is one of the row's virtual link.
    pub fn take(&mut self, length: Units, taking: &TakenFrameAt, changed: Units)
        requires fit { IsFit self.old }
        requires taking { IsTakingFit length taking.now }
        ensures { self.new ≡ with_held changed.0
            (held_by (amount length) self.old.of taking.now.cycle taking.now.at.0) self.old }
    {
        let held = self.of.held(length, taking);
        self.held = held;
        self.awaited = awaited_of(held, changed);
    }

    /// Tells anew whether the frame is to be dispatched.
    pub fn reopen(&mut self, changed: Units)
        ensures { self.new ≡ reopened changed.0 self.old }
    {
        self.awaited = awaited_of(self.held, changed);
    }

    /// The key of what the row has still to dispatch: by its local value, then by its link, then by the row.
    pub fn key(&self) -> u128
        requires fit { IsFit self.now }
        ensures { result ≡ key_by self.now }
    {
        match self.awaited {
            Some(held) => {
                let order = u64::from(self.of.link.0) * PLACES + self.of.place as u64;
                key_of(held.value.amount(), order)
            }
            None => NO_KEY,
        }
    }

    /// The row's dispatch that is to come.
    fn dispatch(&self, adjustment: Units) -> Option<Dispatch>
        requires fit { IsFit self.now }
        requires small { IsSmall adjustment.0 }
        ensures { result ≡ dispatch_by adjustment.0 self.now }
    {
        match self.awaited {
            Some(held) => Some(Dispatch {
                at: reading_of(held.value, adjustment),
                link: self.of.link,
                row: self.of.row,
                cycle: held.cycle,
                place: self.of.place,
            }),
            None => None,
        }
    }
}

impl SwitchRow {
    /// The frame that is taken, as the row dispatches it. It is None where the row's place has passed,
    /// or the virtual link does not occur in the cycle.
    pub fn held(&self, length: Units, taking: &TakenFrameAt) -> Option<Held>
        requires offset { self.now.offset ≤ 2 ^ 40 }
        requires period { 1 ≤ self.now.period }
        requires taking { IsTakingFit length taking.now }
        ensures { result ≡ held_by (amount length) self.now taking.now.cycle taking.now.at.0 }
    {
        let value = self.value_in(length, taking.cycle);
        if self.occurs_in(taking.cycle) && taking.at.0 < value.0 {
            Some(Held {
                cycle: taking.cycle,
                value,
            })
        } else {
            None
        }
    }

    /// The local value at which the row's frame of the cycle is dispatched.
    fn value_in(&self, length: Units, cycle: u32) -> Units
        requires offset { self.now.offset ≤ 2 ^ 40 }
        requires length { pos 0 ≤ℤ length.0 }
        requires cycle { cycle * amount length ≤ 2 ^ 62 }
        ensures { result.0 ≡ value_in (amount length) self.now cycle }
    {
        Units::from_amount(u64::from(cycle) * length.amount() + self.offset)
    }

    /// Does the virtual link occur in the cycle?
    fn occurs_in(&self, cycle: u32) -> bool
        requires { 1 ≤ self.now.period }
        ensures { result ≡ is_dispatch_in self.now cycle }
    {
        1 <= cycle && cycle % self.period == self.phase
    }
}

/// No row of any virtual link has been found.
fn no_lasts(alloc: Global, network: &Network) -> Result<Vec<Option<usize>>, AllocError>
    ensures { IfOk result (λ lasts. lasts.items ≡ map (λ vl. None) network.now.vl) }
{
    let mut lasts = Vec::new(alloc);
    for _ in network.vl.as_slice() {
        lasts.push(None)?;
    }
    Ok(lasts)
}

/// Keeps a further row, if it leaves the device.
fn add_row(
    rows: &mut Vec<Departure>,
    lasts: &mut Vec<Option<usize>>,
    device: DeviceId,
    row: RowId,
    entry: &Entry,
) -> Result<(), AllocError>
    requires offset { IsWithin 0 (2 ^ 40) entry.now.row.offset }
    requires vl { entry.now.row.vl.0 < length lasts.old.items }
    ensures { (network : NetworkValue) → IsEntry network row.0 entry.now
        → AreLeaving network device row.0 rows.old.items lasts.old.items
        → OnOk result (AreLeaving network device (row.0 + 1) rows.new.items lasts.new.items) }
{
    if entry.source().0 != device.0 {
        return Ok(());
    }
    let place = rows.len();
    let vl = entry.row.vl.0 as usize;
    rows.push(departure_of(place, lasts[vl], row, entry))?;
    lasts[vl] = Some(place);
    Ok(())
}

/// The row of the entry at the place, of which no frame has been taken.
fn departure_of(place: usize, before: Option<usize>, row: RowId, entry: &Entry) -> Departure
    requires { IsWithin 0 (2 ^ 40) entry.now.row.offset }
    ensures { result ≡ fresh_row place before row entry.now }
{
    Departure {
        of: SwitchRow {
            row,
            link: entry.row.link,
            vl: entry.row.vl,
            offset: entry.row.offset.amount(),
            period: entry.vl.period,
            phase: entry.vl.phase,
            place,
            before,
        },
        held: None,
        awaited: None,
    }
}

/// The frame, if it is dispatched behind the local value.
fn awaited_of(held: Option<Held>, changed: Units) -> Option<Held>
    ensures { result ≡ awaited_of changed.0 held }
{
    match held {
        Some(held) if changed.0 < held.value.0 => Some(held),
        Some(_) | None => None,
    }
}

/// The reading at which a clock of this adjustment shows the value.
fn reading_of(value: Units, adjustment: Units) -> Units
    requires value { IsWithin 0 (2 ^ 62 + 2 ^ 40) value }
    requires small { IsSmall adjustment.0 }
    ensures { result.0 ≡ (value.0 -ℤ adjustment.0) }
{
    Units(value.0 - adjustment.0)
}
