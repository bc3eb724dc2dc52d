ghost use Rattle.std.specs.Prelude.{◌*◌, ◌+ℤ◌, ◌+◌, ◌-ℤ◌, ◌<ℤ◌, ◌<◌, ◌^◌, ◌≡◌, ◌≤ℤ◌, ◌≤◌, IfSome, None, [], neg_ℤ, pos};
ghost use Rattle.std.specs.Prelude.{ℕ};
ghost use Rattle.end_system.specs.Agendas.{IsAgenda, IsAt, IsCorrection, IsDispatch, IsEarlier, IsFirstDue};
ghost use Rattle.end_system.specs.{Agendas.{IsLeastReading, IsLocal, IsSending}, Owns.{HasOwnRange, IsOwnOf}};
ghost use Rattle.end_system.specs.{Deeds.IsNextSending, RowSlots.{AreRowsOf, AreSomeRows, IsAtSlot}};
ghost use Rattle.net_plan.specs.declared.{ids.DeviceId.DeviceId, network.Network.Network};
ghost use Rattle.sync_state.specs.correction.Deviation.{IsSmall};
ghost use Rattle.{run_law.specs.machines.Nodes.sending, sync_state.specs.Standing.next_point};
ghost use Rattle.tte_units.specs.Amount.{amount};

use crate::own::Own;
use crate::rows::{Dispatch, OwnRows};
use device_rules::is_synchronised;
use sync_state::Sync;
use tte_units::Units;

/// What a device does in a cycle of its own, and the reading at which it does it.
#[derive(Clone, Copy, Debug)]
pub struct Appointment {
    pub cycle: u32,
    pub at: Units,
}

/// What a device does next by itself, of each kind.
#[derive(Clone, Copy)]
pub struct Agenda {
    pub sending: Option<Appointment>,
    pub correction: Option<Appointment>,
    pub dispatch: Option<Dispatch>,
}

/// The first thing that is due.
#[derive(Clone, Copy, Debug)]
pub enum Due {
    Sending(Appointment),
    Correction(Appointment),
    Dispatch(Dispatch),
}

impl Agenda {
    /// Nothing to do.
    pub fn empty() -> Agenda
        ensures sending { result.sending ≡ None }
        ensures correction { result.correction ≡ None }
        ensures dispatch { result.dispatch ≡ None }
    {
        Agenda {
            sending: None,
            correction: None,
            dispatch: None,
        }
    }

    /// The reading at which the device next does something.
    pub fn next_reading(&self) -> Option<Units>
        ensures { IsLeastReading self.now result }
    {
        let sending = self.sending.map(|sending| sending.at);
        let correction = self.correction.map(|correction| correction.at);
        let dispatch = self.dispatch.map(|dispatch| dispatch.at);
        earlier(sending, earlier(correction, dispatch))
    }

    /// The first thing that is due at the reading: the sending, then the correction, then the dispatch.
    pub fn due(&self, reading: Units) -> Option<Due>
        ensures { IsFirstDue self.now reading.0 result }
    {
        if let Some(sending) = self.sending {
            if sending.at.0 <= reading.0 {
                return Some(Due::Sending(sending));
            }
        }
        if let Some(correction) = self.correction {
            if correction.at.0 <= reading.0 {
                return Some(Due::Correction(correction));
            }
        }
        match self.dispatch {
            Some(dispatch) if dispatch.at.0 <= reading.0 => Some(Due::Dispatch(dispatch)),
            _ => None,
        }
    }
}

/// The lesser of two readings that may be there.
fn earlier(a: Option<Units>, b: Option<Units>) -> Option<Units>
    ensures { IsEarlier a b result }
{
    match (a, b) {
        (Some(a), Some(b)) if b.0 < a.0 => Some(b),
        (Some(a), _) => Some(a),
        (None, b) => b,
    }
}

/// What a device does next whose clock has just been set, and shows this local value.
pub(crate) fn agenda_from(own: &Own, rows: &OwnRows, sync: &Sync, local: Units) -> Agenda
    requires range { HasOwnRange own.now }
    requires rows { AreSomeRows rows.now }
    requires number { IfSome (next_point sync.now) (λ n. n ≤ 2 ^ 21 + 2 ^ 18) }
    requires small { IsSmall sync.now.adjustment.0 }
    requires local { IsLocal local }
    ensures slot { IfSome result.dispatch (IsAtSlot rows.now) }
    ensures agenda { (network : Network) (device : DeviceId) → IsOwnOf network device own.now
        → AreRowsOf network device rows.now
        → IsAgenda network device sync.now local.0 [] result }
{
    Agenda {
        sending: sending_from(own, sync, local),
        correction: correction_behind(own, sync, local),
        dispatch: dispatch_from(own, rows, sync, local),
    }
}

/// The next sending, of a synchronised master.
fn sending_from(own: &Own, sync: &Sync, local: Units) -> Option<Appointment>
    requires range { HasOwnRange own.now }
    requires small { IsSmall sync.now.adjustment.0 }
    requires local { IsLocal local }
    ensures { (network : Network) (device : DeviceId) → IsOwnOf network device own.now
        → IsSending network device sync.now local.0 [] result }
{
    if own.is_master && is_synchronised(sync.state()) {
        Some(sending_behind(own, sync, local))
    } else {
        None
    }
}

/// The next dispatch, of a synchronised device.
fn dispatch_from(own: &Own, rows: &OwnRows, sync: &Sync, local: Units) -> Option<Dispatch>
    requires range { HasOwnRange own.now }
    requires rows { AreSomeRows rows.now }
    requires small { IsSmall sync.now.adjustment.0 }
    requires local { IsLocal local }
    ensures slot { IfSome result (IsAtSlot rows.now) }
    ensures next { (network : Network) (device : DeviceId) → IsOwnOf network device own.now
        → AreRowsOf network device rows.now → IsDispatch network device sync.now local.0 [] result }
{
    if is_synchronised(sync.state()) {
        rows.first_behind(own, sync.adjustment(), local)
    } else {
        None
    }
}

/// The first sending at a local value behind this one.
fn sending_behind(own: &Own, sync: &Sync, local: Units) -> Appointment
    requires range { HasOwnRange own.now }
    requires small { IsSmall sync.now.adjustment.0 }
    requires local { IsLocal local }
    ensures begun { 1 ≤ result.cycle }
    ensures ahead { local.0 <ℤ pos (result.cycle * amount own.now.plan.cycle_length) }
    ensures least { (n : ℕ) → 1 ≤ n → local.0 <ℤ pos (n * amount own.now.plan.cycle_length) → result.cycle ≤ n }
    ensures at { result.at.0 ≡ (pos (result.cycle * amount own.now.plan.cycle_length) -ℤ sync.now.adjustment.0) }
{
    let cycle = cycle_behind(own, local);
    let value = u64::from(cycle) * own.plan.cycle_length.amount();
    Appointment {
        cycle,
        at: reading_at(value, sync.adjustment()),
    }
}

/// The first cycle, but for cycle 0, that begins behind the local value.
fn cycle_behind(own: &Own, local: Units) -> u32
    requires range { HasOwnRange own.now }
    requires local { IsLocal local }
    ensures begun { 1 ≤ result }
    ensures ahead { local.0 <ℤ pos (result * amount own.now.plan.cycle_length) }
    ensures least { (n : ℕ) → 1 ≤ n → local.0 <ℤ pos (n * amount own.now.plan.cycle_length) → result ≤ n }
    ensures fits { result * amount own.now.plan.cycle_length ≤ 2 ^ 62 + 2 ^ 40 }
{
    if local.0 < 0 {
        1
    } else {
        (local.amount() / own.plan.cycle_length.amount() + 1) as u32
    }
}

/// The next correction point, unless the local value has passed it.
fn correction_behind(own: &Own, sync: &Sync, local: Units) -> Option<Appointment>
    requires range { HasOwnRange own.now }
    requires number { IfSome (next_point sync.now) (λ n. n ≤ 2 ^ 21 + 2 ^ 18) }
    requires small { IsSmall sync.now.adjustment.0 }
    ensures { (network : Network) (device : DeviceId) → IsOwnOf network device own.now
        → IsCorrection network sync.now local.0 [] result }
{
    let cycle = sync.next_correction()?;
    let value = correction_value(own, cycle);
    if local.0 < value as i64 {
        Some(Appointment {
            cycle,
            at: reading_at(value, sync.adjustment()),
        })
    } else {
        None
    }
}

/// The local value of the correction point of a cycle.
fn correction_value(own: &Own, cycle: u32) -> u64
    requires range { HasOwnRange own.now }
    requires cycle { cycle ≤ 2 ^ 21 + 2 ^ 18 }
    ensures value { result ≡ cycle * amount own.now.plan.cycle_length + amount own.now.correction }
    ensures fits { result ≤ 2 ^ 62 }
{
    u64::from(cycle) * own.plan.cycle_length.amount() + own.correction.amount()
}

/// The reading at which a local clock of this adjustment shows the value.
pub fn reading_at(value: u64, adjustment: Units) -> Units
    requires value { value ≤ 2 ^ 62 + 2 ^ 48 }
    requires small { IsSmall adjustment.0 }
    ensures { result.0 ≡ (pos value -ℤ adjustment.0) }
{
    Units(value as i64 - adjustment.0)
}

/// The same in the next cycle.
pub fn in_next_cycle(own: &Own, appointment: Appointment) -> Appointment
    requires range { HasOwnRange own.now }
    requires cycle { appointment.cycle < 2 ^ 31 }
    requires at { appointment.at.0 ≤ℤ pos (2 ^ 62) }
    ensures cycle { result.cycle ≡ appointment.cycle + 1 }
    ensures at { result.at.0 ≡ (appointment.at.0 +ℤ own.now.plan.cycle_length.0) }
{
    Appointment {
        cycle: appointment.cycle + 1,
        at: Units(appointment.at.0 + own.plan.cycle_length.0),
    }
}
