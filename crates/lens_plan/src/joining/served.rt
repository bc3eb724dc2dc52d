//! Whether a network serves messages.
ghost use Rattle.std.specs.List.{All, Contains};
ghost use Rattle.std.specs.Prelude.{◌+◌, ◌<◌, ◌^◌, ◌≡◌, ◌≤◌, ◌↔◌, IfSome, IsSomeAnd, IsTrue, length, slice_get};
ghost use Rattle.{net_plan.specs.{Places.IsEndSystem, Ranges.{IsInRange, IsWithin}}, schedule_tables.specs.Schedule.EntersOn};
ghost use Rattle.lens_plan.specs.joining.Served.{AreServed, Comes, IsAskedFor, IsReached, IsServedBy, KeepsMessage, RowsKeepMessage};
ghost use Rattle.schedule_tables.specs.{Entries.{IsEntryInRange, source_of, target_of}, Windows.window_end};
ghost use Rattle.tte_units.specs.Amount.{amount};

use crate::Message;
use net_plan::{DeviceId, Network, RowId, VirtualLink, VlId};
use schedule_tables::{Entry, entry_of, window_of};
use tte_units::frames::Channel;

/// Is it the value that is given, if one is?
fn is_given_id(given: Option<u16>, id: u16) -> bool
    ensures { IsTrue result ↔ IfSome given (λ n. id ≡ n) }
{
    match given {
        Some(given) => id == given,
        None => true,
    }
}

/// Is it the phase that is given, if one is?
fn is_given_phase(given: Option<u32>, phase: u32) -> bool
    ensures { IsTrue result ↔ IfSome given (λ n. phase ≡ n) }
{
    match given {
        Some(given) => phase == given,
        None => true,
    }
}

/// Is the virtual link one that the message asks for?
fn is_asked_for(message: &Message, vl: &VirtualLink) -> bool
    ensures { IsTrue result ↔ IsAskedFor message.now vl.now }
{
    vl.name.as_slice() == message.name.as_slice()
        && is_given_id(message.id, vl.id)
        && vl.length == message.length
        && vl.ethertype == message.ethertype
        && vl.sender == message.sender
        && vl.period == message.period
        && is_given_phase(message.phase, vl.phase)
}

/// Is the device an end system?
fn is_end_system(network: &Network, device: DeviceId) -> bool
    ensures { IsTrue result ↔ IsEndSystem network.now device }
{
    match network.device.as_slice().get(device.0 as usize) {
        Some(found) => found.role.is_end_system(),
        None => false,
    }
}

/// Does the row, if it leaves the sender, do so no earlier than the message asks for?
fn keeps_after(message: &Message, entry: &Entry) -> bool
    requires { IsWithin 0 (2 ^ 40) entry.now.row.offset }
    ensures { IsTrue result ↔ (source_of entry.now ≡ message.now.sender
        → IfSome message.now.after (λ t. t ≤ amount entry.now.row.offset)) }
{
    match message.after {
        Some(after) => entry.source() != message.sender || after <= entry.row.offset.amount(),
        None => true,
    }
}

/// Does the window of the row end no later than the message asks for?
fn keeps_by(network: &Network, message: &Message, entry: &Entry) -> bool
    requires range { IsInRange network.now }
    requires entry { IsEntryInRange network.now entry.now }
    ensures { IsTrue result ↔ IfSome message.now.by (λ t. window_end network.now entry.now ≤ t) }
{
    match message.by {
        Some(by) => window_of(network, entry).to.amount() <= by,
        None => true,
    }
}

/// Is the device one of the receivers?
fn is_receiver(message: &Message, device: DeviceId) -> bool
    ensures { IsTrue result ↔ Contains message.now.receivers device }
{
    message.receivers().contains(&device)
}

/// Does the row keep to the message?
fn keeps_message(network: &Network, message: &Message, entry: &Entry) -> bool
    requires range { IsInRange network.now }
    requires entry { IsEntryInRange network.now entry.now }
    ensures { IsTrue result ↔ KeepsMessage network.now message.now entry.now }
{
    let target = entry.target();
    if !keeps_after(message, entry) {
        return false;
    }
    if !is_end_system(network, target) {
        return true;
    }
    is_receiver(message, target) && keeps_by(network, message, entry)
}

/// Is it a row of another virtual link, or does it keep to the message?
fn row_keeps_message(network: &Network, vl: VlId, message: &Message, entry: &Entry) -> bool
    requires range { IsInRange network.now }
    requires entry { IsEntryInRange network.now entry.now }
    ensures { IsTrue result ↔ (entry.now.row.vl ≡ vl → KeepsMessage network.now message.now entry.now) }
{
    entry.row.vl != vl || keeps_message(network, message, entry)
}

/// Do all rows of the virtual link?
fn rows_keep_message(network: &Network, vl: VlId, message: &Message) -> bool
    requires { IsInRange network.now }
    ensures { IsTrue result ↔ RowsKeepMessage network.now vl message.now }
{
    let rows = network.row.as_slice().len() as u32;
    'rows: for number in 0..rows {
        let entry = entry_of(network, RowId(number));
        if !row_keeps_message(network, vl, message, &entry) {
            return false;
        }
    }
    true
}

/// Is it a row of the virtual link, and does it enter the device on the channel?
fn enters(network: &Network, vl: VlId, channel: Channel, device: DeviceId, entry: &Entry) -> bool
    ensures { IsTrue result ↔ Comes network.now vl channel device entry.now }
{
    entry.row.vl == vl
        && network.is_switch_of(entry.link.parent, channel)
        && entry.target() == device
}

/// Does a row of the virtual link enter the device on the channel?
fn enters_on(network: &Network, vl: VlId, channel: Channel, device: DeviceId) -> bool
    requires { IsInRange network.now }
    ensures { IsTrue result ↔ EntersOn network.now vl channel device }
{
    let rows = network.row.as_slice().len() as u32;
    'rows: for number in 0..rows {
        let entry = entry_of(network, RowId(number));
        if enters(network, vl, channel, device, &entry) {
            return true;
        }
    }
    false
}

/// Do rows of the virtual link enter the device on both channels?
fn is_reached(network: &Network, vl: VlId, device: DeviceId) -> bool
    requires { IsInRange network.now }
    ensures { IsTrue result ↔ IsReached network.now vl device }
{
    enters_on(network, vl, Channel::A, device) && enters_on(network, vl, Channel::B, device)
}

/// Do they enter each of the devices on both channels?
fn are_reached(network: &Network, vl: VlId, devices: &[DeviceId]) -> bool
    requires { IsInRange network.now }
    ensures { IsTrue result ↔ All (IsReached network.now vl) devices.now }
{
    'devices: for device in devices {
        if !is_reached(network, vl, *device) {
            return false;
        }
    }
    true
}

/// Is the network's virtual link one that the message asks for?
fn vl_is_asked_for(network: &Network, vl: VlId, message: &Message) -> bool
    ensures { IsTrue result ↔ IsSomeAnd (slice_get network.now.vl vl.0) (IsAskedFor message.now) }
{
    match network.vl.as_slice().get(vl.0 as usize) {
        Some(of_vl) => is_asked_for(message, of_vl),
        None => false,
    }
}

/// Does the virtual link serve the message?
fn is_served_by(network: &Network, vl: VlId, message: &Message) -> bool
    requires { IsInRange network.now }
    ensures { IsTrue result ↔ IsServedBy network.now vl message.now }
{
    vl_is_asked_for(network, vl, message)
        && rows_keep_message(network, vl, message)
        && are_reached(network, vl, message.receivers())
}

/// Has the planned network one more virtual link for each message, in their order, which serves it?
pub(crate) fn are_served(network: &Network, planned: &Network, messages: &[Message]) -> bool
    requires range { IsInRange network.now }
    requires planned { IsInRange planned.now }
    ensures { IsTrue result ↔ AreServed network.now planned.now messages.now }
{
    let first = network.vl.as_slice().len();
    let count = planned.vl.as_slice().len();
    if count < first || count - first != messages.len() {
        return false;
    }
    'messages: for place in 0..messages.len() {
        let vl = VlId((first + place) as u32);
        if !is_served_by(planned, vl, &messages[place]) {
            return false;
        }
    }
    true
}
