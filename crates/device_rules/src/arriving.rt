//! How protocol control frames that arrive are judged.

ghost use Rattle.std.specs.Prelude.{◌&&◌, ◌*◌, ◌+ℤ◌, ◌+◌, ◌<◌, ◌^◌, ◌≡◌, ◌≤◌, IfOk, IfSome, int_lt, pos};
ghost use Rattle.device_rules.specs.{Arriving.{IsGrownSo, young_clock}, Widths.IsLocal};
ghost use Rattle.net_plan.specs.{Ranges.IsInRange, declared.network.Network.Network as NetworkValue};
ghost use Rattle.tte_units.specs.Amount.{amount};
ghost use Rattle.run_law.specs.control.Arrivals.{are_others, clock_on_arrival, control_arrival, frame_fault};
ghost use Rattle.run_law.specs.control.Arrivals.{frame_or_fault, frame_taken, is_cold_start, is_gate_shut};
ghost use Rattle.run_law.specs.control.Arrivals.{is_of_other_domain, is_of_other_member, point_on_arrival, refused};
ghost use Rattle.run_law.specs.{device.Standpoints.offset_in_cycle, scenario.Devices.{is_end, member_of}};

use crate::Standpoint;
use crate::frames::member_of;
use crate::network::{is_end, is_parent_of, is_relay, precision, wire_of};
use net_plan::{DeviceId, LinkId, Network, Way};
use pcf_codec::PcfRefusal;
use run_law::{Arrival, Reason, place_in_cycle};
use sync_state::membership::one;
use tte_units::Units;
use tte_units::frames::{Members, Pcf, PcfKind};

/// What becomes of a protocol control frame that arrives at the device by the link.
///
/// The reading is at most 2^62.
pub fn control_arrival(
    network: &Network,
    device: DeviceId,
    link: LinkId,
    at: &Standpoint,
    decoded: &Result<Pcf, PcfRefusal>,
) -> Arrival
    requires range { IsInRange network.now }
    requires reading { at.now.reading ≤ 2 ^ 62 }
    ensures { result ≡ control_arrival network.now device link at.now decoded.now }
{
    match decoded {
        Ok(frame) => frame_arrival(network, device, link, at, frame),
        Err(refusal) => {
            if at.takes_part() {
                Arrival::Dropped(refused(*refusal))
            } else {
                Arrival::Dropped(Reason::Off)
            }
        }
    }
}

/// What becomes of a frame that the decoder gave.
fn frame_arrival(
    network: &Network,
    device: DeviceId,
    link: LinkId,
    at: &Standpoint,
    frame: &Pcf,
) -> Arrival
    requires range { IsInRange network.now }
    requires reading { at.now.reading ≤ 2 ^ 62 }
    ensures { result ≡ frame_or_fault network.now device link at.now frame.now
        (frame_fault network.now device link at.now frame.now) }
{
    match grown_clock(network, device, link, at, frame) {
        Ok(clock) => frame_taken(network, device, link, at, Pcf { clock, ..*frame }),
        Err(reason) => Arrival::Dropped(reason),
    }
}

/// What becomes of a frame that is not dropped.
fn frame_taken(
    network: &Network,
    device: DeviceId,
    link: LinkId,
    at: &Standpoint,
    frame: Pcf,
) -> Arrival
    requires range { IsInRange network.now }
    requires reading { at.now.reading ≤ 2 ^ 62 }
    requires young { frame.clock ≤ amount network.now.dmax }
    ensures { result ≡ frame_taken network.now device link frame (point_on_arrival network.now at.now frame.clock) }
{
    let point = point_on_arrival(network, at, frame.clock);
    if !is_relay(network, device) {
        Arrival::Waits(frame, point)
    } else if is_parent_of(network, device, link) {
        Arrival::Passes(frame, Way::Up)
    } else {
        Arrival::PassesAndWaits(frame, Way::Down, point)
    }
}

/// The permanence point of a frame that arrives with this clock.
fn point_on_arrival(network: &Network, at: &Standpoint, clock: u64) -> Units
    requires range { IsInRange network.now }
    requires reading { at.now.reading ≤ 2 ^ 62 }
    requires young { clock ≤ amount network.now.dmax }
    ensures { result ≡ point_on_arrival network.now at.now clock }
{
    Units(at.reading() as i64 + (network.dmax.0 - clock as i64))
}

/// The frame's clock as the wire has grown it, or why the frame is dropped: the first reason in this order.
fn grown_clock(
    network: &Network,
    device: DeviceId,
    link: LinkId,
    at: &Standpoint,
    frame: &Pcf,
) -> Result<u64, Reason>
    requires { IsInRange network.now }
    ensures young { IfOk result (λ clock. clock ≤ amount network.now.dmax) }
    ensures is { IsGrownSo network.now device link at.now frame.now result }
{
    if !at.takes_part() {
        return Err(Reason::Off);
    }
    if is_cold_start(frame.kind) {
        return Err(Reason::ColdStart);
    }
    if is_of_other_domain(network.priority, network.domain, frame) {
        return Err(Reason::Domain);
    }
    if is_of_other_member(network, device, link, frame.members) {
        return Err(Reason::Member);
    }
    let Some(clock) = young_clock(network, link, frame) else {
        return Err(Reason::Old);
    };
    if is_gate_shut(network, device, at) {
        return Err(Reason::Gate);
    }
    Ok(clock)
}

/// The frame's clock at its arrival, unless it exceeds the greatest delay.
fn young_clock(network: &Network, link: LinkId, frame: &Pcf) -> Option<u64>
    requires { IsInRange network.now }
    ensures is { result ≡ young_clock network.now (clock_on_arrival network.now link frame.now) }
    ensures young { IfSome result (λ clock. clock ≤ amount network.now.dmax) }
{
    let clock = u128::from(frame.clock) + u128::from(wire_of(network, link));
    if u128::from(network.dmax.amount()) < clock {
        None
    } else {
        Some(clock as u64)
    }
}

/// Only integration frames are used.
pub fn is_cold_start(kind: PcfKind) -> bool
    ensures { result ≡ is_cold_start kind }
{
    match kind {
        PcfKind::Integration => false,
        PcfKind::ColdStart | PcfKind::ColdStartAck => true,
    }
}

/// Is the frame of another priority or domain than these of the network?
pub fn is_of_other_domain(priority: u8, domain: u8, frame: &Pcf) -> bool
    ensures { (network : NetworkValue) → network.priority ≡ priority → network.domain ≡ domain
        → result ≡ is_of_other_domain network frame.now }
{
    !(frame.priority == priority && frame.domain == domain)
}

/// Does the frame come to a switch from an end system whose bit is not its members?
fn is_of_other_member(network: &Network, device: DeviceId, link: LinkId, members: Members) -> bool
    requires { IsInRange network.now }
    ensures { result ≡ is_of_other_member network.now device link members }
{
    match network.link.as_slice().get(link.0 as usize) {
        Some(found) => {
            found.parent.0 == device.0 && is_of_other_end(network, found.child, members)
        }
        None => false,
    }
}

/// Is the device an end system whose bit is not the members?
fn is_of_other_end(network: &Network, device: DeviceId, members: Members) -> bool
    requires { IsInRange network.now }
    ensures { result ≡ (is_end network.now device && are_others (member_of network.now device) members) }
{
    is_end(network, device) && are_others(member_of(network, device), members)
}

/// Are these members other than the master of this member number alone?
fn are_others(member: Option<u32>, members: Members) -> bool
    requires { IfSome member (λ m. m < 32) }
    ensures { result ≡ are_others member members }
{
    match member {
        Some(member) => members.0 != one(member).0,
        None => true,
    }
}

/// Is the gate of a synchronised relay shut? It is open in each cycle from before its start up to the correction.
fn is_gate_shut(network: &Network, device: DeviceId, at: &Standpoint) -> bool
    requires { IsInRange network.now }
    ensures { result ≡ is_gate_shut network.now device at.now }
{
    is_relay(network, device) && at.is_synchronised() && is_past_gate(network, at.clock())
}

/// Does the local value lie behind the place at which a gate shuts in its cycle?
fn is_past_gate(network: &Network, value: i128) -> bool
    requires range { IsInRange network.now }
    requires fits { IsLocal value }
    ensures { result ≡ int_lt (pos (amount network.now.correction + 2 * amount network.now.precision))
        (offset_in_cycle network.now (value +ℤ pos (2 * amount network.now.precision))) }
{
    is_below(
        gate_end(network),
        place_in_cycle(network, gate_value(network, value)),
    )
}

/// The local value, and as much as the gate opens before the cycle's start.
fn gate_value(network: &Network, value: i128) -> i128
    requires range { IsInRange network.now }
    requires fits { IsLocal value }
    ensures { result ≡ (value +ℤ pos (2 * amount network.now.precision)) }
{
    value + 2 * precision(network)
}

/// How far behind the place at which it opens the gate shuts.
fn gate_end(network: &Network) -> i128
    requires { IsInRange network.now }
    ensures { result ≡ pos (amount network.now.correction + 2 * amount network.now.precision) }
{
    i128::from(network.correction.amount()) + 2 * precision(network)
}

/// Is the first number less than the other?
fn is_below(a: i128, b: i128) -> bool
    ensures { result ≡ int_lt a b }
{
    a < b
}

/// Why octets that the decoder refuses are dropped.
pub fn refused(refusal: PcfRefusal) -> Reason
    ensures { result ≡ refused refusal }
{
    match refusal {
        PcfRefusal::Length(n) => Reason::RefusedLength(n),
        PcfRefusal::EtherType => Reason::RefusedEtherType,
        PcfRefusal::Reserved(offset) => Reason::RefusedReserved(offset),
        PcfRefusal::Kind(octet) => Reason::RefusedKind(octet),
    }
}
