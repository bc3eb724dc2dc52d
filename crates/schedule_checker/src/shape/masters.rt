ghost use Rattle.std.specs.Prelude.{◌≡◌, ◌≢◌, ◌≤◌, ◌↔◌, ◌≤ℤ◌, ◌+◌, true, IsTrue, IfNone, IfSome, is_some, length};
ghost use Rattle.std.specs.List.{All, count_by};
ghost use Rattle.{net_plan.specs.Places.is_master, schedule_checker.specs.Parts.part_of_demand};
ghost use Rattle.net_plan.specs.Rules.{HasOffSwitch, MastersSuffice, MembersDiffer, masters, most_masters};
ghost use Rattle.tte_units.specs.declared.frames.channel.Channel.{Channel as ChannelValue};

use net_plan::{Device, Network};
use tte_units::frames::Channel;

/// The least count of masters.
const LEAST_MASTERS: usize = 4;

/// The least threshold of members.
const LEAST_THRESHOLD: u32 = 3;

/// The parts of the rule: what the masters of a network are to be.
#[derive(Clone, Copy, PartialEq, Eq)]
enum Demand {
    Count,
    Members,
    Threshold,
    BeginOn,
    Starts,
    OneChannelOff,
}

impl Demand {
    /// The part of this number.
    fn of_part(part: u32) -> Option<Demand>
        ensures none { IfNone result (6 ≤ part) }
        ensures some { IfSome result (λ demand. part ≡ part_of_demand demand) }
    {
        match part {
            0 => Some(Demand::Count),
            1 => Some(Demand::Members),
            2 => Some(Demand::Threshold),
            3 => Some(Demand::BeginOn),
            4 => Some(Demand::Starts),
            5 => Some(Demand::OneChannelOff),
            _ => None,
        }
    }
}

/// Do the masters suffice?
///
/// Part 0 is their count, 1 that their numbers differ, 2 the threshold of members, 3 that so many
/// begin on, 4 the starts of the devices, and 5 that the switches of at most one channel begin off.
pub(crate) fn masters_suffice(network: &Network, part: u32) -> bool
    ensures { IsTrue result ↔ MastersSuffice network.now part }
{
    match Demand::of_part(part) {
        Some(Demand::Count) => masters_are_in_number(network),
        Some(Demand::Members) => members_differ(network),
        Some(Demand::Threshold) => threshold_is_met(network),
        Some(Demand::BeginOn) => enough_begin_on(network),
        Some(Demand::Starts) => starts_are_settled(network),
        Some(Demand::OneChannelOff) => one_channel_begins_off(network),
        None => true,
    }
}

/// How many masters there are.
fn count_of_masters(network: &Network) -> usize
    ensures { result ≡ length (masters network.now) }
{
    network
        .device
        .as_slice()
        .iter()
        .filter(|device| device.role.is_master())
        .count()
}

/// How many masters a network of this version may have.
fn most_masters_of(version: u32) -> usize
    ensures { result ≡ most_masters version }
{
    if version == 1 { 5 } else { 8 }
}

/// Are there enough masters, and not too many?
fn masters_are_in_number(network: &Network) -> bool
    ensures { IsTrue result ↔ ((4 ≤ length (masters network.now))
        × (length (masters network.now) ≤ most_masters network.now.version)) }
{
    let count = count_of_masters(network);
    LEAST_MASTERS <= count && count <= most_masters_of(network.version)
}

/// Have no two masters the same member number?
fn members_differ(network: &Network) -> bool
    ensures { IsTrue result ↔ MembersDiffer network.now }
{
    let devices = network.device.as_slice();
    for (place, device) in devices.iter().enumerate() {
        if device.role.is_master() && !member_is_new(&devices[..place], device) {
            return false;
        }
    }
    true
}

/// Has no earlier master the member number of the device?
fn member_is_new(earlier: &[Device], device: &Device) -> bool
    ensures { IsTrue result ↔ All (λ e. is_master e.role ≡ true → e.member ≢ device.now.member) earlier.now }
{
    earlier.iter().all(|other| !other.role.is_master() || other.member != device.member)
}

/// Is the threshold of members at least three, and less than the count of masters?
fn threshold_is_met(network: &Network) -> bool
    ensures { IsTrue result ↔ ((3 ≤ network.now.sync_threshold)
        × (network.now.sync_threshold + 1 ≤ length (masters network.now))) }
{
    LEAST_THRESHOLD <= network.sync_threshold
        && (network.sync_threshold as usize) < count_of_masters(network)
}

/// Do as many masters begin on as the threshold of members asks for?
fn enough_begin_on(network: &Network) -> bool
    ensures { IsTrue result ↔ (network.now.sync_threshold ≤ count_by (λ d. is_some d.start) (masters network.now)) }
{
    let begin_on = network
        .device
        .as_slice()
        .iter()
        .filter(|device| device.role.is_master())
        .filter(|device| device.start.is_some())
        .count();
    network.sync_threshold as usize <= begin_on
}

/// Do the devices' clocks begin within the spread of the starts?
fn starts_are_settled(network: &Network) -> bool
    ensures { IsTrue result ↔ All (λ d. IfSome d.start (λ start. start.0 ≤ℤ network.now.settled.0)) network.now.device }
{
    network
        .device
        .as_slice()
        .iter()
        .all(|device| match device.start {
            Some(start) => start.0 <= network.settled.0,
            None => true,
        })
}

/// Do the switches of at most one channel begin off?
fn one_channel_begins_off(network: &Network) -> bool
    ensures { IsTrue result ↔ ((c e : ChannelValue) → HasOffSwitch network.now c → HasOffSwitch network.now e → c ≡ e) }
{
    !network.has_off_switch(Channel::A) || !network.has_off_switch(Channel::B)
}
