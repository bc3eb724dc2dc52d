ghost use Rattle.std.specs.Prelude.{◌*◌, ◌+ℤ◌, ◌+◌, ◌<ℤ◌, ◌<◌, ◌^◌, ◌≡◌, ◌≤ℤ◌, ◌≤◌, length, neg_ℤ, pos};
ghost use Rattle.end_system.specs.Owns.{HasOwnRange, IsOwnOf, IsUplinkOf, channel_by, end_plan, wire_by};
ghost use Rattle.{net_plan.specs.{Paths.IsUplink, Ranges.IsInRange}, tte_units.specs.Amount.amount};
ghost use Rattle.{net_plan.specs.Places.IsEndSystem, run_law.specs.control.Hearing.is_in_schedule};
ghost use Rattle.{schedule_tables.specs.Rules.KeepsRules, sync_state.specs.Plan.expected_at};

use device_rules::frames::dispatched_frame;
use device_rules::is_master;
use net_plan::{DeviceId, LinkId, Network};
use sync_state::SyncPlan;
use tte_units::Units;
use tte_units::frames::{Channel, Pcf};

/// A link from the device to a switch.
#[derive(Clone, Copy)]
pub struct Uplink {
    pub link: LinkId,
    /// The least wire delay.
    pub wire: Units,
}

/// What an end system needs to know of its network.
#[derive(Clone, Copy)]
pub struct Own {
    pub plan: SyncPlan,
    pub precision: Units,
    pub correction: Units,
    pub dmax: Units,
    pub marker: u32,
    /// The frame that it sends, as that of cycle 0.
    pub frame: Pcf,
    pub is_master: bool,
    /// Its link to a switch of channel a.
    pub a: Uplink,
    /// Its link to a switch of channel b.
    pub b: Uplink,
}

impl Own {
    /// The frame that it sends in a cycle.
    pub fn frame_of(&self, cycle: u32) -> Pcf
        ensures { result ≡ record self.now.frame { cycle = cycle } }
    {
        let mut frame = self.frame;
        frame.cycle = cycle;
        frame
    }

    /// The channel that the link is of, which is one of its two.
    pub fn channel(&self, link: LinkId) -> Channel
        ensures { result ≡ channel_by self.now link }
    {
        if link == self.a.link {
            Channel::A
        } else {
            Channel::B
        }
    }

    /// The least wire delay of the link, which is one of its two.
    pub fn wire(&self, link: LinkId) -> Units
        ensures { result ≡ wire_by self.now link }
    {
        if link == self.a.link {
            self.a.wire
        } else {
            self.b.wire
        }
    }

    /// Whether the frame of the cycle is expected at the local value, up to the precision.
    pub fn is_in_time(&self, cycle: u32, value: Units) -> bool
        requires range { HasOwnRange self.now }
        requires cycle { cycle ≤ 2 ^ 20 + 2 ^ 17 }
        ensures { result ≡ is_in_schedule self.now.plan (pos (amount self.now.precision)) cycle value.0 }
    {
        let expected = self.expected_at(cycle) as i64;
        let precision = self.precision.0;
        value.0 >= expected - precision && value.0 <= expected + precision
    }

    /// The local value at which the frame of a cycle is expected.
    fn expected_at(&self, cycle: u32) -> u64
        requires range { HasOwnRange self.now }
        requires cycle { cycle ≤ 2 ^ 20 + 2 ^ 17 }
        ensures value { pos result ≡ expected_at self.now.plan cycle }
        ensures fits { result ≤ 2 ^ 62 }
    {
        u64::from(cycle) * self.plan.cycle_length.amount() + self.plan.expected.amount()
    }
}

impl Own {
    /// What the end system needs to know of the network.
    pub fn new(network: &Network, device: DeviceId) -> Own
        requires range { IsInRange network.now }
        requires rules { KeepsRules network.now }
        requires end { IsEndSystem network.now device }
        ensures { IsOwnOf network.now device result }
    {
        Own {
            plan: plan_of(network),
            precision: network.precision,
            correction: network.correction,
            dmax: network.dmax,
            marker: network.marker,
            frame: dispatched_frame(network, device, 0),
            is_master: is_master(network, device),
            a: uplink_of(network, device, Channel::A),
            b: uplink_of(network, device, Channel::B),
        }
    }
}

/// What the network says of an end system's synchronisation.
fn plan_of(network: &Network) -> SyncPlan
    requires range { IsInRange network.now }
    ensures { result ≡ end_plan network.now }
{
    let compression = 2 * network.precision.amount() + network.calc.amount();
    SyncPlan {
        cycle_length: network.cycle,
        expected: Units::from_amount(2 * network.dmax.amount() + compression),
        threshold: network.sync_threshold,
    }
}

/// The device's link to a switch of the channel.
fn uplink_of(network: &Network, device: DeviceId, channel: Channel) -> Uplink
    requires range { IsInRange network.now }
    requires one { (link : LinkId) × IsUplink network.now channel device link }
    ensures { IsUplinkOf network.now channel device result }
{
    match network.uplink(device, channel) {
        Some(link) => Uplink {
            link,
            wire: network.link.as_slice()[link.0 as usize].wire,
        },
        None => Uplink {
            link: LinkId(0),
            wire: Units(0),
        },
    }
}
