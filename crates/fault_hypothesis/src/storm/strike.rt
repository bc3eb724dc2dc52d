ghost use Rattle.std.specs.Prelude.{◌<◌, ◌^◌, ◌≡◌, ◌≤ℤ◌, ◌≤◌, IfSome, MatchOption, length, pos, slice_index, ℕ};
ghost use Rattle.{hex.specs.Hex.IsBytes, net_plan.specs.Ranges.IsInRange, schedule_tables.specs.Rules.KeepsRules};
ghost use Rattle.net_plan.specs.{Belonging.IsOfNetwork, declared.ids.DeviceId.{DeviceId as DeviceIdValue}};
ghost use Rattle.{pcf_codec.specs.Spelling.{IsPadding, Spells}, trace_text.specs.Ranges.{IsFrame, IsWhatInRange}};
ghost use Rattle.fault_hypothesis.specs.storm.Striking.{IsLastMaster, IsMaster, SendsForged, forged};

use crate::storm::draw::StormDraw;
use net_plan::{Device, DeviceId, Network, Octets, Role, What};
use pcf_codec::{PCF_LENGTH, encode};
use tte_units::Units;
use tte_units::frames::{Pcf, PcfKind};

/// The last master of the network, if it has one.
pub(crate) fn last_master(network: &Network) -> Option<DeviceId>
    requires { length network.now.device < 2 ^ 32 }
    ensures { MatchOption result
        ((device : DeviceIdValue) → IsMaster network.now device → ⊥)
        (IsLastMaster network.now) }
{
    let mut last = None;
    'devices: for (place, device) in network.device.as_slice().iter().enumerate() {
        if device.role == Role::Master {
            last = Some(DeviceId(place as u32));
        }
    }
    last
}

/// The send of the forged frame by the broken master, if the network has such a master.
pub(crate) fn forged_send(
    network: &Network,
    device: DeviceId,
    time: Units,
    draw: StormDraw,
) -> Option<What>
    requires range { IsInRange network.now }
    requires early { pos 0 ≤ℤ time.0 }
    requires late { time.0 ≤ℤ pos (2 ^ 60) }
    ensures value { KeepsRules network.now → IsMaster network.now device
        → MatchOption result ⊥ (SendsForged network.now device time draw) }
    ensures of_network { IfSome result (IsOfNetwork network.now) }
    ensures range { IfSome result IsWhatInRange }
{
    let master = network.device.as_slice().get(device.0 as usize)?;
    let member = master.member?;
    let link = network.uplink(device, draw.channel())?;
    let frame = forged_frame(network, master, member, time, draw);
    Some(What::Send(link, spelled(&frame)))
}

// The octets that spell the frame, with zeros in the padding.
fn spelled(frame: &Pcf) -> Octets
    ensures spells { Spells result frame.now }
    ensures padding { (i : ℕ) → IsPadding i → slice_index result i ≡ 0 }
    ensures bytes { IsBytes result }
    ensures frame { IsFrame result }
{
    let mut octets = [0; PCF_LENGTH];
    encode(frame, &mut octets);
    kept(&octets)
}

// Keeps the octets of a frame, which are bytes.
fn kept(octets: &[u8]) -> Octets
    requires least { 60 ≤ length octets.now }
    requires most { length octets.now ≤ 1514 }
    ensures value { result ≡ octets.now }
    ensures bytes { IsBytes result }
{
    Octets::new(octets)
}

// The frame that the broken master forges.
fn forged_frame(
    network: &Network,
    master: &Device,
    member: u32,
    time: Units,
    draw: StormDraw,
) -> Pcf
    requires range { IsInRange network.now }
    requires member { member < 32 }
    requires early { pos 0 ≤ℤ time.0 }
    requires late { time.0 ≤ℤ pos (2 ^ 60) }
    ensures { result ≡ forged network.now master.now member time draw }
{
    Pcf {
        destination: network.pcf_destination,
        source: master.mac,
        cycle: (time.amount() / network.cycle.amount()) as u32,
        members: sync_state::membership::one(member),
        priority: network.priority,
        domain: network.domain,
        kind: PcfKind::Integration,
        clock: u64::from(draw.size) % (network.dmax.amount() + 1),
    }
}
