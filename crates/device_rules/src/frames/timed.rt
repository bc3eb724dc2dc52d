//! Time-triggered frames.

ghost use Rattle.std.specs.Prelude.{◌<◌, ◌^◌, ◌≡◌, ◌≤◌, drop, length, replicate};
ghost use Rattle.{device_rules.specs.frames.Made.{head_of, made_frame}, net_plan.specs.Ranges.{IsInRange, IsVlInRange}};
ghost use Rattle.{net_plan.specs.Padding.padded, run_law.specs.records.Frames.mac_of};

use byteorder::{BigEndian, ByteOrder};
use net_plan::{DeviceId, Network, VirtualLink, VlId};
use std::marker::Model;

/// How many octets a frame has at most, without its check sequence.
const MOST_OCTETS: usize = 1514;

/// How many octets stand before the zeros of a frame that its sender makes.
const HEAD_OCTETS: usize = 18;

/// The address of a device, as a number.
fn mac_of(network: &Network, device: DeviceId) -> u64
    requires { device.0 < length network.now.device }
    ensures value { result ≡ mac_of network.now device }
    ensures bound { result < 2 ^ 48 }
{
    network.device.as_slice()[device.0 as usize].mac.number()
}

/// Writes what a frame begins with.
fn write_head(network: &Network, vl: &VirtualLink, cycle: u32, head: &mut [u8; HEAD_OCTETS])
    requires { IsVlInRange network.now vl.now }
    ensures { head.new ≡ head_of network.now vl.now cycle }
{
    BigEndian::write_u32(head, network.marker);
    BigEndian::write_u16(&mut head[4..], vl.id);
    BigEndian::write_u48(&mut head[6..], mac_of(network, vl.sender));
    BigEndian::write_u16(&mut head[12..], vl.ethertype);
    BigEndian::write_u32(&mut head[14..], cycle);
}

/// Octets with zeros behind them.
fn fill(octets: &mut [u8; MOST_OCTETS], front: &[u8])
    requires { length front.now ≤ 1514 }
    ensures { octets.new ≡ padded 1514 front.now }
{
    *octets = [0; MOST_OCTETS];
    octets[..front.len()].copy_from_slice(front);
}

/// Puts the head of a frame before the zeros.
fn put_head(octets: &mut [u8; MOST_OCTETS], head: &[u8; HEAD_OCTETS])
    requires { drop 18 octets.old ≡ replicate 1496 0 }
    ensures { octets.new ≡ padded 1514 head.now }
{
    octets[..HEAD_OCTETS].copy_from_slice(head);
}

/// The frame of a virtual link as its sender makes it for a cycle: a head, and zeros behind it.
///
/// The octets stand in place, and all behind the head are zeros: for the next frame the head alone is written.
#[derive(Drop)]
pub struct MadeFrame {
    octets: [u8; MOST_OCTETS],
    len: usize,
}

impl Model for MadeFrame {
    ghost use Rattle.std.specs.Prelude.{ℕ, List, ◌≡◌, ◌≤◌, take, drop, replicate};

    ghost Value = { List ℕ };

    ghost view = { λ f. take f.len f.octets };

    ghost invariant = { λ f. (60 ≤ f.len) × (f.len ≤ 1514) × (drop 18 f.octets ≡ replicate 1496 0) };
}

impl MadeFrame {
    /// None was made yet: zeros.
    pub fn new() -> MadeFrame {
        MadeFrame {
            octets: [0; MOST_OCTETS],
            len: 60,
        }
    }

    /// Makes the frame of a virtual link for a cycle.
    pub fn write(&mut self, network: &Network, vl: VlId, cycle: u32)
        requires { IsInRange network.now }
        ensures { self.new ≡ made_frame network.now vl cycle }
    {
        match network.vl.as_slice().get(vl.0 as usize) {
            Some(found) => {
                let mut head = [0; HEAD_OCTETS];
                write_head(network, found, cycle, &mut head);
                put_head(&mut self.octets, &head);
                self.len = found.length as usize;
            }
            None => {
                fill(&mut self.octets, &[]);
                self.len = 60;
            }
        }
    }

    /// Its octets.
    pub fn as_slice(&self) -> &[u8]
        ensures value { result.now ≡ self.now }
        ensures least { 60 ≤ length result.now }
        ensures most { length result.now ≤ 1514 }
    {
        &self.octets[..self.len]
    }
}
