ghost use Rattle.std.specs.Prelude.{◌≡◌, ◌≤◌, IfOk, length, vec_capacity};

use crate::OutOfMemory;
use net_plan::{DeviceId, LinkId, What};
use std::alloc::Global;
use std::marker::Model;
use std::mem::replace;

/// How many octets a frame has at most, without its check sequence.
pub const MOST_OCTETS: usize = 1514;

/// The octets of a frame, in memory of their own: 60 to 1,514 of them.
#[derive(Drop)]
pub struct Packet {
    octets: Vec<u8>,
}

impl Model for Packet {
    ghost use Rattle.std.specs.Prelude.{ℕ, List, ◌≤◌, length};

    ghost Value = { List ℕ };

    ghost view = { λ p. p.octets.items };

    ghost invariant = { λ p. (60 ≤ length p.octets.items) × (length p.octets.items ≤ 1514) };
}

impl Packet {
    /// Keeps the octets of a frame.
    pub fn new(alloc: Global, octets: &[u8]) -> Result<Packet, OutOfMemory>
        requires least { 60 ≤ length octets.now }
        requires most { length octets.now ≤ 1514 }
        ensures { IfOk result (λ packet. packet ≡ octets.now) }
    {
        let Ok(octets) = Vec::from_slice(alloc, octets) else {
            return Err(OutOfMemory);
        };
        Ok(Packet { octets })
    }

    /// Keeps the octets of a frame in memory that was taken before. None of it is left.
    pub fn within(room: &mut Vec<u8>, octets: &[u8]) -> Packet
        requires least { 60 ≤ length octets.now }
        requires most { length octets.now ≤ 1514 }
        requires room { 1514 ≤ vec_capacity room.old }
        ensures { result ≡ octets.now }
    {
        let alloc = *room.allocator();
        let mut kept = replace(room, Vec::new(alloc));
        kept.clear();
        let _ = kept.extend_from_slice(octets);
        Packet { octets: kept }
    }

    /// The octets as they were given.
    pub fn as_slice(&self) -> &[u8]
        ensures value { result.now ≡ self.now }
        ensures least { 60 ≤ length result.now }
        ensures most { length result.now ≤ 1514 }
    {
        self.octets.as_slice()
    }
}

/// What befell the network, where something may come of it.
#[derive(Drop)]
pub enum Happening {
    /// A device is turned on.
    On(DeviceId),
    /// A broken master sends octets.
    Send(LinkId, Packet),
    /// Nothing comes of it.
    End,
}

/// The same, seen as what befell the network.
#[derive(Drop)]
pub struct Happened {
    /// What befell.
    pub happening: Happening,
}

impl Model for Happened {
    ghost use Rattle.net_plan.specs.declared.event.What.{What};

    ghost Value = { What };

    ghost use Rattle.world_state.specs.Happenings.{what_of};

    ghost view = { λ h. what_of h.happening };
}
