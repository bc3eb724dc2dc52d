//! The headings of time-triggered frames.

ghost use Rattle.std.specs.Prelude.{◌≡◌, ◌≤◌, ◌<◌, ◌+◌, None, ℕ, length};
ghost use Rattle.{device_rules.specs.Headings.{heading_fault, heading_of}, run_law.specs.records.Frames.tt_frame};
ghost use Rattle.{net_plan.specs.Ranges.IsInRange, sync_state.specs.declared.state.State.TheVariants.Synchronised};

use crate::standpoint::is_synchronised;
use net_plan::{Network, VlId};
use pcf_codec::{four_octets, two_octets};
use run_law::Reason;
use sync_state::State;

/// The least EtherType; a smaller number in its place is a length (IEEE 802.3).
const LEAST_TYPE: u16 = 0x0600;

/// What a judgement reads of the octets of a frame that is no control frame.
#[derive(Clone, Copy, PartialEq, Eq)]
pub struct Heading {
    /// How many octets there are.
    pub length: usize,
    pub marker: u32,
    /// The id of the virtual link.
    pub id: u16,
    pub ethertype: u16,
}

impl Heading {
    /// The heading of 14 octets or more.
    pub fn of(octets: &[u8]) -> Heading
        requires { 14 ≤ length octets.now }
        ensures { result ≡ heading_of octets.now }
    {
        Heading {
            length: octets.len(),
            marker: four_octets(octets),
            id: two_octets(octets, 4),
            ethertype: two_octets(octets, 12),
        }
    }

    /// The heading of the frames of the virtual link that its sender makes, of any cycle.
    pub fn made(network: &Network, vl: VlId) -> Heading
        requires range { IsInRange network.now }
        requires there { vl.0 < length network.now.vl }
        ensures { (cycle : ℕ) → result ≡ heading_of (tt_frame network.now vl cycle) }
    {
        let vl = &network.vl.as_slice()[vl.0 as usize];
        Heading {
            length: usize::from(vl.length),
            marker: network.marker,
            id: vl.id,
            ethertype: vl.ethertype,
        }
    }

    /// Why a device that takes part or not, in this state, in a network of this marker, drops a frame of this heading
    /// before its row is looked for, if it does: the first reason in this order.
    pub fn fault(&self, takes_part: bool, state: State, marker: u32) -> Option<Reason>
        ensures is { result ≡ heading_fault takes_part state marker self.now }
        ensures synchronised { result ≡ None → state ≡ Synchronised }
    {
        if !takes_part {
            Some(Reason::Off)
        } else if self.ethertype < LEAST_TYPE {
            Some(Reason::RefusedEtherType)
        } else if !is_synchronised(state) {
            Some(Reason::Unsynchronised)
        } else if self.marker != marker {
            Some(Reason::Unknown)
        } else {
            None
        }
    }
}
