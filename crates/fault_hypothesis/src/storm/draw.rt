ghost use Rattle.std.specs.Prelude.{◌≡◌, ◌<◌, ◌^◌, length};
ghost use Rattle.net_plan.specs.Belonging.{HasDevice, HasLink};
ghost use Rattle.fault_hypothesis.specs.storm.Choosing.{channel_of, choice_of, device_of, link_of, rate_of, way_of};

use net_plan::{DeviceId, LinkId, Network, Way};
use tte_units::Ppb;
use tte_units::frames::Channel;

/// The three words of a step: what kind of event comes, where, and how much.
#[derive(Clone, Copy)]
pub struct StormDraw {
    pub kind: u32,
    pub place: u32,
    pub size: u32,
}

/// The kinds of events of a storm.
#[derive(Clone, Copy)]
pub(crate) enum Choice {
    Rate,
    Wire,
    Hold,
    Cut,
    Heal,
    On,
    /// A master breaks, or the broken one sends.
    Strike,
}

impl StormDraw {
    /// The kind of event that is chosen.
    pub(crate) fn choice(self) -> Choice
        ensures { result ≡ choice_of self.kind }
    {
        match self.kind % 8 {
            0 | 1 => Choice::Rate,
            2 => Choice::Wire,
            3 => Choice::Hold,
            4 => Choice::Cut,
            5 => Choice::Heal,
            6 => Choice::On,
            _ => Choice::Strike,
        }
    }

    /// The way that is drawn.
    pub(crate) fn way(self) -> Way
        ensures { result ≡ way_of self }
    {
        if self.place < 1 << 31 {
            Way::Up
        } else {
            Way::Down
        }
    }

    /// The channel that is drawn.
    pub(crate) fn channel(self) -> Channel
        ensures { result ≡ channel_of self }
    {
        if self.place.is_multiple_of(2) {
            Channel::A
        } else {
            Channel::B
        }
    }

    /// The device that is drawn.
    pub(crate) fn device(self, network: &Network) -> DeviceId
        requires some { 0 < length network.now.device }
        requires few { length network.now.device < 2 ^ 32 }
        ensures value { result ≡ device_of network.now self }
        ensures of_network { HasDevice network.now result }
    {
        DeviceId(self.place % network.device.as_slice().len() as u32)
    }

    /// The link that is drawn.
    pub(crate) fn link(self, network: &Network) -> LinkId
        requires some { 0 < length network.now.link }
        requires few { length network.now.link < 2 ^ 32 }
        ensures value { result ≡ link_of network.now self }
        ensures of_network { HasLink network.now result }
    {
        LinkId(self.place % network.link.as_slice().len() as u32)
    }
}
