ghost use Rattle.std.specs.Prelude.{◌≡◌, IfSome};
ghost use Rattle.net_plan.specs.{Belonging.{HasDevice, HasLink}, Ranges.IsInRange};
ghost use Rattle.trace_text.specs.Names.{device_spelled, link_spelled};

use net_plan::{DeviceId, LinkId, Network};

/// The first device whose name is written so.
#[tactic(auto, unfolding(crate::specs::Names::device_spelled))]
pub fn device_spelled(network: &Network, text: &[u8]) -> Option<DeviceId>
    requires { IsInRange network.now }
    ensures value { result ≡ device_spelled network.now text.now }
    ensures of_network { IfSome result (HasDevice network.now) }
{
    match str::from_utf8(text) {
        Ok(name) => network.device_named(name),
        // Each name is in ASCII.
        Err(_) => None,
    }
}

/// The first link whose name is written so.
#[tactic(auto, unfolding(crate::specs::Names::link_spelled))]
pub fn link_spelled(network: &Network, text: &[u8]) -> Option<LinkId>
    requires { IsInRange network.now }
    ensures value { result ≡ link_spelled network.now text.now }
    ensures of_network { IfSome result (HasLink network.now) }
{
    match str::from_utf8(text) {
        Ok(name) => network.link_named(name),
        // Each name is in ASCII.
        Err(_) => None,
    }
}
