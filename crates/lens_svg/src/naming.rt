//! Names of a network's things in a line.
ghost use Rattle.std.specs.Prelude.{◌+◌, ◌++◌, ◌≡◌, ◌≤◌, length};
ghost use Rattle.net_plan.specs.{Belonging.{device_name, link_name, vl_name}, Ranges.IsInRange};
ghost use Rattle.tte_io.specs.Line.{line_limit};

use net_plan::{DeviceId, LinkId, Network, VlId};
use tte_io::LineText;

/// Adds a device's name, if the network has the device: at most 16 octets.
pub fn push_device(line: &mut LineText, network: &Network, device: DeviceId)
    requires range { IsInRange network.now }
    requires room { length line.old + 16 ≤ line_limit }
    ensures text { line.new ≡ line.old ++ device_name network.now device }
    ensures grows { length line.new ≤ length line.old + 16 }
{
    if (device.0 as usize) < network.device.as_slice().len() {
        line.append(network.device_name(device));
    }
}

/// Adds a link's name, if the network has the link: at most 16 octets.
pub fn push_link(line: &mut LineText, network: &Network, link: LinkId)
    requires range { IsInRange network.now }
    requires room { length line.old + 16 ≤ line_limit }
    ensures text { line.new ≡ line.old ++ link_name network.now link }
    ensures grows { length line.new ≤ length line.old + 16 }
{
    if (link.0 as usize) < network.link.as_slice().len() {
        line.append(network.link_name(link));
    }
}

/// Adds a virtual link's name, if the network has the virtual link: at most 16 octets.
pub fn push_vl(line: &mut LineText, network: &Network, vl: VlId)
    requires range { IsInRange network.now }
    requires room { length line.old + 16 ≤ line_limit }
    ensures text { line.new ≡ line.old ++ vl_name network.now vl }
    ensures grows { length line.new ≤ length line.old + 16 }
{
    if (vl.0 as usize) < network.vl.as_slice().len() {
        line.append(network.vl_name(vl));
    }
}
