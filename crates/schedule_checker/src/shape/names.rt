ghost use Rattle.std.specs.Prelude.{◌≡◌, ◌≢◌, ◌<◌, ◌↔◌, IsTrue, length};
ghost use Rattle.net_plan.specs.Rules.{DeviceIsNew, LinkIsNew};

use net_plan::{Device, Name, Network};

/// Has the device at the place neither the name nor the address of an earlier one?
pub(crate) fn device_is_new(network: &Network, place: u32) -> bool
    requires { place < length network.now.device }
    ensures { IsTrue result ↔ DeviceIsNew network.now place }
{
    let devices = network.device.as_slice();
    let device = &devices[place as usize];
    devices
        .iter()
        .take(place as usize)
        .all(|earlier| differ(device, earlier))
}

/// Do the devices differ in their names and in their addresses?
fn differ(device: &Device, earlier: &Device) -> bool
    ensures { IsTrue result ↔ ((device.now.name ≢ earlier.now.name) × (device.now.mac ≢ earlier.now.mac)) }
{
    !is_same_name(&device.name, &earlier.name) && device.mac != earlier.mac
}

/// Has the link at the place not the name of an earlier one?
pub(crate) fn link_is_new(network: &Network, place: u32) -> bool
    requires { place < length network.now.link }
    ensures { IsTrue result ↔ LinkIsNew network.now place }
{
    let links = network.link.as_slice();
    let link = &links[place as usize];
    links
        .iter()
        .take(place as usize)
        .all(|earlier| !is_same_name(&link.name, &earlier.name))
}

/// Are the names the same?
fn is_same_name(name: &Name, other: &Name) -> bool
    ensures { IsTrue result ↔ (name.now ≡ other.now) }
{
    name == other
}
