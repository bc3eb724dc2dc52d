ghost use Rattle.std.specs.Prelude.{◌<◌};

use net_plan::Network;

/// How many slots there are.
const ROOM: usize = 1024;

/// A number for each slot.
#[derive(Drop)]
struct Slots {
    numbers: [usize; ROOM],
}

impl Slots {
    fn new() -> Slots {
        Slots { numbers: [0; ROOM] }
    }

    fn set(&mut self, name: &[u8], number: usize) {
        self.numbers[slot_of(name)] = number;
    }

    fn get(&self, name: &[u8]) -> usize {
        self.numbers[slot_of(name)]
    }
}

/// Where the things of a network most likely stand, by their names.
///
/// A hint may mislead, since two names may share a slot. So it is no answer: who asks compares the name.
#[derive(Drop)]
pub struct NameHints {
    devices: Slots,
    links: Slots,
    vls: Slots,
}

impl NameHints {
    /// Those of the network.
    pub fn of(network: &Network) -> NameHints {
        NameHints {
            devices: device_slots(network),
            links: link_slots(network),
            vls: vl_slots(network),
        }
    }

    /// The likely number of the device of this name.
    pub(crate) fn device(&self, name: &[u8]) -> usize {
        self.devices.get(name)
    }

    /// The likely number of the link of this name.
    pub(crate) fn link(&self, name: &[u8]) -> usize {
        self.links.get(name)
    }

    /// The likely number of the virtual link of this name.
    pub(crate) fn vl(&self, name: &[u8]) -> usize {
        self.vls.get(name)
    }
}

fn device_slots(network: &Network) -> Slots {
    let mut slots = Slots::new();
    'devices: for (number, device) in network.device.as_slice().iter().enumerate() {
        slots.set(device.name.as_slice(), number);
    }
    slots
}

fn link_slots(network: &Network) -> Slots {
    let mut slots = Slots::new();
    'links: for (number, link) in network.link.as_slice().iter().enumerate() {
        slots.set(link.name.as_slice(), number);
    }
    slots
}

fn vl_slots(network: &Network) -> Slots {
    let mut slots = Slots::new();
    'vls: for (number, vl) in network.vl.as_slice().iter().enumerate() {
        slots.set(vl.name.as_slice(), number);
    }
    slots
}

// The slot of a name.
fn slot_of(name: &[u8]) -> usize
    ensures { result < 1024 }
{
    let mut slot = 0;
    'octets: for &octet in name {
        slot = (slot * 33 + usize::from(octet)) % ROOM;
    }
    slot
}
