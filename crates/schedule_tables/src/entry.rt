ghost use Rattle.std.specs.Prelude.{◌≡◌, ◌<◌, ◌≤◌, IfOk, length, pos};
ghost use Rattle.{net_plan.specs.Ranges.IsInRange, schedule_tables.specs.Windows.port_time};
ghost use Rattle.schedule_tables.specs.Entries.{AreEntries, IsEntry, IsEntryInRange, source_of, target_of};

use crate::OutOfMemory;
use net_plan::{DeviceId, Link, Network, Row, RowId, VirtualLink, Way};
use std::alloc::Global;
use tte_units::{Units, octets};

/// The octets of a frame that are sent beside its own: preamble and delimiter, check sequence and
/// gap (IEEE 802.3).
const OVERHEAD: u32 = 24;

/// A row of the schedule, with the virtual link and the link that it names.
#[derive(Clone, Copy, PartialEq, Eq)]
pub struct Entry {
    pub row: Row,
    pub vl: VirtualLink,
    pub link: Link,
}

/// The entry of a row of the network.
pub fn entry_of(network: &Network, row: RowId) -> Entry
    requires range { IsInRange network.now }
    requires there { row.0 < length network.now.row }
    ensures is { IsEntry network.now row.0 result }
    ensures range { IsEntryInRange network.now result }
{
    let row = network.row.as_slice()[row.0 as usize];
    Entry {
        row,
        vl: network.vl.as_slice()[row.vl.0 as usize],
        link: network.link.as_slice()[row.link.0 as usize],
    }
}

/// The entries of all rows of the network, in their order.
pub fn entries_of(alloc: Global, network: &Network) -> Result<Vec<Entry>, OutOfMemory>
    requires { IsInRange network.now }
    ensures { IfOk result (λ entries. AreEntries network.now entries.items) }
{
    let mut entries = Vec::new(alloc);
    for place in 0..network.row.as_slice().len() {
        match entries.push(entry_of(network, RowId(place as u32))) {
            Ok(()) => (),
            Err(_) => return Err(OutOfMemory),
        }
    }
    Ok(entries)
}

impl Entry {
    /// The device that the entry's frame leaves.
    pub fn source(&self) -> DeviceId
        ensures { result ≡ source_of self.now }
    {
        match self.row.way {
            Way::Up => self.link.child,
            Way::Down => self.link.parent,
        }
    }

    /// The device that the entry's frame enters.
    pub fn target(&self) -> DeviceId
        ensures { result ≡ target_of self.now }
    {
        match self.row.way {
            Way::Up => self.link.parent,
            Way::Down => self.link.child,
        }
    }

    /// How long the entry's frame occupies its port, in units of 2^-16 ns.
    ///
    /// The virtual link's length is at most 1,514 octets.
    pub fn port_time(&self) -> Units
        requires { self.now.vl.length ≤ 1514 }
        ensures { result.0 ≡ pos (port_time self.now) }
    {
        octets(self.link.speed, u32::from(self.vl.length) + OVERHEAD)
    }
}
