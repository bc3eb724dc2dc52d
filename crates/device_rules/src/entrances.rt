//! The rows by which time-triggered frames enter devices.

ghost use Rattle.std.specs.{BTreeMap.get, Prelude.{◌++◌, ◌∷◌, ◌≡◌, IfOk, IfSome, List, OnOk, [], ℕ}};
ghost use Rattle.device_rules.specs.Entering.{AreEntrances, AreRows, HasPeriod, HaveEntries, IsEnteredSo, comes_by};
ghost use Rattle.device_rules.specs.{Entering.{entering_by, entrance_cmp, entrance_of, is_of}, Headings.heading_of};
ghost use Rattle.net_plan.specs.{Ranges.IsInRange, declared.tables.{Row.Row, Way.TheVariants.{Down, Up}}};
ghost use Rattle.net_plan.specs.declared.network.Network.{Network as NetworkValue};
ghost use Rattle.schedule_tables.specs.Entries.{IsEntry, IsEntryInRange};

use crate::network::way_to;
use crate::{Heading, Standpoint};
use net_plan::{DeviceId, Link, LinkId, Network, RowId, VlId, Way};
use run_law::{Reason, is_way};
use schedule_tables::{Entry, OutOfMemory, Window, entry_of, window_of};
use std::alloc::Global;
use std::collections::BTreeMap;

/// A row by which frames of a virtual link enter a device, as far as they are judged by it.
#[derive(Clone, Copy, PartialEq, Eq)]
pub struct EnteringRow {
    pub vl: VlId,
    /// How many octets the frames have.
    pub length: u16,
    /// The virtual link occurs in the cycles of this phase modulo the period.
    pub period: u32,
    pub phase: u32,
    /// Where in the device's cycle the frames may arrive.
    pub window: Window,
}

/// The link by which a frame comes, and the id of its virtual link in the frame.
#[derive(Clone, Copy, PartialEq, Eq, PartialOrd, Ord, Drop)]
pub(crate) struct Entrance {
    pub(crate) link: LinkId,
    pub(crate) id: u16,
}

/// Which rows are kept.
#[derive(Clone, Copy)]
pub(crate) enum Which {
    /// Those of a way.
    On(Way),
    /// Those by which frames enter a device.
    Into(DeviceId),
}

/// The rows of a network by which time-triggered frames enter devices.
#[derive(Drop)]
pub struct Entrances {
    up: BTreeMap<Entrance, EnteringRow>,
    down: BTreeMap<Entrance, EnteringRow>,
}

impl Entrances {
    /// The rows of the network. The first one stands for each link, way and id.
    ///
    /// Fails when memory runs out.
    pub fn new(alloc: Global, network: &Network) -> Result<Entrances, OutOfMemory>
        requires { IsInRange network.now }
        ensures { IfOk result (AreEntrances network.now) }
    {
        let up = rows_of(alloc, network, Which::On(Way::Up))?;
        let down = rows_of(alloc, network, Which::On(Way::Down))?;
        Ok(Entrances { up, down })
    }

    /// The row by which a frame of this heading enters the device by the link, or why it is dropped before.
    pub fn entering(
        &self,
        network: &Network,
        device: DeviceId,
        link: LinkId,
        at: &Standpoint,
        heading: &Heading,
    ) -> Result<EnteringRow, Reason>
        requires range { IsInRange network.now }
        requires entrances { AreEntrances network.now self.now }
        ensures period { IfOk result HasPeriod }
        ensures is { (octets : List ℕ) → heading_of octets ≡ heading.now
            → IsEnteredSo network.now device link at.now octets result }
    {
        if let Some(reason) = heading.fault(at.takes_part(), at.state(), network.marker) {
            return Err(reason);
        }
        let entrance = Entrance {
            link,
            id: heading.id,
        };
        match self.row_at(way_to(network, device, link), entrance) {
            Some(row) => Ok(row),
            None => Err(Reason::Unknown),
        }
    }

    /// The row by which frames on the way enter by the entrance.
    fn row_at(&self, way: Way, entrance: Entrance) -> Option<EnteringRow>
        ensures up { way ≡ Up → result ≡ get entrance_cmp self.now.up entrance }
        ensures down { way ≡ Down → result ≡ get entrance_cmp self.now.down entrance }
    {
        match way {
            Way::Up => self.up.get(&entrance).copied(),
            Way::Down => self.down.get(&entrance).copied(),
        }
    }
}

/// These rows of the network. The first one stands for each entrance.
pub(crate) fn rows_of(
    alloc: Global,
    network: &Network,
    which: Which,
) -> Result<BTreeMap<Entrance, EnteringRow>, OutOfMemory>
    requires { IsInRange network.now }
    ensures { IfOk result (AreRows network.now which network.now.row) }
{
    let mut rows = BTreeMap::new(alloc);
    for place in 0..network.row.as_slice().len() {
        let entry = entry_of(network, RowId(place as u32));
        add_row(&mut rows, network, which, &entry)?;
    }
    Ok(rows)
}

/// Keeps a further row, where it is one of these and no earlier one stands for its entrance.
fn add_row(
    rows: &mut BTreeMap<Entrance, EnteringRow>,
    network: &Network,
    which: Which,
    entry: &Entry,
) -> Result<(), OutOfMemory>
    requires range { IsInRange network.now }
    requires entry { IsEntryInRange network.now entry.now }
    ensures { (earlier : List Row) (place : ℕ) → IsEntry network.now place entry.now
        → HaveEntries network.now earlier → AreRows network.now which earlier rows.old
        → OnOk result (AreRows network.now which (earlier ++ entry.now.row ∷ []) rows.new) }
{
    let entrance = entrance_of(entry);
    if !is_of(which, entry) {
        return Ok(());
    }
    if rows.contains_key(&entrance) {
        return Ok(());
    }
    match rows.insert(entrance, entering_row(network, entry)) {
        Ok(_) => Ok(()),
        Err(_) => Err(OutOfMemory),
    }
}

/// Is the entry's row one of these?
fn is_of(which: Which, entry: &Entry) -> bool
    ensures { (network : NetworkValue) (place : ℕ) → IsEntry network place entry.now
        → result ≡ is_of network which entry.now.row }
{
    match which {
        Which::On(way) => is_way(way, entry.row.way),
        Which::Into(device) => comes_by(entry.row.way, &entry.link, device),
    }
}

/// Does what goes this way of the link come to the device?
fn comes_by(way: Way, link: &Link, device: DeviceId) -> bool
    ensures { result ≡ comes_by way link.now device }
{
    match way {
        Way::Up => link.parent.0 == device.0,
        Way::Down => link.parent.0 != device.0 && link.child.0 == device.0,
    }
}

/// The entrance of the entry's frames.
fn entrance_of(entry: &Entry) -> Entrance
    ensures { result ≡ entrance_of entry.now }
{
    Entrance {
        link: entry.row.link,
        id: entry.vl.id,
    }
}

/// What is kept of the entry.
fn entering_row(network: &Network, entry: &Entry) -> EnteringRow
    requires range { IsInRange network.now }
    requires entry { IsEntryInRange network.now entry.now }
    ensures { result ≡ entering_by network.now entry.now }
{
    EnteringRow {
        vl: entry.row.vl,
        length: entry.vl.length,
        period: entry.vl.period,
        phase: entry.vl.phase,
        window: window_of(network, entry),
    }
}
