ghost use Rattle.std.specs.Prelude.{◌≡◌, IfOk};
ghost use Rattle.{net_file.specs.Schema.document_of, net_plan.specs.Ranges.IsInRange, toml.specs.View.view};

use crate::reader::Reader;
use crate::spots::TableSpot;
use crate::values::LONGEST;
use crate::{FileRefusal, KeyName, TableName};
use net_plan::{Devices, Links, Network, Rows, VirtualLinks};
use std::alloc::Global;
use toml::Value;
use tte_units::Units;

const KEYS: [KeyName; 19] = [
    KeyName::Version,
    KeyName::Cycle,
    KeyName::Rho,
    KeyName::Grain,
    KeyName::Dmax,
    KeyName::Calc,
    KeyName::Settled,
    KeyName::Precision,
    KeyName::Correction,
    KeyName::TtStart,
    KeyName::SyncThreshold,
    KeyName::Priority,
    KeyName::Domain,
    KeyName::PcfDestination,
    KeyName::Marker,
    KeyName::Device,
    KeyName::Link,
    KeyName::Vl,
    KeyName::Row,
];

/// The place of the whole document.
pub(crate) const DOCUMENT: TableSpot = TableSpot {
    table: TableName::Top,
    index: 0,
};

/// The numbers of the network, which has no devices, links, virtual links and rows yet.
#[tactic(auto, unfolding(crate::specs::Schema::document_of))]
pub(crate) fn read_document(alloc: Global, document: &Value) -> Result<Network, FileRefusal>
    ensures in_range { IfOk result IsInRange }
    ensures value { result ≡ document_of (view document.now) }
{
    let top = Reader {
        place: DOCUMENT,
        table: document,
    };
    let version = top.whole(1, 2, KeyName::Version)?;
    let cycle = top.time(1 << 32, LONGEST, KeyName::Cycle)?;
    let rho = top.whole(0, 1_000_000, KeyName::Rho)?;
    let grain = top.time_if_there(1, 1_048_576, KeyName::Grain)?;
    let dmax = top.time(1, LONGEST, KeyName::Dmax)?;
    let calc = top.time(1, LONGEST, KeyName::Calc)?;
    let settled = top.time(0, LONGEST, KeyName::Settled)?;
    let precision = top.time(1, LONGEST, KeyName::Precision)?;
    let correction = top.time(0, LONGEST, KeyName::Correction)?;
    let tt_start = top.time(0, LONGEST, KeyName::TtStart)?;
    let sync_threshold = top.whole(1, 31, KeyName::SyncThreshold)?;
    let priority = top.whole(0, 255, KeyName::Priority)?;
    let domain = top.whole(0, 255, KeyName::Domain)?;
    let pcf_destination = top.mac(KeyName::PcfDestination)?;
    let marker = top.marker(KeyName::Marker)?;
    top.nothing_else(&KEYS)?;
    Ok(Network {
        version: version as u32,
        cycle,
        rho: rho as u32,
        grain: grain.unwrap_or(Units::from_amount(1)),
        dmax,
        calc,
        settled,
        precision,
        correction,
        tt_start,
        sync_threshold: sync_threshold as u32,
        priority: priority as u8,
        domain: domain as u8,
        pcf_destination,
        marker,
        device: Devices(Vec::new(alloc)),
        link: Links(Vec::new(alloc)),
        vl: VirtualLinks(Vec::new(alloc)),
        row: Rows(Vec::new(alloc)),
    })
}
