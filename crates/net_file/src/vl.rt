ghost use Rattle.std.specs.{List.All, Prelude.{◌<◌, ◌^◌, ◌≡◌, IfOk, [], length}};
ghost use Rattle.net_plan.specs.{Bearers.device_names, Ranges.IsVlInRange, declared.network.Network.Network};
ghost use Rattle.toml.specs.View.{items_view, view};
ghost use Rattle.net_file.specs.{Numbering.{IsBelow, first_of, numbering}, Schema.{each, vl_of}, Steps.Gives};

use crate::index::next_index;
use crate::names::Names;
use crate::reader::Reader;
use crate::spots::TableSpot;
use crate::{FileRefusal, KeyName, TableName};
use net_plan::{Device, DeviceId, VirtualLink};
use std::alloc::Global;
use toml::Value;

const KEYS: [KeyName; 7] = [
    KeyName::Name,
    KeyName::Id,
    KeyName::Length,
    KeyName::Ethertype,
    KeyName::Sender,
    KeyName::Period,
    KeyName::Phase,
];

#[tactic(auto, unfolding(crate::specs::Schema::vl_of))]
fn read_vl(devices: &Names<'_>, index: u32, table: &Value) -> Result<VirtualLink, FileRefusal>
    ensures in_range { (network : Network) → IsBelow (length network.device) (numbering devices.now.numbers)
        → IfOk result (IsVlInRange network) }
    ensures value { result ≡ vl_of (numbering devices.now.numbers) index (view table.now) }
{
    let table = Reader {
        place: TableSpot {
            table: TableName::Vl,
            index,
        },
        table,
    };
    let name = table.name(KeyName::Name)?;
    let id = table.whole(0, 65_535, KeyName::Id)?;
    let length = table.whole(60, 1514, KeyName::Length)?;
    let ethertype = table.ethertype(KeyName::Ethertype)?;
    let sender = table.named(devices, KeyName::Sender)?;
    let period = table.whole(1, 64, KeyName::Period)?;
    let phase = table.whole(0, 63, KeyName::Phase)?;
    table.nothing_else(&KEYS)?;
    Ok(VirtualLink {
        name,
        id: id as u16,
        length: length as u16,
        ethertype,
        sender: DeviceId(sender),
        period: period as u32,
        phase: phase as u32,
    })
}

fn read_numbered(
    alloc: Global,
    devices: &Names<'_>,
    tables: &[Value],
) -> Result<Vec<VirtualLink>, FileRefusal>
    ensures value { Gives (λ v. v.items) (each (vl_of (numbering devices.now.numbers)) [] (items_view tables.now))
        result }
    ensures in_range { (network : Network) → IsBelow (length network.device) (numbering devices.now.numbers)
        → IfOk result (λ v. All (IsVlInRange network) v.items) }
    ensures few { IfOk result (λ v. length v.items < 2 ^ 32) }
{
    let mut vls = Vec::new(alloc);
    'tables: for table in tables {
        let index = match next_index(vls.len()) {
            Ok(index) => index,
            Err(refusal) => return Err(refusal),
        };
        let vl = match read_vl(devices, index, table) {
            Ok(vl) => vl,
            Err(refusal) => return Err(refusal),
        };
        if vls.push(vl).is_err() {
            return Err(FileRefusal::OutOfMemory);
        }
    }
    Ok(vls)
}

/// The virtual links of these tables, which name devices.
pub(crate) fn read_vls(
    alloc: Global,
    devices: &[Device],
    tables: &[Value],
) -> Result<Vec<VirtualLink>, FileRefusal>
    ensures value { Gives (λ v. v.items) (each (vl_of (first_of (device_names devices.now))) [] (items_view tables.now))
        result }
    ensures in_range { (network : Network) → length network.device ≡ length devices.now
        → IfOk result (λ v. All (IsVlInRange network) v.items) }
    ensures few { IfOk result (λ v. length v.items < 2 ^ 32) }
{
    let devices = match Names::of_devices(alloc, devices) {
        Ok(names) => names,
        Err(refusal) => return Err(refusal),
    };
    read_numbered(alloc, &devices, tables)
}
