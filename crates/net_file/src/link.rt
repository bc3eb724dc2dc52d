ghost use Rattle.std.specs.{List.All, Prelude.{◌<◌, ◌^◌, ◌≡◌, IfOk, [], length}};
ghost use Rattle.net_plan.specs.{Bearers.device_names, Ranges.IsLinkInRange, declared.network.Network.Network};
ghost use Rattle.toml.specs.View.{items_view, view};
ghost use Rattle.net_file.specs.{Numbering.{IsBelow, first_of, numbering}, Schema.{each, link_of}, Steps.Gives};

use crate::index::next_index;
use crate::names::Names;
use crate::reader::Reader;
use crate::spots::TableSpot;
use crate::values::LONGEST;
use crate::{FileRefusal, KeyName, TableName};
use net_plan::{Device, DeviceId, Link};
use std::alloc::Global;
use toml::Value;

const KEYS: [KeyName; 7] = [
    KeyName::Name,
    KeyName::Child,
    KeyName::Parent,
    KeyName::Wire,
    KeyName::Jitter,
    KeyName::Hold,
    KeyName::Speed,
];

#[tactic(auto, unfolding(crate::specs::Schema::link_of))]
fn read_link(devices: &Names<'_>, index: u32, table: &Value) -> Result<Link, FileRefusal>
    ensures in_range { (network : Network) → IsBelow (length network.device) (numbering devices.now.numbers)
        → IfOk result (IsLinkInRange network) }
    ensures value { result ≡ link_of (numbering devices.now.numbers) index (view table.now) }
{
    let table = Reader {
        place: TableSpot {
            table: TableName::Link,
            index,
        },
        table,
    };
    let name = table.name(KeyName::Name)?;
    let child = table.named(devices, KeyName::Child)?;
    let parent = table.named(devices, KeyName::Parent)?;
    let wire = table.time(1, LONGEST, KeyName::Wire)?;
    let jitter = table.time(0, LONGEST, KeyName::Jitter)?;
    let hold = table.time(0, LONGEST, KeyName::Hold)?;
    let speed = table.speed(KeyName::Speed)?;
    table.nothing_else(&KEYS)?;
    Ok(Link {
        name,
        child: DeviceId(child),
        parent: DeviceId(parent),
        wire,
        jitter,
        hold,
        speed,
    })
}

fn read_numbered(
    alloc: Global,
    devices: &Names<'_>,
    tables: &[Value],
) -> Result<Vec<Link>, FileRefusal>
    ensures value { Gives (λ v. v.items) (each (link_of (numbering devices.now.numbers)) [] (items_view tables.now))
        result }
    ensures in_range { (network : Network) → IsBelow (length network.device) (numbering devices.now.numbers)
        → IfOk result (λ v. All (IsLinkInRange network) v.items) }
    ensures few { IfOk result (λ v. length v.items < 2 ^ 32) }
{
    let mut links = Vec::new(alloc);
    'tables: for table in tables {
        let index = match next_index(links.len()) {
            Ok(index) => index,
            Err(refusal) => return Err(refusal),
        };
        let link = match read_link(devices, index, table) {
            Ok(link) => link,
            Err(refusal) => return Err(refusal),
        };
        if links.push(link).is_err() {
            return Err(FileRefusal::OutOfMemory);
        }
    }
    Ok(links)
}

/// The links of these tables, which name devices.
pub(crate) fn read_links(
    alloc: Global,
    devices: &[Device],
    tables: &[Value],
) -> Result<Vec<Link>, FileRefusal>
    ensures value { Gives (λ v. v.items)
        (each (link_of (first_of (device_names devices.now))) [] (items_view tables.now)) result }
    ensures in_range { (network : Network) → length network.device ≡ length devices.now
        → IfOk result (λ v. All (IsLinkInRange network) v.items) }
    ensures few { IfOk result (λ v. length v.items < 2 ^ 32) }
{
    let devices = match Names::of_devices(alloc, devices) {
        Ok(names) => names,
        Err(refusal) => return Err(refusal),
    };
    read_numbered(alloc, &devices, tables)
}
