ghost use Rattle.std.specs.{List.All, Prelude.{◌<◌, ◌^◌, ◌≡◌, ◌≤◌, IfOk, IfSome, [], is_some, length, not}};
ghost use Rattle.net_file.specs.{Reading.{whole, word}, Schema.{device_keys, device_of, each}, Steps.{Gives, only_if}};
ghost use Rattle.{net_file.specs.Values.channel_of, toml.specs.View.{items_view, view}};
ghost use Rattle.net_plan.specs.{Places.{is_end_system, is_master}, Ranges.IsDeviceInRange};
ghost use Rattle.net_file.specs.declared.keys.KeyName.TheVariants as keys;

use crate::index::next_index;
use crate::reader::Reader;
use crate::spots::TableSpot;
use crate::values::LONGEST;
use crate::{FileRefusal, KeyName, TableName};
use net_plan::{Device, Role};
use std::alloc::Global;
use toml::Value;
use tte_units::frames::Channel;

fn device_keys(role: Role) -> &'static [KeyName]
    ensures { result.now ≡ device_keys role }
{
    match role {
        Role::Master => &[
            KeyName::Name,
            KeyName::Role,
            KeyName::Mac,
            KeyName::Member,
            KeyName::Start,
        ],
        Role::Client => &[KeyName::Name, KeyName::Role, KeyName::Mac, KeyName::Start],
        Role::Cm | Role::Relay => &[
            KeyName::Name,
            KeyName::Role,
            KeyName::Mac,
            KeyName::Channel,
            KeyName::Start,
        ],
    }
}

// The member number, which a master has.
fn read_member(table: &Reader<'_>, role: Role) -> Result<Option<u32>, FileRefusal>
    ensures there { IfOk result (λ m. is_some m ≡ is_master role) }
    ensures least { IfOk result (λ m. IfSome m (λ n. n ≤ 31)) }
    ensures value { result ≡ only_if (is_master role)
        (whole 0 31 table.now.place keys.Member (view table.now.table.now)) }
{
    match role {
        Role::Master => {
            let member = table.whole(0, 31, KeyName::Member)?;
            Ok(Some(member as u32))
        }
        _ => Ok(None),
    }
}

// The channel, which a switch has.
fn read_channel(table: &Reader<'_>, role: Role) -> Result<Option<Channel>, FileRefusal>
    ensures there { IfOk result (λ c. is_some c ≡ not (is_end_system role)) }
    ensures value { result ≡ only_if (not (is_end_system role))
        (word channel_of table.now.place keys.Channel (view table.now.table.now)) }
{
    match role {
        Role::Cm | Role::Relay => {
            let channel = table.channel(KeyName::Channel)?;
            Ok(Some(channel))
        }
        _ => Ok(None),
    }
}

#[tactic(auto, unfolding(crate::specs::Schema::device_of))]
fn read_device(index: u32, table: &Value) -> Result<Device, FileRefusal>
    ensures in_range { IfOk result IsDeviceInRange }
    ensures value { result ≡ device_of index (view table.now) }
{
    let table = Reader {
        place: TableSpot {
            table: TableName::Device,
            index,
        },
        table,
    };
    let name = table.name(KeyName::Name)?;
    let role = table.role(KeyName::Role)?;
    let mac = table.mac(KeyName::Mac)?;
    let member = read_member(&table, role)?;
    let channel = read_channel(&table, role)?;
    let start = table.time_if_there(0, LONGEST, KeyName::Start)?;
    table.nothing_else(device_keys(role))?;
    Ok(Device {
        name,
        role,
        mac,
        member,
        channel,
        start,
    })
}

/// The devices of these tables.
pub(crate) fn read_devices(alloc: Global, tables: &[Value]) -> Result<Vec<Device>, FileRefusal>
    ensures value { Gives (λ v. v.items) (each device_of [] (items_view tables.now)) result }
    ensures in_range { IfOk result (λ v. All IsDeviceInRange v.items) }
    ensures few { IfOk result (λ v. length v.items < 2 ^ 32) }
{
    let mut devices = Vec::new(alloc);
    'tables: for table in tables {
        let index = match next_index(devices.len()) {
            Ok(index) => index,
            Err(refusal) => return Err(refusal),
        };
        let device = match read_device(index, table) {
            Ok(device) => device,
            Err(refusal) => return Err(refusal),
        };
        if devices.push(device).is_err() {
            return Err(FileRefusal::OutOfMemory);
        }
    }
    Ok(devices)
}
