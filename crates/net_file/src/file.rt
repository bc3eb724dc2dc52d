ghost use Rattle.std.specs.{Prelude.{◌≡◌, ◌≤◌, ◌⊎◌, IfOk, MatchResult, None, Some, length}, Str.is_utf8};
ghost use Rattle.net_file.specs.Schema.{filled, network_in, network_of, network_read, parsed};
ghost use Rattle.net_file.specs.{Steps.Gives, declared.refusal.FileRefusal.TheVariants.{NotToml, OutOfMemory}};
ghost use Rattle.{net_plan.specs.Ranges.IsInRange, toml.specs.{Data.table, Parse.parse_document, View.view}};

use crate::device::read_devices;
use crate::document::{DOCUMENT, read_document};
use crate::link::read_links;
use crate::reader::Reader;
use crate::row::read_rows;
use crate::vl::read_vls;
use crate::{FileRefusal, KeyName};
use net_plan::{Devices, Links, Network, Rows, VirtualLinks};
use std::alloc::Global;
use toml::Value;

#[tactic(auto, using(crate::proofs::Documents::not_parsed, crate::proofs::Documents::is_parsed))]
fn parse(alloc: Global, text: &[u8]) -> Result<Value, FileRefusal>
    ensures { MatchResult result (λ v. (ms : _) × (parsed text.now ≡ Some ms) × (view v ≡ table ms))
        (λ e. (e ≡ OutOfMemory) ⊎ ((e ≡ NotToml) × (parsed text.now ≡ None))) }
{
    let text = match std::str::from_utf8(text) {
        Ok(text) => text,
        Err(_) => return Err(FileRefusal::NotToml),
    };
    match toml::table_from_str(alloc, text) {
        Ok(table) => Ok(Value::Table(table)),
        Err(e) if e.is_memory() => Err(FileRefusal::OutOfMemory),
        Err(_) => Err(FileRefusal::NotToml),
    }
}

// Reads the tables of the document's arrays into the network.
#[tactic(auto, unfolding(crate::specs::Schema::filled))]
fn read_arrays(alloc: Global, document: &Value, network: &mut Network) -> Result<(), FileRefusal>
    ensures in_range { IfOk result (λ _. IsInRange network.old → IsInRange network.new) }
    ensures value { Gives (λ _. network.new) (filled (view document.now) network.old) result }
{
    let top = Reader {
        place: DOCUMENT,
        table: document,
    };
    let devices = top.tables(KeyName::Device)?;
    let links = top.tables(KeyName::Link)?;
    let vls = top.tables(KeyName::Vl)?;
    let rows = top.tables(KeyName::Row)?;
    let devices = read_devices(alloc, devices)?;
    let links = read_links(alloc, &devices, links)?;
    let vls = read_vls(alloc, &devices, vls)?;
    let rows = read_rows(alloc, &vls, &links, rows)?;
    network.device = Devices(devices);
    network.link = Links(links);
    network.vl = VirtualLinks(vls);
    network.row = Rows(rows);
    Ok(())
}

fn read_value(alloc: Global, value: &Value) -> Result<Network, FileRefusal>
    ensures in_range { IfOk result IsInRange }
    ensures value { Gives (λ n. n) (network_of (view value.now)) result }
{
    let mut network = read_document(alloc, value)?;
    read_arrays(alloc, value, &mut network)?;
    Ok(network)
}

/// The network that a designer's file means, or the first fault of the file.
///
/// The text has at most 262,144 octets. It is read in this order: whether it is a TOML document;
/// the keys of the whole document, and whether it has others; whether `device`, `link`, `vl` and
/// `row` are arrays of tables; then each of their tables, the keys in their order, and whether it
/// has others. A key is first looked for, then its kind is judged, then its value. The grammar is
/// `network_read` in `specs/Schema.antt`: what stands there, line by line, is what a file means.
pub fn read_network(alloc: Global, text: &[u8]) -> Result<Network, FileRefusal>
    requires { length text.now ≤ 262144 }
    ensures in_range { IfOk result IsInRange }
    ensures value { Gives (λ n. n) (network_read text.now) result }
{
    let value = match parse(alloc, text) {
        Ok(value) => value,
        Err(refusal) => return Err(refusal),
    };
    read_value(alloc, &value)
}
