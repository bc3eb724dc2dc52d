ghost use Rattle.std.specs.Prelude.{◌≤◌, length};
ghost use Rattle.net_plan.specs.Ranges.{IsInRange};

use crate::encoding::{NotText, not_text};
use crate::hinting::{Called, FILE_LIMIT};
use crate::key::{TablePlace, must_be, place_of, text_at, unknown_key};
use crate::saying::Hole::{Count, Text};
use crate::saying::filled;
use net_file::{FileRefusal, Spot, find_fault, read_network};
use net_plan::Network;
use schedule_checker::{Unfit, check};
use std::alloc::Global;
use std::str;
use toml::Value;
use tte_io::{Source, read_all};

/// Reads the text of a document, which is one.
fn document_of(alloc: Global, octets: &[u8]) -> Option<Value> {
    let text = str::from_utf8(octets).ok()?;
    Some(Value::Table(toml::table_from_str(alloc, text).ok()?))
}

/// What is wrong with a key, or with its value: a text of its path, its table, the key and what it must be.
fn of_key(alloc: Global, called: Called<'_>, text: &str, spot: Spot) -> Option<String> {
    let place = place_of(spot).text(alloc)?;
    filled(
        alloc,
        text,
        &[
            Text(called.first_path()),
            Text(place.as_str()),
            Text(spot.key.text()),
            Text(must_be(spot)),
        ],
    )
}

/// Where a network's file is found to be no TOML.
fn no_toml(alloc: Global, called: Called<'_>, octets: &[u8]) -> Option<String>
    requires { length octets.now ≤ 262144 }
{
    let place = find_fault(alloc, octets).ok()??;
    filled(
        alloc,
        "{} is no TOML: line {}, column {}",
        &[
            Text(called.first_path()),
            Count(place.line.into()),
            Count(place.column.into()),
        ],
    )
}

/// Which key of a table is unknown.
fn no_key(alloc: Global, called: Called<'_>, octets: &[u8], place: TablePlace) -> Option<String> {
    let document = document_of(alloc, octets)?;
    let path = called.first_path();
    let table = place.text(alloc)?;
    match unknown_key(&document, place) {
        Some(key) => format!(in alloc; "{path}: {table}no such table has the key {key:?}").ok(),
        None => filled(
            alloc,
            "{}: {}only a master has a member, and only a switch a channel",
            &[Text(path), Text(table.as_str())],
        ),
    }
}

/// Which name is unknown.
fn no_name(alloc: Global, called: Called<'_>, octets: &[u8], spot: Spot) -> Option<String> {
    let document = document_of(alloc, octets)?;
    let name = text_at(&document, spot)?;
    let wanted = of_key(alloc, called, "{}: {}{} must be {}", spot)?;
    format!(in alloc; "{wanted}, and {name:?} is none").ok()
}

/// Which rule a network breaks.
fn no_rule(alloc: Global, called: Called<'_>, network: Network) -> Option<String>
    requires { IsInRange network }
{
    let Err(Unfit::Rule(broken)) = check(alloc, network) else {
        return None;
    };
    let path = called.first_path();
    filled(
        alloc,
        "{} breaks rule {} at index {}: lens slack {} tells more",
        &[
            Text(path),
            Count(broken.number.into()),
            Count(broken.index.into()),
            Text(path),
        ],
    )
}

/// Why a text is no network.
fn no_network(
    alloc: Global,
    called: Called<'_>,
    octets: &[u8],
    refusal: FileRefusal,
) -> Option<String>
    requires { length octets.now ≤ 262144 }
{
    match refusal {
        FileRefusal::NotToml => no_toml(alloc, called, octets),
        FileRefusal::Missing(spot) => {
            of_key(alloc, called, "{}: {}{} is missing; it must be {}", spot)
        }
        FileRefusal::Kind(spot) | FileRefusal::Range(spot) => {
            of_key(alloc, called, "{}: {}{} must be {}", spot)
        }
        FileRefusal::Unknown(table, index) => {
            no_key(alloc, called, octets, TablePlace { table, index })
        }
        FileRefusal::Name(spot) => no_name(alloc, called, octets, spot),
        FileRefusal::OutOfMemory => None,
    }
}

/// Where a file stops being UTF-8.
fn no_text(alloc: Global, called: Called<'_>, place: NotText) -> Option<String> {
    filled(
        alloc,
        "{}: octet {}, in line {}, is not UTF-8",
        &[
            Text(called.first_path()),
            Count(place.octet),
            Count(place.line),
        ],
    )
}

/// Why the network of a call is refused.
pub(crate) fn refused_network<A: Source>(
    alloc: Global,
    called: Called<'_>,
    first: &mut A,
) -> Option<String> {
    let octets = read_all(alloc, first, FILE_LIMIT).ok()?;
    let octets = octets.as_slice();
    if let Some(place) = not_text(octets) {
        return no_text(alloc, called, place);
    }
    match read_network(alloc, octets) {
        Ok(_) if called.tells_rules() => None,
        Ok(network) => no_rule(alloc, called, network),
        Err(refusal) => no_network(alloc, called, octets, refusal),
    }
}
