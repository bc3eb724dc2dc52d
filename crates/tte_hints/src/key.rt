use crate::saying::Hole::{Count, Text};
use crate::saying::filled;
use net_file::{KeyName, Spot, TableName};
use std::alloc::Global;
use toml::Value;

/// A key that a table may have, and what its value must be.
type Key = (KeyName, &'static str);

const A_NAME: &str = "a text of 1 to 16 lower-case letters, digits or _";

const OF_DEVICE: &str = "the name of a device";

const FROM_ZERO: &str =
    "a whole number of units of 2^-16 ns (65536000 to the microsecond) from 0 to 2^40";

const FROM_ONE: &str =
    "a whole number of units of 2^-16 ns (65536000 to the microsecond) from 1 to 2^40";

const UP_TO_31: &str = "a whole number up to 31, of sync_threshold at least 1";

const UP_TO_255: &str = "a whole number from 0 to 255";

const ADDRESS: &str = "a text of 12 hexadecimal digits, as \"020000000011\"";

const TABLES: &str = "an array of tables";

/// The keys of a device, whatever its role.
const DEVICE: &[Key] = &[
    (KeyName::Name, A_NAME),
    (KeyName::Role, "\"master\", \"client\", \"cm\" or \"relay\""),
    (KeyName::Mac, ADDRESS),
    (KeyName::Member, UP_TO_31),
    (KeyName::Channel, "\"a\" or \"b\""),
    (KeyName::Start, FROM_ZERO),
];

/// The keys of a link.
const LINK: &[Key] = &[
    (KeyName::Name, A_NAME),
    (KeyName::Child, OF_DEVICE),
    (KeyName::Parent, OF_DEVICE),
    (KeyName::Wire, FROM_ONE),
    (KeyName::Jitter, FROM_ZERO),
    (KeyName::Hold, FROM_ZERO),
    (KeyName::Speed, "100 or 1000, in Mbit/s"),
];

/// The keys of a virtual link.
const VL: &[Key] = &[
    (KeyName::Name, A_NAME),
    (KeyName::Id, "a whole number from 0 to 65535"),
    (KeyName::Length, "a whole number from 60 to 1514 octets"),
    (
        KeyName::Ethertype,
        "a whole number from 1536 to 65535, other than 35101",
    ),
    (KeyName::Sender, OF_DEVICE),
    (KeyName::Period, "a whole number from 1 to 64 cycles"),
    (KeyName::Phase, "a whole number from 0 to 63"),
];

/// The keys of a row.
const ROW: &[Key] = &[
    (KeyName::Vl, "the name of a virtual link"),
    (KeyName::Link, "the name of a link"),
    (KeyName::Way, "\"up\" or \"down\""),
    (KeyName::Offset, FROM_ZERO),
];

/// The keys of the whole document.
const TOP: &[Key] = &[
    (KeyName::Version, "1 or 2"),
    (
        KeyName::Cycle,
        "a whole number of units of 2^-16 ns from 2^32 to 2^40 (some 66 us to 16.8 ms)",
    ),
    (
        KeyName::Rho,
        "a whole number from 0 to 1000000 parts per 10^9 (1000 to the ppm)",
    ),
    (
        KeyName::Grain,
        "a whole number of units of 2^-16 ns from 1 to 1048576",
    ),
    (KeyName::Dmax, FROM_ONE),
    (KeyName::Calc, FROM_ONE),
    (KeyName::Settled, FROM_ZERO),
    (KeyName::Precision, FROM_ONE),
    (KeyName::Correction, FROM_ZERO),
    (KeyName::TtStart, FROM_ZERO),
    (KeyName::SyncThreshold, UP_TO_31),
    (KeyName::Priority, UP_TO_255),
    (KeyName::Domain, UP_TO_255),
    (KeyName::PcfDestination, ADDRESS),
    (
        KeyName::Marker,
        "a text of 8 hexadecimal digits, as \"03040506\"",
    ),
    (KeyName::Device, TABLES),
    (KeyName::Link, TABLES),
    (KeyName::Vl, TABLES),
    (KeyName::Row, TABLES),
];

/// The keys that such a table may have.
fn keys_of(table: TableName) -> &'static [Key] {
    match table {
        TableName::Top => TOP,
        TableName::Device => DEVICE,
        TableName::Link => LINK,
        TableName::Vl => VL,
        TableName::Row => ROW,
    }
}

/// What the value of a key must be.
pub(crate) fn must_be(spot: Spot) -> &'static str {
    for (key, value) in keys_of(spot.table) {
        if *key == spot.key {
            return value;
        }
    }
    ""
}

/// The array of the document that such tables stand in. None for the document itself.
fn array_of(table: TableName) -> Option<&'static str> {
    let array = match table {
        TableName::Top => return None,
        TableName::Device => KeyName::Device,
        TableName::Link => KeyName::Link,
        TableName::Vl => KeyName::Vl,
        TableName::Row => KeyName::Row,
    };
    Some(array.text())
}

/// A table of a document.
#[derive(Clone, Copy)]
pub(crate) struct TablePlace {
    pub(crate) table: TableName,
    /// Its place in its array, from 0.
    pub(crate) index: u32,
}

impl TablePlace {
    /// The table of the document that stands here.
    fn of(self, document: &Value) -> Option<&Value> {
        match array_of(self.table) {
            Some(array) => document.get(array)?.get(self.index as usize),
            None => Some(document),
        }
    }

    /// What stands before what is told of the table.
    pub(crate) fn text(self, alloc: Global) -> Option<String> {
        match array_of(self.table) {
            Some(array) => filled(alloc, "{} {}: ", &[Text(array), Count(self.index.into())]),
            None => Some(String::new(alloc)),
        }
    }
}

/// Whether one of the keys is written so.
fn is_among(keys: &[Key], text: &str) -> bool {
    for (key, _) in keys {
        if key.text() == text {
            return true;
        }
    }
    false
}

/// The first key of a table of a document that no such table has.
pub(crate) fn unknown_key(document: &Value, place: TablePlace) -> Option<&str> {
    let known = keys_of(place.table);
    for key in place.of(document)?.as_table()?.keys() {
        if !is_among(known, key.as_str()) {
            return Some(key.as_str());
        }
    }
    None
}

/// The table of a key.
pub(crate) fn place_of(spot: Spot) -> TablePlace {
    TablePlace {
        table: spot.table,
        index: spot.index,
    }
}

/// The text that stands at a key of a document.
pub(crate) fn text_at(document: &Value, spot: Spot) -> Option<&str> {
    place_of(spot).of(document)?.get(spot.key.text())?.as_str()
}
