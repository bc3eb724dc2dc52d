ghost use Rattle.std.specs.{List.All, Prelude.{◌<◌, ◌^◌, ◌≡◌, IfOk, [], length}};
ghost use Rattle.net_plan.specs.{Bearers.{link_names, vl_names}, Ranges.IsRowInRange, declared.network.Network.Network};
ghost use Rattle.toml.specs.View.{items_view, view};
ghost use Rattle.net_file.specs.{Numbering.{IsBelow, first_of, numbering}, Schema.{each, row_of}, Steps.Gives};

use crate::index::next_index;
use crate::names::Names;
use crate::reader::Reader;
use crate::spots::TableSpot;
use crate::values::LONGEST;
use crate::{FileRefusal, KeyName, TableName};
use net_plan::{Link, LinkId, Row, VirtualLink, VlId};
use std::alloc::Global;
use toml::Value;

const KEYS: [KeyName; 4] = [KeyName::Vl, KeyName::Link, KeyName::Way, KeyName::Offset];

#[tactic(auto, unfolding(crate::specs::Schema::row_of))]
fn read_row(
    vls: &Names<'_>,
    links: &Names<'_>,
    index: u32,
    table: &Value,
) -> Result<Row, FileRefusal>
    ensures in_range { (network : Network) → IsBelow (length network.vl) (numbering vls.now.numbers)
        → IsBelow (length network.link) (numbering links.now.numbers) → IfOk result (IsRowInRange network) }
    ensures value { result ≡ row_of (numbering vls.now.numbers) (numbering links.now.numbers) index (view table.now) }
{
    let table = Reader {
        place: TableSpot {
            table: TableName::Row,
            index,
        },
        table,
    };
    let vl = table.named(vls, KeyName::Vl)?;
    let link = table.named(links, KeyName::Link)?;
    let way = table.way(KeyName::Way)?;
    let offset = table.time(0, LONGEST, KeyName::Offset)?;
    table.nothing_else(&KEYS)?;
    Ok(Row {
        vl: VlId(vl),
        link: LinkId(link),
        way,
        offset,
    })
}

fn read_numbered(
    alloc: Global,
    vls: &Names<'_>,
    links: &Names<'_>,
    tables: &[Value],
) -> Result<Vec<Row>, FileRefusal>
    ensures value { Gives (λ v. v.items)
        (each (row_of (numbering vls.now.numbers) (numbering links.now.numbers)) [] (items_view tables.now)) result }
    ensures in_range { (network : Network) → IsBelow (length network.vl) (numbering vls.now.numbers)
        → IsBelow (length network.link) (numbering links.now.numbers)
        → IfOk result (λ v. All (IsRowInRange network) v.items) }
    ensures few { IfOk result (λ v. length v.items < 2 ^ 32) }
{
    let mut rows = Vec::new(alloc);
    'tables: for table in tables {
        let index = match next_index(rows.len()) {
            Ok(index) => index,
            Err(refusal) => return Err(refusal),
        };
        let row = match read_row(vls, links, index, table) {
            Ok(row) => row,
            Err(refusal) => return Err(refusal),
        };
        if rows.push(row).is_err() {
            return Err(FileRefusal::OutOfMemory);
        }
    }
    Ok(rows)
}

/// The rows of these tables, which name virtual links and links.
pub(crate) fn read_rows(
    alloc: Global,
    vls: &[VirtualLink],
    links: &[Link],
    tables: &[Value],
) -> Result<Vec<Row>, FileRefusal>
    ensures value { Gives (λ v. v.items)
        (each (row_of (first_of (vl_names vls.now)) (first_of (link_names links.now))) [] (items_view tables.now))
        result }
    ensures in_range { (network : Network) → length network.vl ≡ length vls.now → length network.link ≡ length links.now
        → IfOk result (λ v. All (IsRowInRange network) v.items) }
    ensures few { IfOk result (λ v. length v.items < 2 ^ 32) }
{
    let vls = match Names::of_vls(alloc, vls) {
        Ok(names) => names,
        Err(refusal) => return Err(refusal),
    };
    let links = match Names::of_links(alloc, links) {
        Ok(names) => names,
        Err(refusal) => return Err(refusal),
    };
    read_numbered(alloc, &vls, &links, tables)
}
