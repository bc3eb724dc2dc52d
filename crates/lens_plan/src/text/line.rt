//! The lines of a plan.
ghost use Rattle.std.specs.Prelude.{◌++◌, ◌+◌, ◌≡◌, ◌≤◌, codes, length};
ghost use Rattle.net_file.specs.KeyTexts.{key_text};
ghost use Rattle.lens_plan.specs.text.Lines.{head_text, number_text, plan_line, quoted_text};
ghost use Rattle.tte_forms.specs.networks.NetworkLine.{table_text};

use net_file::{KeyName, TableName};
use net_plan::{Name, Way};
use trace_text::way_text;
use tte_io::LineText;

/// A line of the blocks of virtual links and rows.
#[derive(Clone, Copy)]
pub enum PlanLine {
    /// The empty line before a block.
    Empty,
    /// The head of a block of the table.
    Head(TableName),
    /// A key and a name.
    Name(KeyName, Name),
    /// A key and a number.
    Number(KeyName, u64),
    /// The way of a row.
    Way(Way),
}

/// The name of a table with blocks.
fn table_word(table: TableName) -> &'static str
    ensures text { result.now ≡ table_text table }
    ensures short { length result.now ≤ 6 }
{
    match table {
        TableName::Top => "top",
        TableName::Device => "device",
        TableName::Link => "link",
        TableName::Vl => "vl",
        TableName::Row => "row",
    }
}

/// Adds the head of a block.
fn push_head(line: &mut LineText, table: TableName)
    requires { length line.old + 20 ≤ 4096 }
    ensures text { line.new ≡ line.old ++ head_text table }
{
    line.push("[[");
    line.push(table_word(table));
    line.push("]]\n");
}

/// Adds a key, and what stands behind each.
#[tactic(auto, using(tte_forms::proofs::networks::KeyLengths::key_short))]
fn push_key(line: &mut LineText, key: KeyName)
    requires { length line.old + 30 ≤ 4096 }
    ensures text { line.new ≡ line.old ++ key_text key ++ codes " = " }
    ensures grows { length line.new ≤ length line.old + 18 }
{
    line.push(key.text());
    line.push(" = ");
}

/// Adds a text in quotes.
fn push_quoted(line: &mut LineText, text: &[u8])
    requires room { length line.old + 30 ≤ 4096 }
    requires short { length text.now ≤ 16 }
    ensures { line.new ≡ line.old ++ codes "\"" ++ text.now ++ codes "\"\n" }
{
    line.push("\"");
    line.append(text);
    line.push("\"\n");
}

/// Adds a key and a text in quotes.
fn push_name(line: &mut LineText, key: KeyName, text: &[u8])
    requires room { length line.old + 60 ≤ 4096 }
    requires short { length text.now ≤ 16 }
    ensures { line.new ≡ line.old ++ quoted_text key text.now }
{
    push_key(line, key);
    push_quoted(line, text);
}

/// Adds a key and a number.
fn push_number(line: &mut LineText, key: KeyName, number: u64)
    requires { length line.old + 60 ≤ 4096 }
    ensures { line.new ≡ line.old ++ number_text key number }
{
    push_key(line, key);
    line.push_decimal(number);
    line.push("\n");
}

/// Makes the line.
pub(crate) fn make_plan_line(line: &mut LineText, of: PlanLine)
    ensures { line.new ≡ plan_line of }
{
    line.clear();
    match of {
        PlanLine::Empty => line.push("\n"),
        PlanLine::Head(table) => push_head(line, table),
        PlanLine::Name(key, name) => push_name(line, key, name.as_slice()),
        PlanLine::Number(key, number) => push_number(line, key, number),
        PlanLine::Way(way) => push_name(line, KeyName::Way, way_text(way).as_bytes()),
    }
}
