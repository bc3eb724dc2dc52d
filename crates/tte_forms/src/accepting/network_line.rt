ghost use Rattle.std.specs.Prelude.{◌*◌, ◌++◌, ◌+◌, ◌<◌, ◌^◌, ◌≡◌, ◌≤◌, length};
ghost use Rattle.tte_forms.specs.networks.NetworkLine.{acceptance_line, file_reason, network_refusal_line, place_text};
ghost use Rattle.tte_forms.specs.networks.NetworkLine.{rule_reason, spot_text, table_text};

use net_file::{FileRefusal, Spot, TableName};
use schedule_checker::RuleBroken;
use tte_io::LineText;

fn table_word(table: TableName) -> &'static str
    ensures text { result.now ≡ table_text table }
    ensures short { length result.now ≤ 6 }
{
    match table {
        TableName::Top => "top",
        TableName::Device => "device",
        TableName::Link => "link",
        TableName::Vl => "vl",
        TableName::Row => "row",
    }
}

fn push_place(line: &mut LineText, table: TableName, index: u32)
    requires { length line.old + 30 ≤ 4096 }
    ensures text { line.new ≡ line.old ++ place_text table index }
    ensures grows { length line.new ≤ length line.old + 30 }
{
    line.push(table_word(table));
    line.push(" ");
    line.push_decimal(index.into());
}

#[tactic(auto, using(crate::proofs::networks::KeyLengths::key_short))]
fn push_spot(line: &mut LineText, spot: Spot)
    requires { length line.old + 50 ≤ 4096 }
    ensures text { line.new ≡ line.old ++ spot_text spot }
    ensures grows { length line.new ≤ length line.old + 50 }
{
    push_place(line, spot.table, spot.index);
    line.push(" ");
    line.push(spot.key.text());
}

fn push_file_reason(line: &mut LineText, refusal: FileRefusal)
    requires { length line.old + 60 ≤ 4096 }
    ensures text { line.new ≡ line.old ++ file_reason refusal }
    ensures grows { length line.new ≤ length line.old + 60 }
{
    match refusal {
        FileRefusal::NotToml => line.push("toml"),
        FileRefusal::Missing(spot) => {
            line.push("missing ");
            push_spot(line, spot);
        }
        FileRefusal::Kind(spot) => {
            line.push("kind ");
            push_spot(line, spot);
        }
        FileRefusal::Unknown(table, index) => {
            line.push("unknown ");
            push_place(line, table, index);
        }
        FileRefusal::Range(spot) => {
            line.push("range ");
            push_spot(line, spot);
        }
        FileRefusal::Name(spot) => {
            line.push("name ");
            push_spot(line, spot);
        }
        FileRefusal::OutOfMemory => (),
    }
}

fn push_rule_reason(line: &mut LineText, told: RuleBroken)
    requires { length line.old + 60 ≤ 4096 }
    ensures text { line.new ≡ line.old ++ rule_reason told }
    ensures grows { length line.new ≤ length line.old + 60 }
{
    line.push("rule ");
    line.push_decimal(told.number.into());
    line.push(" index ");
    line.push_decimal(told.index.into());
}

/// Makes the line of a text that is no network.
pub fn make_file_line(line: &mut LineText, refusal: FileRefusal)
    ensures { line.new ≡ network_refusal_line (file_reason refusal) }
{
    line.clear();
    line.push("refused network ");
    push_file_reason(line, refusal);
    line.push("\n");
}

/// Makes the line of a network that breaks a rule.
pub fn make_rule_line(line: &mut LineText, told: RuleBroken)
    ensures { line.new ≡ network_refusal_line (rule_reason told) }
{
    line.clear();
    line.push("refused network ");
    push_rule_reason(line, told);
    line.push("\n");
}

/// Makes the line of a network that is accepted.
pub fn make_acceptance_line(line: &mut LineText, beta: u64, gamma: u64)
    ensures { line.new ≡ acceptance_line beta gamma }
{
    line.clear();
    line.push("accepted beta ");
    line.push_decimal(beta);
    line.push(" gamma ");
    line.push_decimal(gamma);
    line.push("\n");
}
