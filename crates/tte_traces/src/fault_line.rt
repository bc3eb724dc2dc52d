ghost use Rattle.std.specs.Prelude.{◌≡◌, ◌≤◌, length};
ghost use Rattle.tte_traces.specs.FaultLine.{line_reason, outside_line, trace_refusal_line};

use run_law::Outside;
use trace_text::LineRefusal;
use tte_io::LineText;

/// Why a line of a trace has no event, in a word.
pub(crate) fn line_reason(refusal: LineRefusal) -> &'static str
    ensures text { result.now ≡ line_reason refusal }
    ensures short { length result.now ≤ 6 }
{
    match refusal {
        LineRefusal::Form => "form",
        LineRefusal::Name => "name",
        LineRefusal::Number => "number",
        LineRefusal::Hex => "hex",
        LineRefusal::Octets => "length",
    }
}

/// Makes the line of a trace that is refused at a line for this reason, which is a word.
pub(crate) fn make_trace_refusal_line(line: &mut LineText, number: u64, reason: &str)
    requires { length reason.now ≤ 7 }
    ensures { line.new ≡ trace_refusal_line number reason.now }
{
    line.clear();
    line.push("refused line ");
    line.push_decimal(number);
    line.push(" ");
    line.push(reason);
    line.push("\n");
}

/// Makes the line of an event that is outside the fault hypothesis.
pub(crate) fn make_outside_line(line: &mut LineText, number: u64, outside: Outside)
    ensures { line.new ≡ outside_line number outside }
{
    line.clear();
    line.push("outside line ");
    line.push_decimal(number);
    line.push(" condition ");
    line.push_decimal(outside.number().into());
    line.push("\n");
}
