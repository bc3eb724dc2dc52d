ghost use Rattle.std.specs.Prelude.{◌≡◌, ◌≤◌, length};
ghost use Rattle.tte_reports.specs.AuditLine.{audited_line, lack_line, record_refusal_line};

use tte_io::LineText;
use tte_units::Units;

/// Makes the line of a report of so many records that is not refused.
pub(crate) fn make_audited_line(line: &mut LineText, count: u64)
    ensures { line.new ≡ audited_line count }
{
    line.clear();
    line.push("audited records ");
    line.push_decimal(count);
    line.push("\n");
}

/// Makes the line of a report that is refused at the record of this number, for this reason, which is a word.
pub(crate) fn make_record_refusal_line(line: &mut LineText, number: u64, reason: &str)
    requires { length reason.now ≤ 9 }
    ensures { line.new ≡ record_refusal_line number reason.now }
{
    line.clear();
    line.push("refused record ");
    line.push_decimal(number);
    line.push(" ");
    line.push(reason);
    line.push("\n");
}

/// Makes the line of a report in which a record of this time is lacking.
pub(crate) fn make_lack_line(line: &mut LineText, time: Units)
    ensures { line.new ≡ lack_line time }
{
    line.clear();
    line.push("refused lacking ");
    line.push_decimal(time.0.unsigned_abs());
    line.push("\n");
}
