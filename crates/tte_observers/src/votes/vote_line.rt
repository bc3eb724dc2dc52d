ghost use Rattle.std.specs.Prelude.{◌≡◌, ◌≤◌, ◌+◌, ◌++◌, codes, length, IfSome, option_map};
ghost use Rattle.tte_observers.specs.votes.{VoteLines.{value_text, vote_line}, tmr.Vote.voted};

use crate::votes::tmr::Ballot;
use tte_io::LineText;

/// Adds the value that was voted: at most 3,000 digits.
fn push_value(line: &mut LineText, value: Option<&[u8]>)
    requires most { IfSome value (λ payload. length payload.now ≤ 1500) }
    requires room { length line.old ≤ 1000 }
    ensures text { line.new ≡ line.old ++ value_text (option_map (λ payload. payload.now) value.entry) }
    ensures grows { length line.new ≤ length line.old + 3000 }
{
    match value {
        Some(payload) => line.push_hex(payload),
        None => line.push("none"),
    }
}

/// Makes the line of a vote in the cycle, at the device of this name, which has at most 16 octets.
pub(crate) fn make_vote_line(line: &mut LineText, cycle: u32, name: &[u8], value: Option<&[u8]>)
    requires name { length name.now ≤ 16 }
    requires most { IfSome value (λ payload. length payload.now ≤ 1500) }
    ensures { line.new ≡ vote_line cycle name.now (option_map (λ payload. payload.now) value.entry) }
{
    line.clear();
    line.push("vote ");
    line.push_decimal(u64::from(cycle));
    line.push(" ");
    line.append(name);
    line.push(" ");
    push_value(line, value);
    line.push("\n");
}

/// The value that was voted.
pub(crate) fn voted(ballot: &Ballot) -> Option<&[u8]>
    ensures value { option_map (λ payload. payload.now) result ≡ voted ballot.now }
    ensures most { IfSome result (λ payload. length payload.now ≤ 1500) }
{
    match ballot.result() {
        Some(seat) => ballot.payload(seat),
        None => None,
    }
}
