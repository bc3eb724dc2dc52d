ghost use Rattle.std.specs.Prelude.{◌++◌, ◌+◌, ◌≡◌, ◌≤◌, decimal, length};
ghost use Rattle.tte_io.specs.Line.{line_limit};

use std::marker::Model;
use tte_io::LineText;

// The most digits of a number.
const ROOM: usize = 20;

/// A number with its text, which is kept: most records have the number behind that of the record before.
#[derive(Drop)]
pub struct NumberText {
    number: u64,
    text: [u8; ROOM],
    len: usize,
}

impl Model for NumberText {
    ghost use Rattle.std.specs.Prelude.{ℕ, ◌≡◌, ◌≤◌, decimal, take};

    ghost Value = { ℕ };

    ghost view = { λ t. t.number };

    ghost invariant = { λ t. (take t.len t.text ≡ decimal t.number) × (1 ≤ t.len) × (t.len ≤ 20) };
}

impl NumberText {
    /// That of 0.
    pub fn new() -> NumberText
        ensures { result ≡ 0 }
    {
        let mut text = [0; ROOM];
        text[0] = b'0';
        NumberText {
            number: 0,
            text,
            len: 1,
        }
    }

    // Adds a number, of which the text is made anew where it is not the next one, or where more than its last digit is
    // another: at most 20 octets.
    pub(crate) fn push_in(&mut self, line: &mut LineText, number: u64)
        requires { length line.old + 20 ≤ line_limit }
        ensures number { self.new ≡ number }
        ensures text { line.new ≡ line.old ++ decimal number }
        ensures grows { length line.new ≤ length line.old + 20 }
    {
        let last = self.len - 1;
        if number > self.number && number - self.number == 1 && self.text[last] != b'9' {
            self.text[last] += 1;
            self.number = number;
            line.append_padded(&self.text, self.len);
        } else {
            self.spell_in(line, number);
        }
    }

    // Adds a number, of which the text is made anew.
    #[inline(never)]
    fn spell_in(&mut self, line: &mut LineText, number: u64)
        requires { length line.old + 20 ≤ line_limit }
        ensures number { self.new ≡ number }
        ensures text { line.new ≡ line.old ++ decimal number }
        ensures grows { length line.new ≤ length line.old + 20 }
    {
        let from = line.as_slice().len();
        line.push_decimal(number);
        let (_, spelled) = line.as_slice().split_at(from);
        self.text[..spelled.len()].copy_from_slice(spelled);
        self.len = spelled.len();
        self.number = number;
    }
}
