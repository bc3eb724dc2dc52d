ghost use Rattle.std.specs.{Fmt.signed_decimal, Prelude.{◌++◌, ◌+◌, ◌≡◌, ◌≤◌, length, pos}};
ghost use Rattle.tte_io.specs.Line.{line_limit};

use crate::fields::push_units;
use std::marker::Model;
use tte_io::LineText;
use tte_units::Units;

// The most octets of a time.
const ROOM: usize = 21;

/// A time with its text, which is kept: most records stand at the time of the record before.
#[derive(Drop)]
pub struct TimeText {
    time: Units,
    text: [u8; ROOM],
    len: usize,
}

impl Model for TimeText {
    ghost use Rattle.std.specs.{Fmt.signed_decimal, Prelude.{◌≡◌, ◌≤◌, take}};
    ghost use Rattle.tte_units.specs.declared.units.Units.{Units};

    ghost Value = { Units };

    ghost view = { λ t. t.time };

    ghost invariant = { λ t. (take t.len t.text ≡ signed_decimal t.time.0) × (t.len ≤ 21) };
}

impl TimeText {
    /// That of time 0.
    pub fn new() -> TimeText
        ensures { result.0 ≡ pos 0 }
    {
        let mut text = [0; ROOM];
        text[0] = b'0';
        TimeText {
            time: Units(0),
            text,
            len: 1,
        }
    }

    // Adds a time, of which the text is made anew where it is another than the last: at most 21 octets.
    pub(crate) fn push_in(&mut self, line: &mut LineText, time: Units)
        requires { length line.old + 21 ≤ line_limit }
        ensures time { self.new ≡ time }
        ensures text { line.new ≡ line.old ++ signed_decimal time.0 }
        ensures grows { length line.new ≤ length line.old + 21 }
    {
        if self.time == time {
            line.append_padded(&self.text, self.len);
        } else {
            self.spell_in(line, time);
        }
    }

    // Adds a time, of which the text is made anew.
    #[inline(never)]
    fn spell_in(&mut self, line: &mut LineText, time: Units)
        requires { length line.old + 21 ≤ line_limit }
        ensures time { self.new ≡ time }
        ensures text { line.new ≡ line.old ++ signed_decimal time.0 }
        ensures grows { length line.new ≤ length line.old + 21 }
    {
        let from = line.as_slice().len();
        push_units(line, time);
        let (_, spelled) = line.as_slice().split_at(from);
        self.text[..spelled.len()].copy_from_slice(spelled);
        self.len = spelled.len();
        self.time = time;
    }
}
