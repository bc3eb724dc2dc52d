ghost use Rattle.std.specs.Prelude.{◌<◌, ◌∷◌, ◌≡◌, IfSome, MatchOption, [], length, position};
ghost use Rattle.lens_plan.specs.messages.Lines.{is_lf, lines_of};

use memchr::memchr;
use std::marker::Model;

/// The first LF.
fn first_lf(text: &[u8]) -> Option<usize>
    ensures place { result ≡ position is_lf text.now }
    ensures within { IfSome result (λ place. place < length text.now) }
{
    memchr(b'\n', text)
}

/// The lines of a text, the parts between its LFs, to be taken from the first on.
#[derive(Drop)]
pub(crate) struct Lines<'a> {
    // It is None where the text has ended.
    left: Option<&'a [u8]>,
}

impl<'a> Model for Lines<'a> {
    ghost use Rattle.std.specs.Prelude.{List, ℕ};
    ghost use Rattle.lens_plan.specs.messages.Lines.{lines_left};

    ghost Value = { List (List ℕ) };

    ghost view = { λ l. lines_left l.left };
}

impl<'a> Lines<'a> {
    /// The lines of a text.
    pub(crate) fn of(text: &'a [u8]) -> Lines<'a>
        ensures { result ≡ lines_of text.now }
    {
        Lines { left: Some(text) }
    }

    /// The next line. It is None where the text has ended.
    pub(crate) fn next_line(&mut self) -> Option<&'a [u8]>
        ensures { MatchOption result ((self.old ≡ []) × (self.new ≡ [])) (λ line. self.old ≡ line.now ∷ self.new) }
    {
        let left = self.left?;
        match first_lf(left) {
            Some(place) => {
                self.left = Some(&left[place + 1..]);
                Some(&left[..place])
            }
            None => {
                self.left = None;
                Some(left)
            }
        }
    }
}
