ghost use Rattle.std.specs.Prelude.{◌∷◌, ◌↔◌, ◌≡◌, IsTrue, MatchResult, []};
ghost use Rattle.trace_text.specs.Steps.{words};
ghost use Rattle.lens_plan.specs.messages.Steps.{Reads, begins_with, behind_key, fixed};
ghost use Rattle.lens_plan.specs.declared.messages.refusal.MessageRefusal.TheVariants.{Form};

use crate::MessageRefusal;
use std::marker::Model;
use trace_text::Words;

/// The words of a line that are left, the next one at hand.
#[derive(Drop)]
pub(crate) struct MessageWords<'a> {
    // It is None where the line has ended.
    next: Option<&'a [u8]>,
    rest: Words<'a>,
}

impl<'a> Model for MessageWords<'a> {
    ghost use Rattle.std.specs.Prelude.{◌≡◌, IfNone, List, [], ℕ};
    ghost use Rattle.lens_plan.specs.messages.Steps.{words_from};

    ghost Value = { List (List ℕ) };

    ghost view = { λ l. words_from l.next l.rest };

    ghost invariant = { λ l. IfNone l.next (l.rest ≡ []) };
}

impl<'a> MessageWords<'a> {
    /// The words of a line.
    pub(crate) fn of(line: &'a [u8]) -> MessageWords<'a>
        ensures { result ≡ words line.now }
    {
        let mut rest = Words::of(line);
        let next = rest.next_word();
        MessageWords { next, rest }
    }

    /// Has the line ended?
    pub(crate) fn is_ended(&self) -> bool
        ensures { IsTrue result ↔ (self.now ≡ []) }
    {
        self.next.is_none()
    }

    /// The next word.
    pub(crate) fn word(&mut self) -> Result<&'a [u8], MessageRefusal>
        ensures { MatchResult result (λ word. self.old ≡ word.now ∷ self.new) (λ e. (self.old ≡ []) × (self.new ≡ [])
            × (e ≡ Form)) }
    {
        match self.next {
            Some(word) => {
                self.next = self.rest.next_word();
                Ok(word)
            }
            None => Err(MessageRefusal::Form),
        }
    }

    /// Takes the next word, if it is this one.
    pub(crate) fn takes(&mut self, key: &str) -> bool
        ensures value { result ≡ begins_with key.now self.old }
        ensures left { self.new ≡ behind_key key.now self.old }
    {
        match self.next {
            Some(word) => {
                if word != key.as_bytes() {
                    return false;
                }
                self.next = self.rest.next_word();
                true
            }
            None => false,
        }
    }

    /// Takes the next word, which must be this one.
    pub(crate) fn expect(&mut self, key: &str) -> Result<(), MessageRefusal>
        ensures { Reads (fixed key.now self.old) result self.new }
    {
        if self.takes(key) {
            Ok(())
        } else {
            Err(MessageRefusal::Form)
        }
    }
}
