ghost use Rattle.std.specs.Prelude.{◌++◌, ◌-◌, ◌<◌, ◌^◌, ◌↔◌, ◌∷◌, ◌≡◌, ◌≤◌, IfSome, IsNone, OnErr, OnOk, Some, []};
ghost use Rattle.std.specs.Prelude.{length, slice_get};

use std::alloc::Global;
use std::marker::Model;
use tte_io::OutOfMemory;

/// The words of the command line, without the program's name.
#[derive(Drop)]
pub struct Words {
    alloc: Global,
    words: Vec<String>,
}

impl Model for Words {
    ghost use Rattle.std.specs.Prelude.{ℕ, List, map, string_bytes, ◌<◌, ◌^◌, length};

    ghost Value = { List (List ℕ) };

    ghost view = { λ w. map string_bytes w.words.items };

    ghost invariant = { λ w. length w.words.items < 2 ^ 32 };
}

impl Words {
    /// No words.
    pub fn new(alloc: Global) -> Words
        ensures { result ≡ [] }
    {
        Words {
            alloc,
            words: Vec::new(alloc),
        }
    }

    /// Adds a word behind the others, of which there are fewer than 2^32 - 1. Where memory runs
    /// out, the words stay as they are.
    pub fn push(&mut self, word: &str) -> Result<(), OutOfMemory>
        requires { length self.old < 2 ^ 32 - 1 }
        ensures ok { OnOk result (self.new ≡ self.old ++ word.now ∷ []) }
        ensures err { OnErr result (self.new ≡ self.old) }
    {
        let text = String::from_str(self.alloc, word)?;
        match self.words.push(text) {
            Ok(()) => Ok(()),
            Err(_) => Err(OutOfMemory),
        }
    }

    /// How many words there are.
    pub fn len(&self) -> u32
        ensures { result ≡ length self.now }
    {
        self.words.len() as u32
    }

    /// The word at this place, counted from 0. It is None exactly where `i` is at least the length.
    pub fn get(&self, i: u32) -> Option<&str>
        ensures found { IsNone result ↔ (length self.now ≤ i) }
        ensures word { IfSome result (λ word. slice_get self.now i ≡ Some word.now) }
    {
        match self.words.get(i as usize) {
            Some(text) => Some(text.as_str()),
            None => None,
        }
    }
}
