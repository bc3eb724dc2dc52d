ghost use Rattle.std.specs.Prelude.{◌≡◌, ◌+◌, ◌<◌, ◌^◌};
ghost use Rattle.fault_hypothesis.specs.storm.Words.{draw_from, state_at, word_at};

use crate::storm::draw::StormDraw;
use rand_core::utils::NextWord;
use rand_pcg::Lcg64Xsh32;

/// The words of a seed, one after another.
#[derive(Drop)]
pub struct Words {
    pub(crate) seed: u64,
    pub(crate) drawn: u64,
    from: Lcg64Xsh32,
    ghost along: { from ≡ state_at seed drawn },
}

impl Words {
    /// The words of the seed from the first on.
    pub fn new(seed: u64) -> Words
        ensures seed { result.seed ≡ seed }
        ensures none { result.drawn ≡ 0 }
    {
        Words {
            seed,
            drawn: 0,
            from: Lcg64Xsh32::new(seed, 0),
        }
    }

    fn word(&mut self) -> u32
        requires { self.old.drawn < 2 ^ 63 }
        ensures word { result ≡ word_at self.old.seed self.old.drawn }
        ensures drawn { self.new.drawn ≡ self.old.drawn + 1 }
        ensures seed { self.new.seed ≡ self.old.seed }
    {
        self.drawn += 1;
        self.from.next_word()
    }

    /// The next three words. Fewer than 2^62 were drawn.
    pub fn draw(&mut self) -> StormDraw
        requires { self.old.drawn < 2 ^ 62 }
        ensures words { result ≡ draw_from self.old.seed self.old.drawn }
        ensures drawn { self.new.drawn ≡ self.old.drawn + 3 }
        ensures seed { self.new.seed ≡ self.old.seed }
    {
        let kind = self.word();
        let place = self.word();
        let size = self.word();
        StormDraw { kind, place, size }
    }
}
