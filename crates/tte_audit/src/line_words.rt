ghost use Rattle.std.specs.{Fmt.signed_decimal, Prelude.{decimal, length, position, ℕ}};
ghost use Rattle.std.specs.Prelude.{◌<◌, ◌^◌, ◌∷◌, ◌≡◌, ◌≢◌, ◌≤◌, IfSome, MatchOption, None, Some, []};
ghost use Rattle.{hex.specs.Hex.encode_lower, report_text.specs.Ranges.{IsCount, IsShortCount, IsSignedUnits}};
ghost use Rattle.net_plan.specs.Belonging.{HasDevice, HasLink, HasVl, device_name, link_name, vl_name};
ghost use Rattle.net_plan.specs.{Ranges.IsInRange, declared.ids.VlId.{VlId as VlIdValue}};
ghost use Rattle.net_plan.specs.declared.ids.{DeviceId.{DeviceId as DeviceIdValue}, LinkId.{LinkId as LinkIdValue}};
ghost use Rattle.report_text.specs.NoteWords.{judgement_text, members_text, state_text, why_text};
ghost use Rattle.run_law.specs.declared.judgement.{Judgement.{Judgement as JudgementValue}, Why.{Why as WhyValue}};
ghost use Rattle.sync_state.specs.declared.state.State.{State as StateValue};
ghost use Rattle.{trace_text.specs.Steps.{is_space, words}, tte_units.specs.declared.units.Units.{Units as UnitsValue}};
ghost use Rattle.tte_audit.specs.Spellings.{behind_word, first_word, kind_text};
ghost use Rattle.tte_audit.specs.declared.kind.KindWord.{KindWord as KindValue};
ghost use Rattle.tte_units.specs.declared.frames.members.Members.{Members as MembersValue};

use crate::enums::{judgement, state, why};
use crate::hints::NameHints;
use crate::kind::{KindWord, kind_of_word};
use crate::names::{device_of_name, link_of_name, vl_of_name};
use crate::numbers::{exact_count, exact_digits, exact_members, exact_units, front_number};
use net_plan::{DeviceId, LinkId, Network, VlId};
use run_law::{Judgement, Why};
use std::marker::Model;
use sync_state::State;
use tte_units::Units;
use tte_units::frames::Members;

fn first_space(text: &[u8]) -> Option<usize>
    ensures place { result ≡ position is_space text.now }
    ensures within { IfSome result (λ place. place < length text.now) }
{
    text.iter().position(|octet| *octet == b' ')
}

/// What is left of the words of a line, which is read from the left, and where the names in it most likely stand.
///
/// Each reader takes the next word. It answers None exactly where the word is none of its own.
#[derive(Drop)]
pub(crate) struct LineWords<'a> {
    // It is None where the line has ended.
    left: Option<&'a [u8]>,
    hints: Option<&'a NameHints>,
}

impl<'a> Model for LineWords<'a> {
    ghost use Rattle.std.specs.Prelude.{ℕ, List};
    ghost use Rattle.trace_text.specs.WordsLeft.{words_left};

    ghost Value = { List (List ℕ) };

    ghost view = { λ w. words_left w.left };
}

impl<'a> LineWords<'a> {
    /// The words of a line.
    pub(crate) fn of(line: &'a [u8], hints: Option<&'a NameHints>) -> LineWords<'a>
        ensures { result ≡ words line.now }
    {
        LineWords {
            left: Some(line),
            hints,
        }
    }

    /// The next word. It is None where the line has ended.
    pub(crate) fn next(&mut self) -> Option<&'a [u8]>
        ensures { MatchOption result ((self.old ≡ []) × (self.new ≡ [])) (λ word. self.old ≡ word.now ∷ self.new) }
    {
        let left = self.left?;
        match first_space(left) {
            Some(place) => {
                self.left = Some(&left[place + 1..]);
                Some(&left[..place])
            }
            None => {
                self.left = None;
                Some(left)
            }
        }
    }

    /// What is left, as it stands in the line. It is None where the line has ended.
    pub(crate) fn rest(&self) -> Option<&'a [u8]>
        ensures { MatchOption result (self.now ≡ []) (λ text. self.now ≡ words text.now) }
    {
        self.left
    }

    /// This word.
    pub(crate) fn fixed(&mut self, text: &str) -> Option<()>
        ensures is { first_word self.old ≡ Some text.now → result ≢ None }
        ensures rest { self.new ≡ behind_word self.old }
        ensures text { IfSome result (λ _. self.old ≡ text.now ∷ self.new) }
    {
        let word = self.next()?;
        if word == text.as_bytes() {
            Some(())
        } else {
            None
        }
    }

    /// No word: the line has ended.
    pub(crate) fn end(&mut self) -> Option<()>
        ensures is { self.old ≡ [] → result ≢ None }
        ensures text { IfSome result (λ _. self.old ≡ []) }
    {
        match self.next() {
            Some(_) => None,
            None => Some(()),
        }
    }

    /// The word of a kind of record.
    pub(crate) fn kind(&mut self) -> Option<KindWord>
        ensures is { (k : KindValue) → first_word self.old ≡ Some (kind_text k) → result ≢ None }
        ensures rest { self.new ≡ behind_word self.old }
        ensures text { IfSome result (λ k. self.old ≡ kind_text k ∷ self.new) }
    {
        let word = self.next()?;
        kind_of_word(word)
    }

    /// The word of a state.
    pub(crate) fn state(&mut self) -> Option<State>
        ensures is { (x : StateValue) → first_word self.old ≡ Some (state_text x) → result ≢ None }
        ensures rest { self.new ≡ behind_word self.old }
        ensures text { IfSome result (λ x. self.old ≡ state_text x ∷ self.new) }
    {
        let word = self.next()?;
        state(word)
    }

    /// The word of a judgement.
    pub(crate) fn judgement(&mut self) -> Option<Judgement>
        ensures is { (x : JudgementValue) → first_word self.old ≡ Some (judgement_text x) → result ≢ None }
        ensures rest { self.new ≡ behind_word self.old }
        ensures text { IfSome result (λ x. self.old ≡ judgement_text x ∷ self.new) }
    {
        let word = self.next()?;
        judgement(word)
    }

    /// The word of the reason of a change of state.
    pub(crate) fn why(&mut self) -> Option<Why>
        ensures is { (x : WhyValue) → first_word self.old ≡ Some (why_text x) → result ≢ None }
        ensures rest { self.new ≡ behind_word self.old }
        ensures text { IfSome result (λ x. self.old ≡ why_text x ∷ self.new) }
    {
        let word = self.next()?;
        why(word)
    }

    /// A set of masters.
    pub(crate) fn members(&mut self) -> Option<Members>
        ensures is { (m : MembersValue) → IsShortCount m.0 → first_word self.old ≡ Some (members_text m)
            → result ≢ None }
        ensures rest { self.new ≡ behind_word self.old }
        ensures range { IfSome result (λ m. IsShortCount m.0) }
        ensures text { IfSome result (λ m. self.old ≡ members_text m ∷ self.new) }
    {
        let word = self.next()?;
        exact_members(word)
    }

    /// The name of a device.
    #[inline(always)]
    pub(crate) fn device(&mut self, network: &Network) -> Option<DeviceId>
        requires { IsInRange network.now }
        ensures is { (d : DeviceIdValue) → HasDevice network.now d
            → first_word self.old ≡ Some (device_name network.now d) → result ≢ None }
        ensures rest { self.new ≡ behind_word self.old }
        ensures of_network { IfSome result (HasDevice network.now) }
        ensures text { IfSome result (λ d. self.old ≡ device_name network.now d ∷ self.new) }
    {
        let word = self.next()?;
        let likely = match self.hints {
            Some(hints) => hints.device(word),
            None => 0,
        };
        device_of_name(network, likely, word)
    }

    /// The name of a link.
    #[inline(always)]
    pub(crate) fn link(&mut self, network: &Network) -> Option<LinkId>
        requires { IsInRange network.now }
        ensures is { (l : LinkIdValue) → HasLink network.now l
            → first_word self.old ≡ Some (link_name network.now l) → result ≢ None }
        ensures rest { self.new ≡ behind_word self.old }
        ensures of_network { IfSome result (HasLink network.now) }
        ensures text { IfSome result (λ l. self.old ≡ link_name network.now l ∷ self.new) }
    {
        let word = self.next()?;
        let likely = match self.hints {
            Some(hints) => hints.link(word),
            None => 0,
        };
        link_of_name(network, likely, word)
    }

    /// The name of a virtual link.
    pub(crate) fn vl(&mut self, network: &Network) -> Option<VlId>
        requires { IsInRange network.now }
        ensures is { (v : VlIdValue) → HasVl network.now v
            → first_word self.old ≡ Some (vl_name network.now v) → result ≢ None }
        ensures rest { self.new ≡ behind_word self.old }
        ensures of_network { IfSome result (HasVl network.now) }
        ensures text { IfSome result (λ v. self.old ≡ vl_name network.now v ∷ self.new) }
    {
        let word = self.next()?;
        let likely = match self.hints {
            Some(hints) => hints.vl(word),
            None => 0,
        };
        vl_of_name(network, likely, word)
    }

    // A number of at most 19 digits, if it is at most `most`. Where there is none, no word is taken.
    fn quick_number(&mut self, most: u64) -> Option<u64>
        ensures { MatchOption result (self.new ≡ self.old) (λ n. (n ≤ most) × (self.old ≡ decimal n ∷ self.new)) }
    {
        let left = self.left?;
        let front = front_number(left, most)?;
        if front.rest.is_empty() {
            self.left = None;
            return Some(front.number);
        }
        let (space, behind) = front.rest.split_at(1);
        if space[0] != b' ' {
            return None;
        }
        self.left = Some(behind);
        Some(front.number)
    }

    /// A number of 64 bits.
    pub(crate) fn count(&mut self) -> Option<u64>
        ensures is { (n : ℕ) → IsCount n → first_word self.old ≡ Some (decimal n) → result ≢ None }
        ensures rest { self.new ≡ behind_word self.old }
        ensures range { IfSome result IsCount }
        ensures text { IfSome result (λ n. self.old ≡ decimal n ∷ self.new) }
    {
        match self.quick_number(u64::MAX) {
            Some(number) => Some(number),
            None => self.other_count(),
        }
    }

    #[inline(never)]
    fn other_count(&mut self) -> Option<u64>
        ensures is { (n : ℕ) → IsCount n → first_word self.old ≡ Some (decimal n) → result ≢ None }
        ensures rest { self.new ≡ behind_word self.old }
        ensures range { IfSome result IsCount }
        ensures text { IfSome result (λ n. self.old ≡ decimal n ∷ self.new) }
    {
        let word = self.next()?;
        exact_count(word)
    }

    /// A number of 32 bits.
    pub(crate) fn short(&mut self) -> Option<u32>
        ensures is { (n : ℕ) → IsShortCount n → first_word self.old ≡ Some (decimal n) → result ≢ None }
        ensures rest { self.new ≡ behind_word self.old }
        ensures range { IfSome result IsShortCount }
        ensures text { IfSome result (λ n. self.old ≡ decimal n ∷ self.new) }
    {
        let number = self.count()?;
        if number > u64::from(u32::MAX) {
            return None;
        }
        Some(number as u32)
    }

    /// A number of 8 bits.
    pub(crate) fn octet(&mut self) -> Option<u8>
        ensures is { (n : ℕ) → n < 2 ^ 8 → first_word self.old ≡ Some (decimal n) → result ≢ None }
        ensures rest { self.new ≡ behind_word self.old }
        ensures range { IfSome result (λ n. n < 2 ^ 8) }
        ensures text { IfSome result (λ n. self.old ≡ decimal n ∷ self.new) }
    {
        let number = self.count()?;
        if number > u64::from(u8::MAX) {
            return None;
        }
        Some(number as u8)
    }

    /// An octet of two digits.
    pub(crate) fn digits(&mut self) -> Option<u8>
        ensures is { (n : ℕ) → n < 2 ^ 8 → first_word self.old ≡ Some (encode_lower (n ∷ [])) → result ≢ None }
        ensures rest { self.new ≡ behind_word self.old }
        ensures range { IfSome result (λ n. n < 2 ^ 8) }
        ensures text { IfSome result (λ n. self.old ≡ encode_lower (n ∷ []) ∷ self.new) }
    {
        let word = self.next()?;
        exact_digits(word)
    }

    /// A number of units.
    pub(crate) fn units(&mut self) -> Option<Units>
        ensures is { (u : UnitsValue) → IsSignedUnits u → first_word self.old ≡ Some (signed_decimal u.0)
            → result ≢ None }
        ensures rest { self.new ≡ behind_word self.old }
        ensures range { IfSome result IsSignedUnits }
        ensures text { IfSome result (λ u. self.old ≡ signed_decimal u.0 ∷ self.new) }
    {
        match self.quick_number(i64::MAX as u64) {
            Some(number) => Some(Units(number as i64)),
            None => self.other_units(),
        }
    }

    #[inline(never)]
    fn other_units(&mut self) -> Option<Units>
        ensures is { (u : UnitsValue) → IsSignedUnits u → first_word self.old ≡ Some (signed_decimal u.0)
            → result ≢ None }
        ensures rest { self.new ≡ behind_word self.old }
        ensures range { IfSome result IsSignedUnits }
        ensures text { IfSome result (λ u. self.old ≡ signed_decimal u.0 ∷ self.new) }
    {
        let word = self.next()?;
        exact_units(word)
    }
}
