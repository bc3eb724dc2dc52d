ghost use Rattle.std.specs.{List.join_with_byte, Prelude.{◌++◌, ◌+◌, ◌≡◌, ◌≤◌, length}};
ghost use Rattle.report_text.specs.NoteWords.{judgement_text, reason_words, state_text, why_text};
ghost use Rattle.{trace_text.specs.Steps.space, tte_io.specs.Line.line_limit};

use run_law::{Judgement, Reason, Why};
use sync_state::State;
use tte_io::LineText;

/// The word of a state.
pub fn state_text(state: State) -> &'static str
    ensures text { result.now ≡ state_text state }
    ensures short { length result.now ≤ 12 }
{
    match state {
        State::Off => "off",
        State::Integrating => "integrating",
        State::Joining => "joining",
        State::Synchronised => "synchronised",
    }
}

/// The word for how a device judges a protocol control frame.
pub fn judgement_text(verdict: Judgement) -> &'static str
    ensures text { result.now ≡ judgement_text verdict }
    ensures short { length result.now ≤ 10 }
{
    match verdict {
        Judgement::Opened => "opened",
        Judgement::Joined => "joined",
        Judgement::Repeat => "repeat",
        Judgement::Within => "within",
        Judgement::Outside => "outside",
        Judgement::Integrates => "integrates",
        Judgement::Ignored => "ignored",
    }
}

/// The word for why a device changes its state.
pub fn why_text(why: Why) -> &'static str
    ensures text { result.now ≡ why_text why }
    ensures short { length result.now ≤ 12 }
{
    match why {
        Why::On => "on",
        Why::Frame => "frame",
        Why::Correction => "correction",
        Why::SyncClique => "sync_clique",
        Why::AsyncClique => "async_clique",
    }
}

// Adds why a frame is dropped, which takes at most 37 octets.
pub(crate) fn push_reason(line: &mut LineText, reason: Reason)
    requires { length line.old + 37 ≤ line_limit }
    ensures text { line.new ≡ line.old ++ join_with_byte space (reason_words reason) }
    ensures grows { length line.new ≤ length line.old + 37 }
{
    match reason {
        Reason::Off => line.push("off"),
        Reason::ColdStart => line.push("coldstart"),
        Reason::Domain => line.push("domain"),
        Reason::Member => line.push("member"),
        Reason::Old => line.push("old"),
        Reason::Gate => line.push("gate"),
        Reason::Cycle => line.push("cycle"),
        Reason::Unsynchronised => line.push("unsynchronised"),
        Reason::Unknown => line.push("unknown"),
        Reason::Length => line.push("length"),
        Reason::Early => line.push("early"),
        Reason::Late => line.push("late"),
        Reason::Repeat => line.push("repeat"),
        Reason::RefusedLength(length) => {
            line.push("refused length ");
            line.push_decimal(length.into());
        }
        Reason::RefusedEtherType => line.push("refused ethertype"),
        Reason::RefusedReserved(offset) => {
            line.push("refused reserved ");
            line.push_decimal(offset.into());
        }
        Reason::RefusedKind(octet) => {
            line.push("refused type ");
            line.push_hex(&[octet]);
        }
    }
}
