ghost use Rattle.std.specs.Prelude.{◌≡◌, ◌≤◌, length};
ghost use Rattle.trace_text.specs.EventWords.{event_word_text, event_word_spelled, way_text, way_spelled};

use net_plan::Way;

/// The word that says what befalls the network.
#[derive(Clone, Copy, PartialEq, Eq)]
pub(crate) enum EventWord {
    Rate,
    Wire,
    Hold,
    Cut,
    Heal,
    On,
    Break,
    Send,
    End,
}

impl EventWord {
    /// The word as it is written.
    pub(crate) fn text(self) -> &'static str
        ensures text { result.now ≡ event_word_text self }
        ensures short { length result.now ≤ 5 }
    {
        match self {
            EventWord::Rate => "rate",
            EventWord::Wire => "wire",
            EventWord::Hold => "hold",
            EventWord::Cut => "cut",
            EventWord::Heal => "heal",
            EventWord::On => "on",
            EventWord::Break => "break",
            EventWord::Send => "send",
            EventWord::End => "end",
        }
    }

    /// The word that is written so.
    #[tactic(auto, unfolding(crate::specs::EventWords::event_word_spelled))]
    pub(crate) fn spelled(text: &[u8]) -> Option<EventWord>
        ensures { result ≡ event_word_spelled text.now }
    {
        if EventWord::Rate.text().as_bytes() == text {
            Some(EventWord::Rate)
        } else if EventWord::Wire.text().as_bytes() == text {
            Some(EventWord::Wire)
        } else if EventWord::Hold.text().as_bytes() == text {
            Some(EventWord::Hold)
        } else if EventWord::Cut.text().as_bytes() == text {
            Some(EventWord::Cut)
        } else if EventWord::Heal.text().as_bytes() == text {
            Some(EventWord::Heal)
        } else if EventWord::On.text().as_bytes() == text {
            Some(EventWord::On)
        } else if EventWord::Break.text().as_bytes() == text {
            Some(EventWord::Break)
        } else if EventWord::Send.text().as_bytes() == text {
            Some(EventWord::Send)
        } else if EventWord::End.text().as_bytes() == text {
            Some(EventWord::End)
        } else {
            None
        }
    }
}

/// The way's word as it is written.
pub fn way_text(way: Way) -> &'static str
    ensures text { result.now ≡ way_text way }
    ensures short { length result.now ≤ 4 }
{
    match way {
        Way::Up => "up",
        Way::Down => "down",
    }
}

/// The way whose word is written so.
#[tactic(auto, unfolding(crate::specs::EventWords::way_spelled))]
pub(crate) fn way_spelled(text: &[u8]) -> Option<Way>
    ensures { result ≡ way_spelled text.now }
{
    if way_text(Way::Up).as_bytes() == text {
        Some(Way::Up)
    } else if way_text(Way::Down).as_bytes() == text {
        Some(Way::Down)
    } else {
        None
    }
}
