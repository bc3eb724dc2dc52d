ghost use Rattle.std.specs.Prelude.{◌++◌, ◌↔◌, ◌∷◌, ◌≡◌, IsNone, IsTrue, List, []};
ghost use Rattle.sync_state.specs.membership.{BestFrame.{IsBestOf, IsBetterOf, NoneWithin, Qualifies}, Hearing.Hearing};
ghost use Rattle.sync_state.specs.membership.Summary.{AreOutside, Hears, Summarizes, best_on, silence};

use crate::membership::{HeardFrame, count, join};
use std::marker::Model;
use tte_units::frames::{Channel, Members};

/// What a device keeps of the frames that it has heard since its last correction: the best frame
/// of each channel among those that came within their time, and the members of those that did
/// not.
#[derive(Clone, Copy, PartialEq, Eq)]
pub struct Heard {
    best_a: Option<HeardFrame>,
    best_b: Option<HeardFrame>,
    outside: Members,
}

impl Model for Heard {
    ghost use Rattle.sync_state.specs.membership.Summary.{Summary};

    ghost Value = { Summary };

    ghost view = { λ h. record { best_a = h.best_a; best_b = h.best_b; outside = h.outside } };

    ghost inverse = { λ s. record { best_a = s.best_a; best_b = s.best_b; outside = s.outside } };
}

impl Heard {
    /// Nothing heard.
    pub fn new() -> Heard
        ensures value { result ≡ silence }
        ensures heard { Summarizes result [] }
    {
        Heard {
            best_a: None,
            best_b: None,
            outside: Members(0),
        }
    }

    /// Takes a frame that came by the channel, within its time or outside it.
    pub fn hear(&mut self, channel: Channel, frame: HeardFrame, within: bool)
        ensures value { Hears self.old
            (record { channel = channel; frame = frame; within = within }) self.new }
        ensures heard { (heard : List Hearing) → Summarizes self.old heard
            → Summarizes self.new (heard
            ++ record { channel = channel; frame = frame; within = within } ∷ []) }
    {
        if !within {
            self.outside = join(self.outside, frame.members);
            return;
        }
        match channel {
            Channel::A => self.best_a = Some(better(self.best_a, frame)),
            Channel::B => self.best_b = Some(better(self.best_b, frame)),
        }
    }

    /// The frame with most members among those within on the channel, then the one with the
    /// latest point, then the one heard last. It is None exactly where there was none.
    pub fn best(&self, channel: Channel) -> Option<HeardFrame>
        ensures value { result ≡ best_on channel self.now }
        ensures best { (heard : List Hearing) → Summarizes self.now heard
            → IsBestOf heard channel result }
        ensures none { (heard : List Hearing) → Summarizes self.now heard
            → IsNone result ↔ NoneWithin heard channel }
    {
        match channel {
            Channel::A => self.best_a,
            Channel::B => self.best_b,
        }
    }

    /// Whether the channel's best frame has at least `threshold` members.
    pub fn qualified(&self, channel: Channel, threshold: u32) -> bool
        ensures { IsTrue result ↔ Qualifies threshold (best_on channel self.now) }
    {
        self.best(channel)
            .is_some_and(|frame| count(frame.members) >= threshold)
    }

    /// The masters that are members of a frame that came outside its time, on either channel.
    pub fn outside(&self) -> Members
        ensures value { result ≡ self.now.outside }
        ensures members { (heard : List Hearing) → Summarizes self.now heard
            → AreOutside heard result }
    {
        self.outside
    }

    /// Forgets all that was heard.
    pub fn clear(&mut self)
        ensures value { self.new ≡ silence }
        ensures heard { Summarizes self.new [] }
    {
        *self = Heard::new();
    }
}

impl Default for Heard {
    ghost is_default = { λ h. h ≡ silence };

    fn default() -> Heard {
        Heard::new()
    }
}

/// The best frame so far, or the later frame where that one is not behind it.
fn better(best: Option<HeardFrame>, later: HeardFrame) -> HeardFrame
    ensures { IsBetterOf best later result }
{
    match best {
        Some(best) if later.is_behind(&best) => best,
        _ => later,
    }
}
