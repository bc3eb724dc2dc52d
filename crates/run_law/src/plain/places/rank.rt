ghost use Rattle.std.specs.Prelude.{◌≡◌};
ghost use Rattle.run_law.specs.{plain.{Bodies.body_of, Places.number_of}, records.Ranks.rank};

use crate::NoteBody;
use crate::plain::apart::EventOrPlain;
use crate::plain::bodies::PlainKind;

/// The kinds of record, in the order of those of one time.
#[derive(Clone, Copy)]
pub enum Rank {
    /// An event befalls the network.
    Event,
    /// A control frame arrives and is taken.
    Arrived,
    /// A control frame is permanent.
    Permanent,
    /// A compression master sends the frame of a collection.
    Compressed,
    /// A master sends the control frame of a cycle.
    Sent,
    /// A device corrects its clock.
    Corrected,
    /// A device changes its state.
    State,
    /// A control frame leaves a device.
    Left,
    /// A frame meets a cut way.
    Lost,
    /// A frame of the schedule is dispatched.
    TtSent,
    /// A switch takes a frame of the schedule.
    Accepted,
    /// An end system takes a frame of the schedule.
    Delivered,
    /// A frame is dropped.
    Dropped,
    /// A device's clock at the end of the run.
    Clock,
}

impl Rank {
    /// More than the number of any.
    pub const BEYOND: u8 = 15;

    /// Its number in the order, from 1.
    #[inline(always)]
    pub fn number(self) -> u8
        ensures { result ≡ number_of self }
    {
        match self {
            Rank::Event => 1,
            Rank::Arrived => 2,
            Rank::Permanent => 3,
            Rank::Compressed => 4,
            Rank::Sent => 5,
            Rank::Corrected => 6,
            Rank::State => 7,
            Rank::Left => 8,
            Rank::Lost => 9,
            Rank::TtSent => 10,
            Rank::Accepted => 11,
            Rank::Delivered => 12,
            Rank::Dropped => 13,
            Rank::Clock => 14,
        }
    }

    /// That of a record that says this.
    pub fn of(body: &NoteBody) -> Rank
        ensures { number_of result ≡ rank body.now }
    {
        match EventOrPlain::of(body) {
            EventOrPlain::Event { .. } => Rank::Event,
            EventOrPlain::Plain(kind) => Rank::of_plain(&kind),
        }
    }

    /// That of a record of no event that says this.
    #[inline(always)]
    pub fn of_plain(kind: &PlainKind) -> Rank
        ensures { number_of result ≡ rank (body_of kind.now) }
    {
        match kind {
            PlainKind::Arrived { .. } => Rank::Arrived,
            PlainKind::Permanent { .. } => Rank::Permanent,
            PlainKind::Compressed { .. } => Rank::Compressed,
            PlainKind::Sent { .. } => Rank::Sent,
            PlainKind::Corrected { .. } => Rank::Corrected,
            PlainKind::State { .. } => Rank::State,
            PlainKind::Left { .. } => Rank::Left,
            PlainKind::Lost { .. } => Rank::Lost,
            PlainKind::TtSent { .. } => Rank::TtSent,
            PlainKind::Accepted { .. } => Rank::Accepted,
            PlainKind::Delivered { .. } => Rank::Delivered,
            PlainKind::Dropped { .. } => Rank::Dropped,
            PlainKind::Clock { .. } => Rank::Clock,
        }
    }
}
