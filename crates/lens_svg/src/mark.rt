//! What is kept of a record that is drawn, and of a device.
ghost use Rattle.std.specs.Prelude.{◌≡◌, ◌≤◌, length};
ghost use Rattle.lens_svg.specs.Marks.{ground_of, ground_text, hue_text};

use net_plan::{DeviceId, LinkId, VlId};
use sync_state::State;

/// What a frame's arrow tells of it.
#[derive(Clone, Copy)]
pub enum Hue {
    /// A protocol control frame of a master.
    Control,
    /// The frame of a collection.
    Summary,
    /// A time-triggered frame.
    Stream,
    /// What a broken master sent on its link.
    Forged,
}

/// What a lane's ground tells of its device.
#[derive(Clone, Copy)]
pub enum Ground {
    Off,
    Integrating,
    Joining,
    Synchronised,
    Broken,
}

/// What a record draws besides its mark.
#[derive(Clone, Copy)]
pub enum Look {
    /// Nothing.
    Plain,
    /// How long its frame waited.
    Waited,
    /// That its frame ends here, and how long it waited before, if it did.
    Gone,
    /// The lane's ground from here on.
    Turned(Ground),
    /// Where in its window the frame of the virtual link came that is taken here from the link.
    Taken(LinkId, VlId),
}

/// A record that is drawn.
#[derive(Clone, Copy)]
pub struct Mark {
    pub number: u64,
    pub time: u64,
    /// How far to the right it stands.
    pub x: u64,
    /// Is it the first of its instant?
    pub first: bool,
    /// The row in which it stands: 0 is that of the events, and then there is one for each device.
    pub seat: u64,
    /// The device at which it happens, and how far down that device's lane is.
    pub device: DeviceId,
    pub y: u64,
    /// The number of the record that it comes from, or 0, and whether that is drawn.
    pub cause: u64,
    pub linked: bool,
    pub hue: Hue,
    pub look: Look,
}

/// The word of a hue.
pub(crate) fn hue_text(hue: Hue) -> &'static str
    ensures text { result.now ≡ hue_text hue }
    ensures short { length result.now ≤ 7 }
{
    match hue {
        Hue::Control => "control",
        Hue::Summary => "summary",
        Hue::Stream => "stream",
        Hue::Forged => "forged",
    }
}

/// The word of a ground.
pub(crate) fn ground_text(ground: Ground) -> &'static str
    ensures text { result.now ≡ ground_text ground }
    ensures short { length result.now ≤ 12 }
{
    match ground {
        Ground::Off => "off",
        Ground::Integrating => "integrating",
        Ground::Joining => "joining",
        Ground::Synchronised => "synchronised",
        Ground::Broken => "broken",
    }
}

/// The ground of a state.
pub(crate) fn ground_of(state: State) -> Ground
    ensures { result ≡ ground_of state }
{
    match state {
        State::Off => Ground::Off,
        State::Integrating => Ground::Integrating,
        State::Joining => Ground::Joining,
        State::Synchronised => Ground::Synchronised,
    }
}
