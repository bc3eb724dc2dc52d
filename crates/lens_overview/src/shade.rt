//! What a cell of a row is filled by.
ghost use Rattle.std.specs.Prelude.{◌≡◌, ◌≤◌, length};
ghost use Rattle.lens_overview.specs.Shades.{code_of, delivered, is_blank, is_same, more, repeated, shade_of, shade_word};
ghost use Rattle.lens_overview.specs.Shades.{with_copy, worse};

use sync_state::State;
use tte_units::frames::Channel;

/// What a cell is filled by.
#[derive(Clone, Copy)]
pub enum Shade {
    /// Nothing.
    Blank,
    /// The frame came by both channels.
    Both,
    /// It came by channel b alone.
    AloneB,
    /// It came by channel a alone.
    AloneA,
    /// Its delivery was owed, and it was not delivered.
    Missing,
    /// The device is off.
    Off,
    Integrating,
    Joining,
    Synchronised,
    Broken,
    /// The way is cut.
    Cut,
    /// There is one record.
    One,
    Two,
    Three,
    /// There are more than three.
    Many,
}

/// The number of a shade. No two have one, and of those of a frame a worse one has the greater.
fn code_of(shade: Shade) -> u64
    ensures { result ≡ code_of shade }
{
    match shade {
        Shade::Blank => 0,
        Shade::Both => 1,
        Shade::AloneB => 2,
        Shade::AloneA => 3,
        Shade::Missing => 4,
        Shade::Off => 5,
        Shade::Integrating => 6,
        Shade::Joining => 7,
        Shade::Synchronised => 8,
        Shade::Broken => 9,
        Shade::Cut => 10,
        Shade::One => 11,
        Shade::Two => 12,
        Shade::Three => 13,
        Shade::Many => 14,
    }
}

/// Are they one shade?
pub(crate) fn is_same(first: Shade, second: Shade) -> bool
    ensures { result ≡ is_same first second }
{
    code_of(first) == code_of(second)
}

/// Is there nothing to be drawn?
pub(crate) fn is_blank(shade: Shade) -> bool
    ensures { result ≡ is_blank shade }
{
    is_same(shade, Shade::Blank)
}

/// The worse of two shades of a frame.
pub(crate) fn worse(first: Shade, second: Shade) -> Shade
    ensures { result ≡ worse first second }
{
    if code_of(first) < code_of(second) {
        second
    } else {
        first
    }
}

/// The shade with one record more.
pub(crate) fn more(shade: Shade) -> Shade
    ensures { result ≡ more shade }
{
    if is_blank(shade) {
        Shade::One
    } else if is_same(shade, Shade::One) {
        Shade::Two
    } else if is_same(shade, Shade::Two) {
        Shade::Three
    } else {
        Shade::Many
    }
}

/// The shade of a frame that has come in one more copy, by a channel: `alone` is that of the channel and `other` that of
/// the other one.
fn with_copy(shade: Shade, alone: Shade, other: Shade) -> Shade
    ensures { result ≡ with_copy shade alone other }
{
    if is_blank(shade) {
        alone
    } else if is_same(shade, other) {
        Shade::Both
    } else {
        shade
    }
}

/// The shade of a frame that is delivered by the channel.
pub(crate) fn delivered(shade: Shade, channel: Option<Channel>) -> Shade
    ensures { result ≡ delivered shade channel }
{
    match channel {
        Some(Channel::A) => with_copy(shade, Shade::AloneA, Shade::AloneB),
        Some(Channel::B) => with_copy(shade, Shade::AloneB, Shade::AloneA),
        None => shade,
    }
}

/// The shade of a frame of which a second copy comes by the channel.
pub(crate) fn repeated(shade: Shade, channel: Option<Channel>) -> Shade
    ensures { result ≡ repeated shade channel }
{
    if is_blank(shade) {
        shade
    } else {
        delivered(shade, channel)
    }
}

/// The shade of a state.
pub(crate) fn shade_of(state: State) -> Shade
    ensures { result ≡ shade_of state }
{
    match state {
        State::Off => Shade::Off,
        State::Integrating => Shade::Integrating,
        State::Joining => Shade::Joining,
        State::Synchronised => Shade::Synchronised,
    }
}

/// The word of a shade.
pub(crate) fn shade_word(shade: Shade) -> &'static str
    ensures text { result.now ≡ shade_word shade }
    ensures short { length result.now ≤ 12 }
{
    match shade {
        Shade::Blank => "blank",
        Shade::Both => "both",
        Shade::AloneB => "alone_b",
        Shade::AloneA => "alone_a",
        Shade::Missing => "missing",
        Shade::Off => "off",
        Shade::Integrating => "integrating",
        Shade::Joining => "joining",
        Shade::Synchronised => "synchronised",
        Shade::Broken => "broken",
        Shade::Cut => "cut",
        Shade::One => "one",
        Shade::Two => "two",
        Shade::Three => "three",
        Shade::Many => "many",
    }
}
