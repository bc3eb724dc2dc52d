//! Where an instant stands.
ghost use Rattle.std.specs.Prelude.{◌≡◌, ◌≤◌, ◌+◌};
ghost use Rattle.lens_svg.specs.Layout.{IsOnPaper, capped, clamped, gap, holds, moved, pen_at, reached, right_of};
ghost use Rattle.lens_svg.specs.Layout.{side_of, stand, whole, widest};

/// How far to the right an instant stands at most, in pixels, and how wide a picture is at most.
const WIDEST: u64 = 65_536;

/// The greatest number of a time.
pub(crate) const LAST_TIME: u64 = 18_446_744_073_709_551_615;

/// The part of a run that is drawn: from one time to another, both in units of 2^-16 ns.
#[derive(Clone, Copy)]
pub struct Span {
    pub from: u64,
    pub to: u64,
}

/// Where a time is to a part of a run.
#[derive(Clone, Copy)]
pub(crate) enum Side {
    Before,
    Within,
    /// Within, but of a record that is not kept.
    Passed,
    Behind,
}

/// The instant that was drawn last, how far to the right it stands, and how far its marks reach.
#[derive(Clone, Copy)]
pub struct Pen {
    pub x: u64,
    pub time: u64,
    pub most: u64,
}

/// Where the time is.
pub(crate) fn side_of(span: Span, time: u64) -> Side
    ensures { result ≡ side_of span time }
{
    if time < span.from {
        Side::Before
    } else if span.to < time {
        Side::Behind
    } else {
        Side::Within
    }
}

/// So many pixels, and at least 26 and at most 78.
fn clamped(pixels: u64) -> u64
    ensures value { result ≡ clamped pixels }
    ensures most { result ≤ 78 }
{
    if pixels < 26 {
        26
    } else if 78 < pixels {
        78
    } else {
        pixels
    }
}

/// How many pixels lie between two instants.
fn gap(from: u64, to: u64) -> u64
    ensures value { result ≡ gap from to }
    ensures most { result ≤ 78 }
{
    if from < to {
        clamped((to - from) / 30_000_000)
    } else {
        0
    }
}

/// A place, and no farther to the right than a picture may be wide.
fn capped(x: u64) -> u64
    ensures value { result ≡ capped x }
    ensures within { result ≤ widest }
{
    if x < WIDEST { x } else { WIDEST }
}

/// The place to the right of a mark.
fn beside(last: u64) -> u64
    ensures value { result ≡ capped (last + 14) }
    ensures within { result ≤ widest }
{
    if last < WIDEST {
        capped(last + 14)
    } else {
        WIDEST
    }
}

impl Span {
    /// The whole run.
    pub fn whole() -> Span
        ensures { result ≡ whole }
    {
        Span {
            from: 0,
            to: LAST_TIME,
        }
    }

    /// Does the time lie in it?
    pub fn holds(self, time: u64) -> bool
        ensures { result ≡ holds self time }
    {
        match side_of(self, time) {
            Side::Before => false,
            Side::Within => true,
            Side::Passed => false,
            Side::Behind => false,
        }
    }
}

impl Pen {
    /// The pen where a picture from this time on begins.
    pub fn new(from: u64) -> Pen
        ensures value { result ≡ pen_at from }
        ensures within { IsOnPaper result }
    {
        Pen {
            x: 170,
            time: from,
            most: 170,
        }
    }

    /// The pen at a time.
    pub(crate) fn moved(self, time: u64) -> Pen
        requires { IsOnPaper self }
        ensures value { result ≡ moved self time }
        ensures within { IsOnPaper result }
    {
        if self.time < time {
            let x = capped(self.most + gap(self.time, time));
            Pen { x, time, most: x }
        } else {
            self
        }
    }

    /// Where a mark stands whose row's last mark stands here, or at 0 where it has none.
    pub(crate) fn stand(self, last: u64) -> u64
        requires { IsOnPaper self }
        ensures value { result ≡ stand self last }
        ensures within { result ≤ widest }
    {
        if last < self.x { self.x } else { beside(last) }
    }

    /// The pen with a mark that stands here.
    pub(crate) fn reached(self, x: u64) -> Pen
        requires pen { IsOnPaper self }
        requires mark { x ≤ widest }
        ensures value { result ≡ reached self x }
        ensures within { IsOnPaper result }
    {
        if self.most < x {
            Pen { most: x, ..self }
        } else {
            self
        }
    }

    /// Where the lanes of a picture end whose last instant is here.
    pub(crate) fn right(self) -> u64
        requires { IsOnPaper self }
        ensures value { result ≡ right_of self }
        ensures within { result ≤ widest + 130 }
    {
        if self.most < 810 {
            940
        } else {
            self.most + 130
        }
    }
}
