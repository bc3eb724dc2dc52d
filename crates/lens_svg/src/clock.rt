//! The clocks of a run's devices at its end, as their records tell them.
ghost use Rattle.std.specs.{List.list_any, Prelude.{◌*◌, ◌-ℤ◌, ◌^◌, ◌≡◌, ◌≤◌, IfSome, OnOk, unsigned_abs}};
ghost use Rattle.lens_svg.specs.Clocks.{IsWide, apart_of, broken_by, clocks_with, ends_of, ends_with, gauge_at};
ghost use Rattle.lens_svg.specs.Clocks.{gauge_of, greater, is_among, lesser, local_of, nanos_of, no_clocks, share};
ghost use Rattle.lens_svg.specs.{Clocks.{spread_at, spread_of, told_by, told_in}, Elements.HasNames};
ghost use Rattle.net_plan.specs.Ranges.{IsInRange};

use crate::element::{Element, PicturePoint};
use crate::lanes::{bottom_of, y_of};
use crate::{Sketch, Span};
use net_plan::{DeviceId, Network, What};
use run_law::{Note, NoteBody};
use std::alloc::Global;
use std::marker::Model;
use sync_state::State;
use tte_io::OutOfMemory;
use tte_units::Units;

/// The clock of a synchronised device, as its record tells it.
#[derive(Clone, Copy)]
pub struct Told {
    pub device: DeviceId,
    pub reading: Units,
    pub adjustment: Units,
}

/// The clocks that show the least and the greatest.
#[derive(Clone, Copy)]
pub struct Ends {
    pub least: Told,
    pub greatest: Told,
}

/// What the records of a part of a run tell of clocks, while they stream by.
#[derive(Drop)]
pub struct Clocks {
    told: Vec<Told>,
    broken: Vec<DeviceId>,
}

impl Model for Clocks {
    ghost use Rattle.lens_svg.specs.Clocks.{Clocks as ClocksValue};

    ghost Value = { ClocksValue };

    ghost view = { λ c. record { told = c.told.items; broken = c.broken.items } };
}

/// The device that the event breaks, if it breaks one.
fn broken_by(body: &NoteBody) -> Option<DeviceId>
    ensures { result ≡ broken_by body.now }
{
    match body {
        NoteBody::Event { line: _, what } => match what {
            What::Break(device) => Some(*device),
            What::Rate(_, _)
            | What::Wire(_, _, _)
            | What::Hold(_, _, _)
            | What::Cut(_, _)
            | What::Heal(_, _)
            | What::On(_)
            | What::Send(_, _)
            | What::End => None,
        },
        NoteBody::Arrived { .. }
        | NoteBody::Permanent { .. }
        | NoteBody::Compressed { .. }
        | NoteBody::Sent { .. }
        | NoteBody::Corrected { .. }
        | NoteBody::State { .. }
        | NoteBody::Left { .. }
        | NoteBody::Lost { .. }
        | NoteBody::TtSent { .. }
        | NoteBody::Accepted { .. }
        | NoteBody::Delivered { .. }
        | NoteBody::Dropped { .. }
        | NoteBody::Clock { .. } => None,
    }
}

/// The clock of a synchronised device that the record tells, if it does.
fn told_by(body: &NoteBody) -> Option<Told>
    ensures { result ≡ told_by body.now }
{
    match body {
        NoteBody::Clock {
            device,
            reading,
            adjustment,
            state,
        } => match state {
            State::Synchronised => Some(Told {
                device: *device,
                reading: *reading,
                adjustment: *adjustment,
            }),
            State::Off | State::Integrating | State::Joining => None,
        },
        NoteBody::Event { .. }
        | NoteBody::Arrived { .. }
        | NoteBody::Permanent { .. }
        | NoteBody::Compressed { .. }
        | NoteBody::Sent { .. }
        | NoteBody::Corrected { .. }
        | NoteBody::State { .. }
        | NoteBody::Left { .. }
        | NoteBody::Lost { .. }
        | NoteBody::TtSent { .. }
        | NoteBody::Accepted { .. }
        | NoteBody::Delivered { .. }
        | NoteBody::Dropped { .. } => None,
    }
}

/// The same, of a record of the span.
fn told_in(span: Span, note: &Note) -> Option<Told>
    ensures { result ≡ told_in span note.now }
{
    if span.holds(note.time.0.unsigned_abs()) {
        told_by(&note.body)
    } else {
        None
    }
}

/// How far apart two numbers are.
pub(crate) fn distance(value: i128, other: i128) -> u128
    requires value { IsWide value }
    requires other { IsWide other }
    ensures value { result ≡ unsigned_abs (value -ℤ other) }
    ensures most { result ≤ 2 ^ 66 }
{
    (value - other).unsigned_abs()
}

impl Told {
    /// What the local clock shows.
    fn local(self) -> i128
        ensures value { result ≡ local_of self }
        ensures wide { IsWide result }
    {
        i128::from(self.reading.0) + i128::from(self.adjustment.0)
    }

    /// How far two local clocks are apart.
    fn apart(self, other: Told) -> u128
        ensures value { result ≡ apart_of self other }
        ensures most { result ≤ 2 ^ 66 }
    {
        distance(self.local(), other.local())
    }
}

/// The one of two clocks that shows less, and the second where they show the same.
fn lesser(told: Told, other: Told) -> Told
    ensures { result ≡ lesser told other }
{
    if told.local() < other.local() {
        told
    } else {
        other
    }
}

/// The one of two clocks that shows more, and the second where they show the same.
fn greater(told: Told, other: Told) -> Told
    ensures { result ≡ greater told other }
{
    if other.local() < told.local() {
        told
    } else {
        other
    }
}

/// The clocks that show the least and the greatest, with one more.
fn ends_with(ends: Option<Ends>, broken: bool, told: Told) -> Option<Ends>
    ensures { result ≡ ends_with ends broken told }
{
    if broken {
        return ends;
    }
    match ends {
        Some(ends) => Some(Ends {
            least: lesser(told, ends.least),
            greatest: greater(told, ends.greatest),
        }),
        None => Some(Ends {
            least: told,
            greatest: told,
        }),
    }
}

/// How long a bar is that fills its frame, which has at most 120 pixels, where the part is the whole.
pub(crate) fn share(room: u64, part: u128, whole: u128) -> u64
    requires room { room ≤ 120 }
    requires part { part ≤ 2 ^ 66 }
    ensures value { result ≡ share room part whole }
    ensures most { result ≤ room }
{
    if part < whole {
        (u128::from(room) * part / whole) as u64
    } else {
        room
    }
}

/// How many nanoseconds a number of units is, rounded down.
fn nanos_of(units: u128) -> u64
    requires { units ≤ 2 ^ 66 }
    ensures { result ≡ nanos_of units }
{
    (units / 65_536) as u64
}

/// How far the clock lies beyond the least, beside the last mark of its lane.
fn gauge_at(network: &Network, sketch: &Sketch, ends: Ends, told: Told) -> Element
    requires { IsInRange network.now }
    ensures { result ≡ gauge_at network.now sketch.now ends told }
{
    let beyond = told.apart(ends.least);
    let width = if beyond == 0 {
        0
    } else {
        share(50, beyond, ends.greatest.apart(ends.least))
    };
    let place = PicturePoint {
        x: sketch.pen().most,
        y: y_of(network, sketch.kept(), told.device),
    };
    Element::Gauge(place, width, nanos_of(beyond))
}

/// How far the clocks are apart, below the names of the lanes.
fn spread_at(network: &Network, sketch: &Sketch, ends: Ends) -> Element
    requires { IsInRange network.now }
    ensures { result ≡ spread_at network.now sketch.now ends }
{
    let apart = ends.greatest.apart(ends.least);
    let precision = u128::from(network.precision.0.unsigned_abs());
    Element::Spread(
        bottom_of(network, sketch.kept()),
        share(120, apart, precision),
        nanos_of(apart),
        nanos_of(precision),
    )
}

impl Clocks {
    /// Nothing is told yet.
    pub fn new(alloc: Global) -> Clocks
        ensures { result ≡ no_clocks }
    {
        Clocks {
            told: Vec::new(alloc),
            broken: Vec::new(alloc),
        }
    }

    /// Takes the next record.
    pub fn take(&mut self, span: Span, note: &Note) -> Result<(), OutOfMemory>
        ensures { OnOk result (self.new ≡ clocks_with span self.old note.now) }
    {
        if let Some(device) = broken_by(&note.body) {
            match self.broken.push(device) {
                Ok(()) => (),
                Err(_) => return Err(OutOfMemory),
            }
        }
        if let Some(told) = told_in(span, note) {
            match self.told.push(told) {
                Ok(()) => (),
                Err(_) => return Err(OutOfMemory),
            }
        }
        Ok(())
    }

    /// The clocks that were told.
    pub fn told(&self) -> &[Told]
        ensures { result.now ≡ self.now.told }
    {
        &self.told
    }

    /// Did the device break?
    fn is_broken(&self, device: DeviceId) -> bool
        ensures { result ≡ is_among self.now.broken device }
    {
        self.broken.iter().any(|broken| broken.0 == device.0)
    }

    /// The clocks that show the least and the greatest, with one more, if its device is correct.
    fn with_told(&self, ends: Option<Ends>, told: Told) -> Option<Ends>
        ensures { result ≡ ends_with ends (is_among self.now.broken told.device) told }
    {
        ends_with(ends, self.is_broken(told.device), told)
    }

    /// The clocks of correct devices that show the least and the greatest.
    pub(crate) fn ends(&self) -> Option<Ends>
        ensures { result ≡ ends_of self.now }
    {
        let mut ends = None;
        'clocks: for told in &self.told {
            ends = self.with_told(ends, *told);
        }
        ends
    }
}

/// What is drawn of a clock: nothing of that of a broken device, or of one without a lane.
pub fn gauge_of(network: &Network, sketch: &Sketch, clocks: &Clocks, told: Told) -> Option<Element>
    requires { IsInRange network.now }
    ensures value { result ≡ gauge_of network.now sketch.now clocks.now told }
    ensures names { IfSome result (HasNames network.now) }
{
    if clocks.is_broken(told.device) || !sketch.kept().shows(told.device.0 as usize) {
        return None;
    }
    match clocks.ends() {
        Some(ends) => Some(gauge_at(network, sketch, ends, told)),
        None => None,
    }
}

/// How far the clocks are apart that were told, and how far they may be.
pub fn spread_of(network: &Network, sketch: &Sketch, clocks: &Clocks) -> Option<Element>
    requires { IsInRange network.now }
    ensures value { result ≡ spread_of network.now sketch.now clocks.now }
    ensures names { IfSome result (HasNames network.now) }
{
    match clocks.ends() {
        Some(ends) => Some(spread_at(network, sketch, ends)),
        None => None,
    }
}
