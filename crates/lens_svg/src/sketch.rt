//! What is kept of the records while they stream by.
ghost use Rattle.std.specs.Prelude.{◌≡◌, ◌≤◌, IfOk, List, OnOk, map, slice_get};
ghost use Rattle.lens_svg.specs.{Lanes.start_of, Layout.{IsOnPaper, widest}, Sketching.{begun, drawn_by, fits, glance_of}};
ghost use Rattle.lens_svg.specs.Sketching.{hue_from, last_in, mark_at, mark_by, no_marks_in, noted, plan_of, seated};
ghost use Rattle.lens_svg.specs.Sketching.{side_at, took_glance, turned};
ghost use Rattle.{net_plan.specs.Ranges.IsInRange, run_law.specs.declared.note.Note.{Note as NoteValue}};

use crate::kept::side_if;
use crate::lanes::{start_of, y_of};
use crate::layout::{Side, side_of};
use crate::{DrawnRecords, Glance, Ground, Hue, Look, Mark, Pen, Span, Title};
use net_plan::{Device, Network};
use std::alloc::Global;
use std::marker::Model;
use tte_io::OutOfMemory;

/// A picture as far as the records have come: a small value for each that is drawn, the hue of each up to the picture's
/// end, and each lane's ground where the picture begins.
#[derive(Drop)]
pub struct Sketch {
    span: Span,
    kept: DrawnRecords,
    title: Title,
    pen: Pen,
    /// How far to the right the last instant stands that is drawn, or 0.
    last: u64,
    /// How far to the right the last mark of each row stands, or 0: of the events, and of each device.
    seats: Vec<u64>,
    hues: Vec<Hue>,
    /// How many marks there were before each record.
    places: Vec<u64>,
    marks: Vec<Mark>,
    grounds: Vec<Ground>,
}

impl Model for Sketch {
    ghost use Rattle.lens_svg.specs.{Layout.IsOnPaper, Plan.Plan};

    ghost Value = { Plan };

    ghost view = { λ s. record {
      view = record { span = s.span; kept = s.kept; title = s.title };
      pen = s.pen;
      last = s.last;
      seats = s.seats.items;
      hues = s.hues.items;
      places = s.places.items;
      marks = s.marks.items;
      grounds = s.grounds.items;
    } };

    ghost invariant = { λ s. IsOnPaper s.pen };
}

/// The ground of each device's lane where a run begins.
fn starts_of(alloc: Global, devices: &[Device]) -> Result<Vec<Ground>, OutOfMemory>
    ensures { IfOk result (λ grounds. grounds.items ≡ map start_of devices.now) }
{
    let mut grounds = Vec::new(alloc);
    'devices: for device in devices {
        match grounds.push(start_of(device)) {
            Ok(()) => (),
            Err(_) => return Err(OutOfMemory),
        }
    }
    Ok(grounds)
}

/// The places of the last marks where there is none yet.
fn no_marks_in(alloc: Global, devices: &[Device]) -> Result<Vec<u64>, OutOfMemory>
    ensures { IfOk result (λ seats. seats.items ≡ no_marks_in devices.now) }
{
    let mut seats = Vec::new(alloc);
    match seats.push(0) {
        Ok(()) => (),
        Err(_) => return Err(OutOfMemory),
    }
    'devices: for _device in devices {
        match seats.push(0) {
            Ok(()) => (),
            Err(_) => return Err(OutOfMemory),
        }
    }
    Ok(seats)
}

impl Sketch {
    /// The sketch of these records in a part of a run, before its first record.
    pub fn new(
        alloc: Global,
        network: &Network,
        span: Span,
        kept: DrawnRecords,
        title: Title,
    ) -> Result<Sketch, OutOfMemory>
        ensures { IfOk result (λ s.
            s ≡ begun network.now (record { span = span; kept = kept; title = title })) }
    {
        let grounds = match starts_of(alloc, network.device.as_slice()) {
            Ok(grounds) => grounds,
            Err(OutOfMemory) => return Err(OutOfMemory),
        };
        let seats = match no_marks_in(alloc, network.device.as_slice()) {
            Ok(seats) => seats,
            Err(OutOfMemory) => return Err(OutOfMemory),
        };
        Ok(Sketch {
            span,
            kept,
            title,
            pen: Pen::new(span.from),
            last: 0,
            seats,
            hues: Vec::new(alloc),
            places: Vec::new(alloc),
            marks: Vec::new(alloc),
            grounds,
        })
    }

    /// The sketch of these records in a part of a run, of which this was taken.
    pub fn of(
        alloc: Global,
        network: &Network,
        span: Span,
        kept: DrawnRecords,
        title: Title,
        glances: &[Glance],
    ) -> Result<Sketch, OutOfMemory>
        requires { IsInRange network.now }
        ensures { IfOk result (λ s. (notes : List NoteValue) → glances.now ≡ map (glance_of network.now) notes
            → s ≡ plan_of network.now (record { span = span; kept = kept; title = title }) notes) }
    {
        let mut sketch = Sketch::new(alloc, network, span, kept, title)?;
        'glances: for glance in glances {
            sketch.take(network, glance)?;
        }
        Ok(sketch)
    }

    /// Takes the next record.
    pub fn take(&mut self, network: &Network, glance: &Glance) -> Result<(), OutOfMemory>
        requires { IsInRange network.now }
        ensures { OnOk result (self.new ≡ took_glance network.now self.old glance.now) }
    {
        match self.side_at(glance.number, glance.time) {
            Side::Before => self.turn(glance),
            Side::Within => self.draw(network, glance),
            Side::Passed => self.note_down(glance),
            Side::Behind => Ok(()),
        }
    }

    /// Where the record of this number and time is to what is drawn.
    fn side_at(&self, number: u64, time: u64) -> Side
        ensures { result ≡ side_at self.now.view number time }
    {
        side_if(self.kept.holds(number), side_of(self.span, time))
    }

    /// Keeps the hue of a record before the picture, and the ground that it leaves.
    fn turn(&mut self, glance: &Glance) -> Result<(), OutOfMemory>
        ensures { OnOk result (self.new ≡ turned self.old glance.now) }
    {
        self.note_down(glance)?;
        match glance.look {
            Look::Turned(ground) => {
                let place = glance.device.0 as usize;
                if place < self.grounds.len() {
                    self.grounds[place] = ground;
                }
            }
            Look::Plain | Look::Waited | Look::Gone | Look::Taken(_, _) => (),
        }
        Ok(())
    }

    /// Keeps the hue of a record, and how many marks there are before it.
    fn note_down(&mut self, glance: &Glance) -> Result<(), OutOfMemory>
        ensures { OnOk result (self.new ≡ noted self.old glance.now) }
    {
        let hue = self.hue_of(glance);
        let place = self.marks.len() as u64;
        match self.hues.push(hue) {
            Ok(()) => (),
            Err(_) => return Err(OutOfMemory),
        }
        match self.places.push(place) {
            Ok(()) => Ok(()),
            Err(_) => Err(OutOfMemory),
        }
    }

    /// Keeps the mark of a record of the picture.
    fn draw(&mut self, network: &Network, glance: &Glance) -> Result<(), OutOfMemory>
        requires { IsInRange network.now }
        ensures { OnOk result (self.new ≡ drawn_by network.now self.old glance.now) }
    {
        let pen = self.pen.moved(glance.time);
        let mark = self.mark_of(network, pen, glance);
        self.note_down(glance)?;
        match self.marks.push(mark) {
            Ok(()) => {
                self.pen = pen.reached(mark.x);
                self.last = pen.x;
                self.sit(mark.seat, mark.x);
                Ok(())
            }
            Err(_) => Err(OutOfMemory),
        }
    }

    /// Keeps where the last mark of a row stands.
    fn sit(&mut self, seat: u64, x: u64)
        ensures { self.new ≡ seated self.old seat x }
    {
        let place = seat as usize;
        if place < self.seats.len() {
            self.seats[place] = x;
        }
    }

    /// How far to the right the last mark of a row stands, or 0.
    fn last_in(&self, seat: u64) -> u64
        ensures { result ≡ last_in self.now.seats seat }
    {
        match self.seats.get(seat as usize) {
            Some(last) => *last,
            None => 0,
        }
    }

    /// The mark of a record where the pen is.
    fn mark_of(&self, network: &Network, pen: Pen, glance: &Glance) -> Mark
        requires range { IsInRange network.now }
        requires pen { IsOnPaper pen }
        ensures value { result ≡ mark_by network.now self.now pen glance.now }
        ensures within { result.x ≤ widest }
    {
        Mark {
            number: glance.number,
            time: glance.time,
            x: pen.stand(self.last_in(glance.seat)),
            first: self.last < pen.x,
            seat: glance.seat,
            device: glance.device,
            y: y_of(network, &self.kept, glance.device),
            cause: glance.cause,
            linked: self.mark_at(glance.cause).is_some(),
            hue: self.hue_of(glance),
            look: glance.look,
        }
    }

    /// The hue of a record: that of the one that it comes from, if it comes from one.
    fn hue_of(&self, glance: &Glance) -> Hue
        ensures { result ≡ hue_from self.now.hues glance.now.cause glance.now.hue }
    {
        if glance.cause == 0 {
            return glance.hue;
        }
        match self.hues.get((glance.cause - 1) as usize) {
            Some(hue) => *hue,
            None => glance.hue,
        }
    }

    /// The mark of the record of this number, if it is drawn.
    pub(crate) fn mark_at(&self, number: u64) -> Option<Mark>
        ensures { result ≡ mark_at self.now number }
    {
        let place = match self.places.get(number.saturating_sub(1) as usize) {
            Some(place) => *place,
            None => return None,
        };
        match self.marks.get(place as usize) {
            Some(mark) => {
                if mark.number == number {
                    Some(*mark)
                } else {
                    None
                }
            }
            None => None,
        }
    }

    /// Does the picture fit, whose last instant was drawn?
    pub fn fits(&self) -> bool
        ensures { result ≡ fits self.now }
    {
        self.pen.right() + 20 <= 65_536
    }

    /// The part of the run that is drawn.
    pub fn span(&self) -> Span
        ensures { result ≡ self.now.view.span }
    {
        self.span
    }

    /// Which records and devices are drawn.
    pub(crate) fn kept(&self) -> &DrawnRecords
        ensures { result.now ≡ self.now.view.kept }
    {
        &self.kept
    }

    /// The name of the picture.
    pub fn title(&self) -> &Title
        ensures { result.now ≡ self.now.view.title }
    {
        &self.title
    }

    /// The pen at the last instant that is drawn.
    pub fn pen(&self) -> Pen
        ensures value { result ≡ self.now.pen }
        ensures within { IsOnPaper result }
    {
        self.pen
    }

    /// The marks of the records that are drawn, in their order.
    pub fn marks(&self) -> &[Mark]
        ensures { result.now ≡ self.now.marks }
    {
        &self.marks
    }

    /// The ground where the picture begins, of the lane of the device at this place.
    pub(crate) fn ground_at(&self, place: usize) -> Option<Ground>
        ensures { result ≡ slice_get self.now.grounds place }
    {
        match self.grounds.get(place) {
            Some(ground) => Some(*ground),
            None => None,
        }
    }
}
