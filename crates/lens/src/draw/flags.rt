//! What the picture of one thing takes of the records, and which of them it keeps, as flags.
ghost use Rattle.std.specs.Prelude.{◌++◌, ◌∷◌, ◌≡◌, IfOk, List, OnOk, [], false, if◌then◌else◌, map, true, ℕ};
ghost use Rattle.lens.specs.draw.{Drafts.AreGlances, Keeping.{AreFlags, AreLanes, AreOwn, cause_at, passed_on, with_flag}};
ghost use Rattle.lens.specs.draw.Keeping.{glance_at, lane_at, lanes_on, with_lane};
ghost use Rattle.lens_svg.specs.Sketching.{glance_of, with_at};
ghost use Rattle.run_law.specs.{declared.note.Note.{Note as NoteValue}, records.Happenings.happenings};
ghost use Rattle.{tte_audit.specs.Named.IsNamed, tte_units.specs.declared.units.Units.{Units as UnitsValue}};
ghost use Rattle.lens.specs.declared.draw.subject.Subject.{Subject as SubjectValue};
ghost use Rattle.tte_reports.specs.Reports.{IsReportOf, IsSomeReport};

use crate::draw::subject::{Subject, own_flag};
use lens_svg::{Clocks, Flags, Glance, Span, flag_at};
use net_plan::{Device, DeviceId, Network};
use run_law::Note;
use std::alloc::Global;
use tte_io::OutOfMemory;
use tte_reports::{AuditedReport, RecordTaker, take_records};

/// What the picture of a thing takes of the records so far: whether each is of it, a small value of each, and what those
/// in the span tell of clocks.
#[derive(Drop)]
pub(crate) struct Glances {
    subject: Subject,
    span: Span,
    pub(crate) flags: Vec<bool>,
    pub(crate) glances: Vec<Glance>,
    pub(crate) clocks: Clocks,
}

impl RecordTaker for Glances {
    ghost holds = { λ network notes before begun taken.
        AreGlances network begun.subject begun.span notes before taken };

    fn take(&mut self, network: &Network, note: &Note) -> Result<(), OutOfMemory> {
        let flag = own_flag(network, self.subject, self.flags.as_slice(), &note.body);
        let glance = Glance::of(network, note);
        push_flag(&mut self.flags, flag)?;
        push_glance(&mut self.glances, glance)?;
        self.clocks.take(self.span, note)?;
        Ok(())
    }
}

fn push_flag(flags: &mut Vec<bool>, flag: bool) -> Result<(), OutOfMemory>
    ensures { OnOk result (flags.new.items ≡ flags.old.items ++ flag ∷ []) }
{
    match flags.push(flag) {
        Ok(()) => Ok(()),
        Err(_) => Err(OutOfMemory),
    }
}

fn push_glance(glances: &mut Vec<Glance>, glance: Glance) -> Result<(), OutOfMemory>
    ensures { OnOk result (glances.new.items ≡ glances.old.items ++ glance ∷ []) }
{
    match glances.push(glance) {
        Ok(()) => Ok(()),
        Err(_) => Err(OutOfMemory),
    }
}

/// What the picture of a thing takes of all records, each of which is read once.
///
/// Fails when memory runs out.
pub(crate) fn glances_of(
    alloc: Global,
    network: &Network,
    report: &AuditedReport,
    subject: Subject,
    span: Span,
) -> Result<Glances, OutOfMemory>
    requires named { IsNamed network.now }
    requires report { IsSomeReport network.now report.now.octets }
    ensures { IfOk result (λ taken. (notes : List NoteValue) (end : UnitsValue)
        → IsReportOf network.now report.now.octets notes end
        → AreGlances network.now subject span notes notes taken) }
{
    let count = report.count() as usize;
    let Ok(flags) = Vec::with_capacity(alloc, count) else {
        return Err(OutOfMemory);
    };
    let Ok(glances) = Vec::with_capacity(alloc, count) else {
        return Err(OutOfMemory);
    };
    let clocks = Clocks::new(alloc);
    let mut taken = Glances {
        subject,
        span,
        flags,
        glances,
        clocks,
    };
    take_records(report, network, &mut taken)?;
    Ok(taken)
}

/// Flags the device where a record stands in its lane.
fn set_lane(lanes: &mut Vec<bool>, drawn: bool, device: DeviceId)
    ensures { lanes.new.items ≡ (if drawn then with_at lanes.old.items device.0 true else lanes.old.items) }
{
    let place = device.0 as usize;
    if drawn && place < lanes.len() {
        lanes[place] = true;
    }
}

/// No device has a flag.
fn no_lanes(alloc: Global, devices: &[Device]) -> Result<Vec<bool>, OutOfMemory>
    ensures { IfOk result (λ lanes. lanes.items ≡ map (λ d. false) devices.now) }
{
    let mut lanes = Vec::new(alloc);
    'devices: for _device in devices {
        push_flag(&mut lanes, false)?;
    }
    Ok(lanes)
}

/// Flags the record of this number.
fn set_flag(flags: &mut Vec<bool>, number: u64)
    ensures { flags.new.items ≡ with_flag flags.old.items number }
{
    if number == 0 {
        return;
    }
    let place = (number - 1) as usize;
    if place < flags.len() {
        flags[place] = true;
    }
}

/// Flags the cause of a record that is kept, and the device in whose lane it stands if it lies in the span.
fn mark(span: Span, glance: &Glance, flags: &mut Flags)
    ensures records { flags.new.records.items ≡ with_flag flags.old.records.items glance.now.cause }
    ensures lanes { flags.new.lanes.items ≡ with_lane span glance.now flags.old.lanes.items }
{
    set_flag(&mut flags.records, glance.cause);
    let within = span.holds(glance.time);
    set_lane(&mut flags.lanes, within, glance.device);
}

/// What was taken of the record of this number, from 1; 0 is the number of none.
fn glance_at(glances: &[Glance], number: u64) -> Option<Glance>
    ensures { result ≡ glance_at glances.now number }
{
    if number == 0 {
        return None;
    }
    match glances.get((number - 1) as usize) {
        Some(glance) => Some(*glance),
        None => None,
    }
}

/// The same for the record of this number, if there is one.
fn mark_at(span: Span, glances: &[Glance], number: u64, flags: &mut Flags)
    ensures records { flags.new.records.items ≡ with_flag flags.old.records.items (cause_at glances.now number) }
    ensures lanes { flags.new.lanes.items ≡ lane_at span glances.now number flags.old.lanes.items }
{
    match glance_at(glances, number) {
        Some(glance) => mark(span, &glance, flags),
        None => (),
    }
}

/// The same, if the record has a flag.
fn pass_on(span: Span, glances: &[Glance], number: u64, flags: &mut Flags)
    ensures records { flags.new.records.items ≡ passed_on glances.now number flags.old.records.items }
    ensures lanes { flags.new.lanes.items
        ≡ lanes_on span glances.now number flags.old.records.items flags.old.lanes.items }
{
    if !flag_at(flags.records.as_slice(), number) {
        return;
    }
    mark_at(span, glances, number, flags);
}

/// Which records the picture of a thing keeps, by the flags of those that are of it: these, and all their causes; and in
/// which lanes those of them stand that lie in the span.
///
/// Fails when memory runs out.
pub(crate) fn kept_flags(
    alloc: Global,
    network: &Network,
    span: Span,
    own: Vec<bool>,
    glances: &[Glance],
) -> Result<Flags, OutOfMemory>
    ensures { IfOk result (λ flags. (subject : SubjectValue) (octets : List ℕ) (notes : List NoteValue)
        (end : UnitsValue) → IsReportOf network.now octets notes end
        → AreOwn network.now subject notes notes own.items → glances.now ≡ map (glance_of network.now) notes
        → AreFlags network.now subject (happenings network.now notes) flags.records.items
        × AreLanes network.now span flags.records.items notes flags.lanes.items) }
{
    let lanes = no_lanes(alloc, network.device.as_slice())?;
    let mut flags = Flags {
        records: own,
        lanes,
    };
    // A cause is before what it causes, so a record has all its flags when its turn comes.
    let mut number = glances.len() as u64;
    'records: while number > 0 {
        pass_on(span, glances, number, &mut flags);
        number -= 1;
    }
    Ok(flags)
}
