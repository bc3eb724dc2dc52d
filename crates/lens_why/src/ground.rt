ghost use Rattle.std.specs.Prelude.{◌*◌, ◌+ℤ◌, ◌+◌, ◌-ℤ◌, ◌-◌, ◌<◌, ◌^◌, ◌≡◌, ◌≤◌, List, None, Option, Some};
ghost use Rattle.std.specs.Prelude.{length, option_map};
ghost use Rattle.{audit_law.specs.events.Readings.scenario_under, net_plan.specs.declared.event.Event.Event};
ghost use Rattle.{device_rules.specs.Widths.IsWide, run_law.specs.records.Happenings.{Happening, happenings, numbered}};
ghost use Rattle.lens_why.specs.{Corrections.is_clique, Grounds.{scheduled_ground, state_ground, window_ground}};
ghost use Rattle.lens_why.specs.Grounds.{dispatch_ground, ground_of, heard_ground, is_by_schedule, is_collected};
ghost use Rattle.lens_why.specs.Grounds.{lost_ground, offset_at, permanent_ground, position_at};
ghost use Rattle.lens_why.specs.Records.{ComesFrom, IsPermanence, IsState, IsThere, clock_given};
ghost use Rattle.run_law.specs.declared.judgement.Judgement.{Judgement as JudgementValue};
ghost use Rattle.{audit_sweep.specs.Indexing.{IsIndex, IsSomeIndex}, tte_reports.specs.Commands.IsRead};
ghost use Rattle.lens_why.specs.Records.{IsTimely};
ghost use Rattle.{net_plan.specs.{Belonging.HasDevice, Places.row_of, Ranges.IsInRange}, tte_audit.specs.Report.scenario_of};
ghost use Rattle.run_law.specs.declared.note.Note.{Note as NoteValue};
ghost use Rattle.{tte_audit.specs.Named.IsNamed, tte_units.specs.Amount.amount};
ghost use Rattle.{tte_reports.specs.Reports.IsReportOf, tte_units.specs.declared.units.Units.{Units as UnitsValue}};

use crate::collecting::{LastCollection, collected, sent_for};
use crate::correcting::{clique, corrected};
use crate::dropping::{DroppedPassage, dropped};
use crate::seeking::cut_before;
use audit_sweep::{Index, Permanence};
use device_rules::{joined_adjustment, way_from};
use net_plan::{DeviceId, LinkId, Network, RowId, VlId};
use run_law::{Judgement, Note, NoteBody, Why, place_in_cycle};
use schedule_tables::{entry_of, window_of};
use sync_state::State;
use tte_reports::AuditedReport;
use tte_units::frames::Members;
use tte_units::{Units, magnitude};

/// What a channel says to a correction of a device's clock, by the best frame that the device has heard on it.
#[derive(Clone, Copy, PartialEq, Eq)]
pub struct Best {
    /// The number of the record that told the frame, or 0.
    pub number: u64,
    /// The masters that the frame stands for.
    pub members: Members,
    /// How far the clock is behind by it.
    pub value: i128,
}

/// The best frame that a device has heard on a channel.
#[derive(Clone, Copy, PartialEq, Eq)]
pub struct BestHeard {
    /// The number of the record that told the frame, or 0.
    pub number: u64,
    /// The masters that the frame stands for.
    pub members: Members,
}

/// What bore on a record, beside what it says itself. Times, clocks and local values are in units of 2^-16 ns.
#[derive(Clone, Copy, PartialEq, Eq)]
pub enum Ground {
    /// Nothing is told.
    Untold,
    /// The line of the trace that has the event.
    Line(u64),
    /// The local value that the clock of a master came to.
    Local(u128),
    /// How long the way held a frame, and how much of that the device's clock measured.
    Held(u64, u64),
    /// The transparent clock of a frame, and the greatest with which it is taken.
    Clock(u64, u64),
    /// The local value that a clock came to, the row that is dispatched there, its offset, and the cycle.
    Dispatched(u128, u32, u64, u32),
    /// A point of a frame, the adjustment with which its device judges it, the local value that it expects of the frame
    /// of the cycle, how far beyond that its local clock stands at the point, and how far it may.
    Heard(Units, i128, i128, i128, u64),
    /// The master of a frame, its cycle, and the last collection of the points before it, if there is one.
    Collected(u32, u32, Option<LastCollection>),
    /// The number of the record that opened a collection, and the middle of its points, from the first on.
    Middle(u64, i128),
    /// What the channels A and B say to a correction, where they have a frame of enough masters.
    Corrected(Option<Best>, Option<Best>),
    /// The best frames of the channels A and B where a device comes to a clique, if there are such, the members of
    /// those heard outside their time, and how many masters are enough.
    Clique(Option<BestHeard>, Option<BestHeard>, Members, u32),
    /// The number of the record of the event that cut the way.
    CutBy(u64),
    /// Where in its cycle a frame came to a device, and where the device takes it: from the one place to the other.
    Window(i128, Units, Units),
    /// The cycle in which a frame came to a device, where in that it came, and where the device takes it.
    Missed(u128, i128, Units, Units),
    /// The cycle in which a frame came to a device, and the number of the last record before by which the device took
    /// one.
    Taken(u128, u64),
    /// How many octets a frame has, and how many those of its virtual link have.
    Length(u64, u64),
    /// The marker of a frame, that of the network, and the id of the virtual link that the frame names.
    Unknown(u32, u32, u16),
    /// The state of a device, and the number of the last record before by which it came to it, or 0.
    Unsynchronised(State, u64),
    /// How far beyond the opening of a relay's gate its clock stands, and up to where the gate is open.
    Gate(i128, u128),
    /// What a clock reads.
    Reading(Units),
}

/// What bore on the record, which comes from this one or from none.
pub(crate) fn ground_of(
    report: &AuditedReport,
    network: &Network,
    note: &Note,
    giving: &Option<Note>,
) -> Ground
    requires named { IsNamed network.now }
    requires read { IsRead network.now report.now }
    requires timely { IsTimely network.now note.now }
    ensures { (notes : List NoteValue) (end : UnitsValue) (h : Happening)
        → IsReportOf network.now report.now.octets notes end
        → ComesFrom (scenario_of network.now notes) (happenings network.now notes) h note.now giving.now
        → result ≡ ground_of (scenario_of network.now notes) (happenings network.now notes) h }
{
    let index = &report.index;
    match &note.body {
        NoteBody::Event { line, .. } => Ground::Line(*line),
        NoteBody::Sent { cycle, .. } => Ground::Local(local_value(network, *cycle, 0)),
        NoteBody::Left { clock, .. } => held(note.time, *clock, giving),
        NoteBody::Arrived { clock, .. } => Ground::Clock(*clock, magnitude(network.dmax)),
        NoteBody::TtSent {
            link,
            vl,
            cycle,
            ..
        } => dispatched(network, *link, *vl, *cycle),
        NoteBody::Accepted {
            device,
            link,
            vl,
            ..
        } => taken(index, network, note.time, *device, *link, *vl),
        NoteBody::Delivered {
            device,
            link,
            vl,
            ..
        } => taken(index, network, note.time, *device, *link, *vl),
        NoteBody::Dropped {
            device,
            link,
            cause,
            reason,
        } => {
            let passage = DroppedPassage {
                number: note.number,
                time: note.time,
                device: *device,
                link: *link,
                cause: *cause,
            };
            dropped(report, network, passage, *reason)
        }
        NoteBody::Clock { reading, .. } => Ground::Reading(*reading),
        NoteBody::Permanent {
            device,
            link,
            cause,
            point,
            verdict,
        } => {
            let frame = Permanence {
                device: *device,
                link: *link,
                cause: *cause,
                point: *point,
            };
            permanent(report, network, note.number, note.time, frame, *verdict)
        }
        NoteBody::Corrected { device, cycle, .. } => {
            corrected(report, network, note.number, note.time, *device, *cycle)
        }
        NoteBody::Lost { device, link, .. } => lost(report, network, note.number, *device, *link),
        NoteBody::State { device, why, .. } => {
            state_by(report, network, note.number, note.time, *device, *why)
        }
        NoteBody::Compressed {
            device,
            opened,
            at,
            ..
        } => sent_for(report, network, note.number, *device, *opened, *at),
    }
}

/// Where the device's clock stood when the virtual link's frame came by the link at the time, and where it takes it.
fn taken(
    index: &Index,
    network: &Network,
    time: Units,
    device: DeviceId,
    link: LinkId,
    vl: VlId,
) -> Ground
    requires range { IsInRange network.now }
    requires index { IsSomeIndex network.now index.now }
    requires there { HasDevice network.now device }
    requires soon { amount time ≤ 2 ^ 60 }
    ensures { (befallen : List Event) (hs : List Happening) → IsIndex network.now befallen hs index.now
        → result ≡ window_ground network.now
        (position_at (scenario_under network.now befallen) hs device (amount time)) (row_of network.now vl link) }
{
    let at = position_at(index, network, device, time);
    window_on(network, at, link, vl)
}

/// Where in its cycle the local clock of the device stands when something comes to it at the time.
pub(crate) fn position_at(index: &Index, network: &Network, device: DeviceId, time: Units) -> i128
    requires range { IsInRange network.now }
    requires index { IsSomeIndex network.now index.now }
    requires there { HasDevice network.now device }
    requires soon { amount time ≤ 2 ^ 60 }
    ensures { (befallen : List Event) (hs : List Happening) → IsIndex network.now befallen hs index.now
        → result ≡ position_at (scenario_under network.now befallen) hs device (amount time) }
{
    place_in_cycle(network, index.clock_at(network, device, magnitude(time)))
}

/// What the frame of the record of the number, which is permanent so, was judged by.
fn permanent(
    report: &AuditedReport,
    network: &Network,
    number: u64,
    time: Units,
    frame: Permanence,
    verdict: Judgement,
) -> Ground
    requires named { IsNamed network.now }
    requires read { IsRead network.now report.now }
    requires there { HasDevice network.now frame.device }
    ensures { (notes : List NoteValue) (end : UnitsValue) (h : Happening)
        → IsReportOf network.now report.now.octets notes end → IsThere network.now notes number h
        → IsPermanence h time frame verdict → result ≡ permanent_ground (scenario_of network.now notes)
        (happenings network.now notes) frame.device frame.point verdict h }
{
    if is_by_schedule(verdict) {
        return scheduled(&report.index, network, number, time, frame);
    }
    if is_collected(verdict) {
        return collected(report, network, number, frame.device);
    }
    Ground::Untold
}

/// What the frame of the record of the number, which its device judges by its schedule, was judged by.
fn scheduled(
    index: &Index,
    network: &Network,
    number: u64,
    time: Units,
    frame: Permanence,
) -> Ground
    requires range { IsInRange network.now }
    requires index { IsSomeIndex network.now index.now }
    requires there { HasDevice network.now frame.device }
    ensures { (befallen : List Event) (hs : List Happening) (h : Happening) (verdict : JudgementValue)
        → IsIndex network.now befallen hs index.now → numbered hs number ≡ Some h → IsPermanence h time frame verdict
        → result ≡ scheduled_ground (scenario_under network.now befallen) hs frame.device frame.point h }
{
    let carried = index.carried(number);
    let adjustment = index.adjustment_at(network, magnitude(time), carried.members, frame);
    heard(
        network,
        frame.device,
        adjustment,
        carried.cycle,
        frame.point,
    )
}

/// Does a compression master judge a frame so by what it has collected?
fn is_collected(verdict: Judgement) -> bool
    ensures { result ≡ is_collected verdict }
{
    matches!(
        verdict,
        Judgement::Opened | Judgement::Joined | Judgement::Repeat
    )
}

/// Does a device judge a frame so by its schedule?
fn is_by_schedule(verdict: Judgement) -> bool
    ensures { result ≡ is_by_schedule verdict }
{
    matches!(verdict, Judgement::Within | Judgement::Outside)
}

/// What the local clock of the device, with this adjustment, shows at the point of the cycle's frame.
fn heard(network: &Network, device: DeviceId, adjustment: i128, cycle: u32, point: Units) -> Ground
    requires range { IsInRange network.now }
    requires wide { IsWide adjustment }
    ensures { result ≡ heard_ground network.now device adjustment cycle point }
{
    let joined = joined_adjustment(network, device, cycle, point);
    let expected = local_at(point, joined);
    let off = beyond(adjustment, joined);
    Ground::Heard(
        point,
        adjustment,
        expected,
        off,
        magnitude(network.precision),
    )
}

/// What a local clock of this adjustment shows at the point.
fn local_at(point: Units, adjustment: i128) -> i128
    requires { IsWide adjustment }
    ensures { result ≡ adjustment +ℤ point.0 }
{
    adjustment + i128::from(point.0)
}

/// How far the one adjustment lies beyond the other.
pub(crate) fn beyond(adjustment: i128, other: i128) -> i128
    requires adjustment { IsWide adjustment }
    requires other { IsWide other }
    ensures { result ≡ adjustment -ℤ other }
{
    adjustment - other
}

/// What the device had heard where it comes to a state so by the record of the number, if by a clique.
fn state_by(
    report: &AuditedReport,
    network: &Network,
    number: u64,
    time: Units,
    device: DeviceId,
    why: Why,
) -> Ground
    requires named { IsNamed network.now }
    requires read { IsRead network.now report.now }
    requires there { HasDevice network.now device }
    requires soon { amount time ≤ 2 ^ 60 }
    ensures { (notes : List NoteValue) (end : UnitsValue) (h : Happening)
        → IsReportOf network.now report.now.octets notes end → IsThere network.now notes number h
        → IsState h time device why
        → result ≡ state_ground (scenario_of network.now notes) (happenings network.now notes) h device why }
{
    if is_clique(why) {
        clique(report, network, number, time, device)
    } else {
        Ground::Untold
    }
}

/// Does a device come to its state so by what it has heard?
fn is_clique(why: Why) -> bool
    ensures { result ≡ is_clique why }
{
    matches!(why, Why::SyncClique | Why::AsyncClique)
}

/// The record before that of the number, of a frame that the device gave to the link, by which the way was cut.
fn lost(
    report: &AuditedReport,
    network: &Network,
    number: u64,
    device: DeviceId,
    link: LinkId,
) -> Ground
    requires named { IsNamed network.now }
    requires read { IsRead network.now report.now }
    ensures { (notes : List NoteValue) (end : UnitsValue) (h : Happening)
        → IsReportOf network.now report.now.octets notes end → IsThere network.now notes number h
        → result ≡ lost_ground network.now (happenings network.now notes) h device link }
{
    let way = way_from(network, device, link);
    Ground::CutBy(cut_before(report, network, number, link, way))
}

/// The local value at this offset in the cycle.
fn local_value(network: &Network, cycle: u32, offset: u64) -> u128
    requires { IsInRange network.now }
    ensures { result ≡ cycle * amount network.now.cycle + offset }
{
    u128::from(cycle) * u128::from(magnitude(network.cycle)) + u128::from(offset)
}

/// How long a frame was held that leaves with this transparent clock at the time, and how much of that was measured.
fn held(time: Units, clock: u64, giving: &Option<Note>) -> Ground
    ensures some { (note : NoteValue) → giving.now ≡ Some note → result
        ≡ Ground.Held (amount time - amount note.time) (clock - clock_given note.body) }
    ensures none { giving.now ≡ None → result ≡ Ground.Untold }
{
    match giving {
        Some(giving) => Ground::Held(
            magnitude(time).saturating_sub(magnitude(giving.time)),
            clock.saturating_sub(clock_given(&giving.body)),
        ),
        None => Ground::Untold,
    }
}

/// The transparent clock of the frame that is given to a link with a record of this body.
fn clock_given(body: &NoteBody) -> u64
    ensures { result ≡ clock_given body.now }
{
    match body {
        NoteBody::Arrived { clock, .. } => *clock,
        NoteBody::Event { .. }
        | NoteBody::Permanent { .. }
        | NoteBody::Compressed { .. }
        | NoteBody::Sent { .. }
        | NoteBody::Corrected { .. }
        | NoteBody::State { .. }
        | NoteBody::Left { .. }
        | NoteBody::Lost { .. }
        | NoteBody::TtSent { .. }
        | NoteBody::Accepted { .. }
        | NoteBody::Delivered { .. }
        | NoteBody::Dropped { .. }
        | NoteBody::Clock { .. } => 0,
    }
}

/// The row of the virtual link that is dispatched on the link in the cycle, and where.
fn dispatched(network: &Network, link: LinkId, vl: VlId, cycle: u32) -> Ground
    requires { IsInRange network.now }
    ensures { result ≡ dispatch_ground network.now cycle (row_of network.now vl link) }
{
    match network.row_of(vl, link) {
        Some(place) => dispatch_of(network, place, cycle),
        None => Ground::Untold,
    }
}

/// Where the row at the place is dispatched in the cycle.
fn dispatch_of(network: &Network, place: usize, cycle: u32) -> Ground
    requires range { IsInRange network.now }
    requires there { place < length network.now.row }
    ensures { result ≡ Ground.Dispatched (cycle * amount network.now.cycle + offset_at network.now place) place
        (offset_at network.now place) cycle }
{
    let offset = magnitude(network.row.as_slice()[place].offset);
    Ground::Dispatched(
        local_value(network, cycle, offset),
        place as u32,
        offset,
        cycle,
    )
}

/// The virtual link's frame came to a device by the link at this place of its cycle: where the device takes it.
fn window_on(network: &Network, at: i128, link: LinkId, vl: VlId) -> Ground
    requires { IsInRange network.now }
    ensures { result ≡ window_ground network.now at (row_of network.now vl link) }
{
    match network.row_of(vl, link) {
        Some(place) => window_of_row(network, at, place),
        None => Ground::Untold,
    }
}

/// The same, of a frame of the row at the place.
fn window_of_row(network: &Network, at: i128, place: usize) -> Ground
    requires range { IsInRange network.now }
    requires there { place < length network.now.row }
    ensures { result ≡ window_ground network.now at (Some place) }
{
    let places = window_of(network, &entry_of(network, RowId(place as u32)));
    Ground::Window(at, places.from, places.to)
}
