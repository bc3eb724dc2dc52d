//! What a frame that was dropped was judged by.
ghost use Rattle.std.specs.{Option.option_map_or, Prelude.position};
ghost use Rattle.std.specs.Prelude.{◌&&◌, ◌*◌, ◌+ℤ◌, ◌+◌, ◌<◌, ◌^◌, ◌≡◌, ◌≤◌, IfSome, List, Some, length, pos};
ghost use Rattle.{audit_law.specs.events.Readings.scenario_under, schedule_tables.specs.Entries.IsEntryInRange};
ghost use Rattle.{device_rules.specs.Widths.IsLocal, tte_audit.specs.Named.IsNamed, tte_units.specs.Amount.amount};
ghost use Rattle.lens_why.specs.Grounds.{beside_ground, cycle_before, dropped_ground, entry_given, gate_ground};
ghost use Rattle.lens_why.specs.Grounds.{length_ground, repeat_ground, unknown_ground, unsynchronised_ground};
ghost use Rattle.{audit_sweep.specs.Indexing.{IsIndex, IsSomeIndex}, tte_reports.specs.Commands.IsRead};
ghost use Rattle.lens_why.specs.Records.{IsThere};
ghost use Rattle.{net_plan.specs.{Belonging.HasDevice, Ranges.IsInRange}, tte_audit.specs.Report.scenario_of};
ghost use Rattle.net_plan.specs.declared.{event.Event.Event, network.Network.{Network as NetworkValue}};
ghost use Rattle.run_law.specs.{declared.note.Note.{Note as NoteValue}, timed.Arrivals.{entry_entering, is_row_with}};
ghost use Rattle.run_law.specs.device.Standpoints.{clock_of, offset_in_cycle, standpoint};
ghost use Rattle.run_law.specs.{records.Happenings.{Happening, happenings, numbered}, scenario.Ways.is_way_of};
ghost use Rattle.{tte_reports.specs.Reports.IsReportOf, tte_units.specs.declared.units.Units.{Units as UnitsValue}};

use crate::ground::{Ground, position_at};
use crate::seeking::{Coming, Sought, last_before};
use audit_sweep::Index;
use device_rules::{cycle_at, is_relay, way_to};
use net_plan::{DeviceId, LinkId, Network, Row, RowId, Way};
use run_law::{Reason, is_way_of, place_in_cycle};
use schedule_tables::{Entry, entry_of, window_of};
use tte_reports::AuditedReport;
use tte_units::{Units, magnitude};

/// What comes to the device by the link at the time, from the record of the number `cause`, and is dropped with the
/// record of the number.
#[derive(Clone, Copy)]
pub(crate) struct DroppedPassage {
    pub(crate) number: u64,
    pub(crate) time: Units,
    pub(crate) device: DeviceId,
    pub(crate) link: LinkId,
    pub(crate) cause: u64,
}

/// What the frame was judged by that is dropped for the reason.
pub(crate) fn dropped(
    report: &AuditedReport,
    network: &Network,
    passage: DroppedPassage,
    reason: Reason,
) -> Ground
    requires named { IsNamed network.now }
    requires read { IsRead network.now report.now }
    requires there { HasDevice network.now passage.device }
    requires soon { amount passage.time ≤ 2 ^ 60 }
    ensures { (notes : List NoteValue) (end : UnitsValue) (h : Happening)
        → IsReportOf network.now report.now.octets notes end → IsThere network.now notes passage.number h
        → h.note.time ≡ passage.time → result ≡ dropped_ground (scenario_of network.now notes)
        (happenings network.now notes) h passage.device passage.link passage.cause
        (numbered (happenings network.now notes) passage.cause) reason }
{
    match reason {
        Reason::Early => beside(&report.index, network, passage),
        Reason::Late => beside(&report.index, network, passage),
        Reason::Repeat => repeated(report, network, passage),
        Reason::Length => of_length(&report.index, network, passage),
        Reason::Unknown => unknown(&report.index, network, passage.cause),
        Reason::Unsynchronised => unsynchronised(report, network, passage),
        Reason::Gate => shut(&report.index, network, passage.device, passage.time),
        Reason::Off
        | Reason::ColdStart
        | Reason::Domain
        | Reason::Member
        | Reason::Old
        | Reason::Cycle
        | Reason::RefusedLength(_)
        | Reason::RefusedEtherType
        | Reason::RefusedReserved(_)
        | Reason::RefusedKind(_) => Ground::Untold,
    }
}

/// The entry by which the time-triggered frame comes to the device by the link that the record of the number `cause`
/// gave.
fn entry_given(index: &Index, network: &Network, passage: DroppedPassage) -> Option<Entry>
    requires { IsInRange network.now }
    ensures is { (befallen : List Event) (hs : List Happening) → IsIndex network.now befallen hs index.now
        → result ≡ entry_given network.now passage.device passage.link (numbered hs passage.cause) }
    ensures range { IfSome result (IsEntryInRange network.now) }
{
    match index.heading(passage.cause) {
        Some(heading) => entry_entering(network, passage.device, passage.link, heading.id),
        None => None,
    }
}

/// The entry by which a frame with this id comes to the device by the link.
fn entry_entering(network: &Network, device: DeviceId, link: LinkId, id: u16) -> Option<Entry>
    requires { IsInRange network.now }
    ensures is { result ≡ entry_entering network.now device link id }
    ensures range { IfSome result (IsEntryInRange network.now) }
{
    match place_entering(network, way_to(network, device, link), link, id) {
        Some(place) => Some(entry_of(network, RowId(place as u32))),
        None => None,
    }
}

/// The place of the first row by which a frame with this id goes on the way of the link.
fn place_entering(network: &Network, way: Way, link: LinkId, id: u16) -> Option<usize>
    ensures is { result ≡ position (λ row. is_way_of link way row.link row.way && is_row_with network.now id row)
        network.now.row }
    ensures there { IfSome result (λ place. place < length network.now.row) }
{
    network.row.as_slice().iter().position(|row| {
        is_way_of(link, way, row.link, row.way) && is_row_with(network, id, row)
    })
}

/// Is the row's virtual link the one with this id in the frames?
fn is_row_with(network: &Network, id: u16, row: &Row) -> bool
    ensures { result ≡ is_row_with network.now id row.now }
{
    match network.vl.as_slice().get(row.vl.0 as usize) {
        Some(vl) => vl.id == id,
        None => false,
    }
}

/// The cycle and the place in which the frame came, and between which places it is taken.
fn beside(index: &Index, network: &Network, passage: DroppedPassage) -> Ground
    requires range { IsInRange network.now }
    requires index { IsSomeIndex network.now index.now }
    requires there { HasDevice network.now passage.device }
    requires soon { amount passage.time ≤ 2 ^ 60 }
    ensures { (befallen : List Event) (hs : List Happening) → IsIndex network.now befallen hs index.now
        → result ≡ beside_ground (scenario_under network.now befallen) hs passage.device (amount passage.time)
        (entry_given network.now passage.device passage.link (numbered hs passage.cause)) }
{
    match entry_given(index, network, passage) {
        Some(entry) => missed(index, network, passage, &entry),
        None => Ground::Untold,
    }
}

/// The same, of a frame of the entry.
fn missed(index: &Index, network: &Network, passage: DroppedPassage, entry: &Entry) -> Ground
    requires range { IsInRange network.now }
    requires index { IsSomeIndex network.now index.now }
    requires there { HasDevice network.now passage.device }
    requires soon { amount passage.time ≤ 2 ^ 60 }
    requires entry { IsEntryInRange network.now entry.now }
    ensures { (befallen : List Event) (hs : List Happening) → IsIndex network.now befallen hs index.now
        → result ≡ beside_ground (scenario_under network.now befallen) hs passage.device (amount passage.time)
        (Some entry.now) }
{
    let cycle = cycle_before(index, network, passage.device, passage.time);
    let at = position_at(index, network, passage.device, passage.time);
    let places = window_of(network, entry);
    Ground::Missed(cycle, at, places.from, places.to)
}

/// In which cycle of its local clock something comes to the device at the time.
fn cycle_before(index: &Index, network: &Network, device: DeviceId, time: Units) -> u128
    requires range { IsInRange network.now }
    requires index { IsSomeIndex network.now index.now }
    requires there { HasDevice network.now device }
    requires soon { amount time ≤ 2 ^ 60 }
    ensures { (befallen : List Event) (hs : List Happening) → IsIndex network.now befallen hs index.now
        → result ≡ cycle_before (scenario_under network.now befallen) hs device (amount time) }
{
    u128::from(cycle_at(network, index.clock_at(network, device, magnitude(time))))
}

/// The cycle in which the frame came, and the last record before by which the device took one of its virtual link.
fn repeated(report: &AuditedReport, network: &Network, passage: DroppedPassage) -> Ground
    requires named { IsNamed network.now }
    requires read { IsRead network.now report.now }
    requires there { HasDevice network.now passage.device }
    requires soon { amount passage.time ≤ 2 ^ 60 }
    ensures { (notes : List NoteValue) (end : UnitsValue) (h : Happening)
        → IsReportOf network.now report.now.octets notes end → IsThere network.now notes passage.number h
        → h.note.time ≡ passage.time → result ≡ repeat_ground (scenario_of network.now notes)
        (happenings network.now notes) h passage.device passage.link passage.cause
        (entry_given network.now passage.device passage.link (numbered (happenings network.now notes) passage.cause)) }
{
    match entry_given(&report.index, network, passage) {
        Some(entry) => taken(report, network, passage, &entry),
        None => Ground::Untold,
    }
}

/// The same, of a frame of the entry.
fn taken(
    report: &AuditedReport,
    network: &Network,
    passage: DroppedPassage,
    entry: &Entry,
) -> Ground
    requires named { IsNamed network.now }
    requires read { IsRead network.now report.now }
    requires there { HasDevice network.now passage.device }
    requires soon { amount passage.time ≤ 2 ^ 60 }
    ensures { (notes : List NoteValue) (end : UnitsValue) (h : Happening)
        → IsReportOf network.now report.now.octets notes end → IsThere network.now notes passage.number h
        → h.note.time ≡ passage.time
        → result ≡ repeat_ground (scenario_of network.now notes) (happenings network.now notes) h passage.device
        passage.link passage.cause (Some entry.now) }
{
    let cycle = cycle_before(&report.index, network, passage.device, passage.time);
    let coming = Coming {
        device: passage.device,
        vl: entry.row.vl,
        time: magnitude(passage.time),
        link: passage.link,
        cause: passage.cause,
    };
    let number = last_before(report, network, passage.number, Sought::Taking(coming));
    Ground::Taken(cycle, number)
}

/// How many octets the frame has, and how many those of its virtual link have.
fn of_length(index: &Index, network: &Network, passage: DroppedPassage) -> Ground
    requires { IsInRange network.now }
    ensures { (befallen : List Event) (hs : List Happening) → IsIndex network.now befallen hs index.now → result
        ≡ length_ground (option_map_or (λ g. length g.octets) (numbered hs passage.cause) 0)
        (entry_given network.now passage.device passage.link (numbered hs passage.cause)) }
{
    match entry_given(index, network, passage) {
        Some(entry) => Ground::Length(size(index, passage.cause), u64::from(entry.vl.length)),
        None => Ground::Untold,
    }
}

/// How many octets the frame has that the record of the number gave.
fn size(index: &Index, number: u64) -> u64
    ensures { (network : NetworkValue) (befallen : List Event) (hs : List Happening)
        → IsIndex network befallen hs index.now
        → result ≡ option_map_or (λ g. length g.octets) (numbered hs number) 0 }
{
    match index.heading(number) {
        Some(heading) => heading.length as u64,
        None => 0,
    }
}

/// The marker of the frame that the record of the number gave, that of the network, and the id in the frame.
fn unknown(index: &Index, network: &Network, number: u64) -> Ground
    ensures { (befallen : List Event) (hs : List Happening) → IsIndex network.now befallen hs index.now
        → result ≡ unknown_ground network.now (numbered hs number) }
{
    match index.heading(number) {
        Some(heading) => Ground::Unknown(heading.marker, network.marker, heading.id),
        None => Ground::Untold,
    }
}

/// The state of the device, which has no common time, and the last record before by which it came to it.
fn unsynchronised(report: &AuditedReport, network: &Network, passage: DroppedPassage) -> Ground
    requires named { IsNamed network.now }
    requires read { IsRead network.now report.now }
    requires there { HasDevice network.now passage.device }
    ensures { (notes : List NoteValue) (end : UnitsValue) (h : Happening)
        → IsReportOf network.now report.now.octets notes end → IsThere network.now notes passage.number h
        → h.note.time ≡ passage.time → result
        ≡ unsynchronised_ground (scenario_of network.now notes) (happenings network.now notes) h passage.device }
{
    let time = magnitude(passage.time);
    let state = report.index.state_before(network, passage.device, time);
    let since = last_before(
        report,
        network,
        passage.number,
        Sought::Turning(passage.device, time),
    );
    Ground::Unsynchronised(state, since)
}

/// How far beyond the opening of its gate the clock of the device, a relay, stands at the time, and up to where it is
/// open.
fn shut(index: &Index, network: &Network, device: DeviceId, time: Units) -> Ground
    requires range { IsInRange network.now }
    requires index { IsSomeIndex network.now index.now }
    requires there { HasDevice network.now device }
    requires soon { amount time ≤ 2 ^ 60 }
    ensures { (befallen : List Event) (hs : List Happening) → IsIndex network.now befallen hs index.now
        → result ≡ gate_ground network.now device
        (clock_of (standpoint (scenario_under network.now befallen) hs device (amount time))) }
{
    if is_relay(network, device) {
        gate(network, index.clock_at(network, device, magnitude(time)))
    } else {
        Ground::Untold
    }
}

/// How far a local value is beyond the opening of the gate of a relay, and up to where it is open.
fn gate(network: &Network, value: i128) -> Ground
    requires range { IsInRange network.now }
    requires value { IsLocal value }
    ensures { result ≡ Ground.Gate (offset_in_cycle network.now (value +ℤ pos (2 * amount network.now.precision)))
        (amount network.now.correction + 2 * amount network.now.precision) }
{
    let before = 2 * u128::from(magnitude(network.precision));
    let beyond = place_in_cycle(network, later(value, magnitude(network.precision)));
    Ground::Gate(beyond, u128::from(magnitude(network.correction)) + before)
}

/// A local value, and so much twice.
fn later(value: i128, by: u64) -> i128
    requires { IsLocal value }
    ensures { result ≡ value +ℤ pos (2 * by) }
{
    value + 2 * i128::from(by)
}
