//! What a compression master has collected.
ghost use Rattle.std.specs.Prelude.{◌*◌, ◌++◌, ◌+◌, ◌-ℤ◌, ◌<◌, ◌∷◌, ◌≡◌, IfSome, List, Option, Some, [], option_map};
ghost use Rattle.{lens_why.specs.Collections.{sent_ground, taken_to, told_of}, tte_reports.specs.Commands.IsRead};
ghost use Rattle.{std.specs.Prelude.pos, tte_units.specs.Amount.amount};
ghost use Rattle.{audit_devices.specs.Effects.carried_by, tte_units.specs.declared.units.Units.{Units as UnitsValue}};
ghost use Rattle.{audit_devices.specs.Keeping.records_before, run_law.specs.records.Happenings.{Happening, happenings}};
ghost use Rattle.compression.specs.{Clusters.Cluster, Collection.{joined_end, opening}, Role.{has_point_of, role_in}};
ghost use Rattle.{device_rules.specs.Widths.IsWide, lens_why.specs.Records.IsThere, tte_audit.specs.Named.IsNamed};
ghost use Rattle.lens_why.specs.Collections.{as_point, behind_point, collected_ground, last_collection, middle_told};
ghost use Rattle.run_law.specs.{control.Collections.{ends_stretch, point_by}, declared.note.Note.{Note as NoteValue}};
ghost use Rattle.{run_law.specs.records.Ranks.place_of, tte_reports.specs.Reports.IsReportOf};

use crate::ground::{Ground, beyond};
use crate::seeking::{Sought, last_before};
use audit_devices::Carried;
use net_plan::{DeviceId, Network};
use run_law::{Judgement, NoteBody, Why};
use tte_reports::AuditedReport;
use tte_units::{Units, magnitude};

/// The last collection of a compression master so far. Readings are in units of 2^-16 ns.
#[derive(Clone, Copy, PartialEq, Eq)]
pub struct LastCollection {
    /// The point that opened it.
    pub opened: Units,
    /// The last reading at which it is open.
    pub ends: i128,
    /// The cycle of its frames.
    pub cycle: u32,
    /// The masters that it has points of, each as a bit.
    pub members: u64,
}

/// The point of a frame of a master, and its cycle.
#[derive(Clone, Copy)]
pub(crate) struct Given {
    pub(crate) point: Units,
    pub(crate) master: u32,
    pub(crate) cycle: u32,
}

/// What the compression master had collected before the record of the number, by which a frame was permanent there.
pub(crate) fn collected(
    report: &AuditedReport,
    network: &Network,
    number: u64,
    device: DeviceId,
) -> Ground
    requires named { IsNamed network.now }
    requires read { IsRead network.now report.now }
    ensures { (notes : List NoteValue) (end : UnitsValue) (h : Happening)
        → IsReportOf network.now report.now.octets notes end → IsThere network.now notes number h
        → result ≡ collected_ground network.now (happenings network.now notes) device h }
{
    let carried = report.index.carried(number);
    let last = collection_before(report, network, number, device);
    Ground::Collected(carried.members.0.trailing_zeros(), carried.cycle, last)
}

/// What the compression master sent at the reading, with the record of the number, for the collection that opened at
/// the point.
pub(crate) fn sent_for(
    report: &AuditedReport,
    network: &Network,
    number: u64,
    device: DeviceId,
    opened: Units,
    at: Units,
) -> Ground
    requires named { IsNamed network.now }
    requires read { IsRead network.now report.now }
    ensures { (notes : List NoteValue) (end : UnitsValue) (h : Happening)
        → IsReportOf network.now report.now.octets notes end → IsThere network.now notes number h
        → result ≡ sent_ground network.now (happenings network.now notes) h device opened at }
{
    let from = last_before(report, network, number, Sought::Opening(device, opened));
    Ground::Middle(from, middle_told(network, opened, at))
}

/// The middle of the points of a collection that opened at the point and was sent at the reading.
fn middle_told(network: &Network, opened: Units, at: Units) -> i128
    ensures { result ≡ middle_told network.now opened at }
{
    beyond(later(opened, at), windows(network))
}

/// How much later the reading is than the point.
fn later(opened: Units, at: Units) -> i128
    ensures value { result ≡ at.0 -ℤ opened.0 }
    ensures wide { IsWide result }
{
    i128::from(at.0) - i128::from(opened.0)
}

/// Two observation windows and the time to calculate.
fn windows(network: &Network) -> i128
    ensures value { result ≡ pos (2 * amount network.now.precision + amount network.now.calc) }
    ensures wide { IsWide result }
{
    2 * i128::from(magnitude(network.precision)) + i128::from(magnitude(network.calc))
}

/// The last collection of the device before the record of the number.
fn collection_before(
    report: &AuditedReport,
    network: &Network,
    number: u64,
    device: DeviceId,
) -> Option<LastCollection>
    requires named { IsNamed network.now }
    requires read { IsRead network.now report.now }
    ensures { (notes : List NoteValue) (end : UnitsValue) (h : Happening)
        → IsReportOf network.now report.now.octets notes end → IsThere network.now notes number h
        → result ≡ option_map told_of
        (last_collection network.now device (records_before (place_of h) (happenings network.now notes))) }
{
    let mut last = None;
    'records: for at in 1..number {
        last = behind_record(report, network, at, device, last);
    }
    last
}

/// The last collection of the device behind the record of the number too.
fn behind_record(
    report: &AuditedReport,
    network: &Network,
    number: u64,
    device: DeviceId,
    last: Option<LastCollection>,
) -> Option<LastCollection>
    requires named { IsNamed network.now }
    requires read { IsRead network.now report.now }
    ensures { (notes : List NoteValue) (end : UnitsValue) (h : Happening) (before : List Happening)
        → IsReportOf network.now report.now.octets notes end → IsThere network.now notes number h
        → last ≡ option_map told_of (last_collection network.now device before)
        → result ≡ option_map told_of (last_collection network.now device (before ++ h ∷ [])) }
{
    match report.record(network, number) {
        Some(note) => behind(
            network,
            device,
            report.index.carried(number),
            &note.body,
            last,
        ),
        None => last,
    }
}

/// The last collection of the device behind one more record of this body, whose frame says this.
fn behind(
    network: &Network,
    device: DeviceId,
    carried: Carried,
    body: &NoteBody,
    last: Option<LastCollection>,
) -> Option<LastCollection>
    ensures { (hs : List Happening) (h : Happening) → h.note.body ≡ body.now → carried ≡ carried_by h
        → last ≡ option_map told_of (last_collection network.now device hs)
        → result ≡ option_map told_of (last_collection network.now device (hs ++ h ∷ [])) }
{
    if ends_stretch(device, body) {
        return None;
    }
    match given_by(device, carried, body) {
        Some(given) => behind_point(magnitude(network.precision), last, given),
        None => last,
    }
}

/// Does a record of this body end the device's stretch?
fn ends_stretch(device: DeviceId, body: &NoteBody) -> bool
    ensures { result ≡ ends_stretch device body.now }
{
    match body {
        NoteBody::State {
            device: other,
            why,
            ..
        } => device.0 == other.0 && !matches!(why, Why::On),
        NoteBody::Permanent {
            device: other,
            verdict,
            ..
        }
        | NoteBody::Compressed {
            device: other,
            verdict,
            ..
        } => device.0 == other.0 && matches!(verdict, Judgement::Integrates),
        NoteBody::Event { .. }
        | NoteBody::Arrived { .. }
        | NoteBody::Sent { .. }
        | NoteBody::Corrected { .. }
        | NoteBody::Left { .. }
        | NoteBody::Lost { .. }
        | NoteBody::TtSent { .. }
        | NoteBody::Accepted { .. }
        | NoteBody::Delivered { .. }
        | NoteBody::Dropped { .. }
        | NoteBody::Clock { .. } => false,
    }
}

/// The point that a record of this body, whose frame says this, gives to the device's collections.
fn given_by(device: DeviceId, carried: Carried, body: &NoteBody) -> Option<Given>
    ensures is { (h : Happening) → carried ≡ carried_by h → option_map as_point result ≡ point_by device h body.now }
    ensures few { IfSome result (λ given. given.master < 64) }
{
    match body {
        NoteBody::Permanent {
            device: other,
            point,
            ..
        } => {
            if device.0 == other.0 {
                Some(Given {
                    point: *point,
                    master: carried.members.0.trailing_zeros(),
                    cycle: carried.cycle,
                })
            } else {
                None
            }
        }
        NoteBody::Event { .. }
        | NoteBody::Arrived { .. }
        | NoteBody::Compressed { .. }
        | NoteBody::Sent { .. }
        | NoteBody::Corrected { .. }
        | NoteBody::State { .. }
        | NoteBody::Left { .. }
        | NoteBody::Lost { .. }
        | NoteBody::TtSent { .. }
        | NoteBody::Accepted { .. }
        | NoteBody::Delivered { .. }
        | NoteBody::Dropped { .. }
        | NoteBody::Clock { .. } => None,
    }
}

/// The last collection behind one more point.
fn behind_point(ow: u64, last: Option<LastCollection>, given: Given) -> Option<LastCollection>
    requires { given.master < 64 }
    ensures { (c : Option Cluster) → last ≡ option_map told_of c
        → result ≡ option_map told_of (behind_point (pos ow) c (as_point given)) }
{
    match last {
        Some(collection) => {
            if collection.ends < i128::from(given.point.0) {
                Some(opening(ow, given))
            } else {
                Some(within(ow, collection, given))
            }
        }
        None => Some(opening(ow, given)),
    }
}

/// The collection that a point opens.
fn opening(ow: u64, given: Given) -> LastCollection
    requires { given.master < 64 }
    ensures { result ≡ told_of (opening (pos ow) (as_point given)) }
{
    LastCollection {
        opened: given.point,
        ends: i128::from(given.point.0) + i128::from(ow),
        cycle: given.cycle,
        members: 1 << given.master,
    }
}

/// The collection, which is open, behind a point that joins it or does not count.
fn within(ow: u64, collection: LastCollection, given: Given) -> LastCollection
    requires { given.master < 64 }
    ensures { (c : Cluster) → collection ≡ told_of c → Some result ≡ option_map told_of
        (taken_to (pos ow) (Some c) (as_point given) (role_in (Some c) (as_point given))) }
{
    if given.cycle != collection.cycle || has_point_of(collection, given.master) {
        return collection;
    }
    LastCollection {
        ends: joined_end(ow, collection, given.point),
        members: collection.members | 1 << given.master,
        ..collection
    }
}

/// Has it a point of the master?
fn has_point_of(collection: LastCollection, master: u32) -> bool
    requires { master < 64 }
    ensures { (c : Cluster) → collection ≡ told_of c → result ≡ has_point_of c master }
{
    collection.members & (1 << master) != 0
}

/// Where it ends with the point of a further master.
fn joined_end(ow: u64, collection: LastCollection, point: Units) -> i128
    ensures { (c : Cluster) → collection ≡ told_of c → result ≡ joined_end (pos ow) c point.0 }
{
    let window = i128::from(ow);
    let opened = i128::from(collection.opened.0);
    if i128::from(point.0) <= opened + window {
        opened + 2 * window
    } else {
        collection.ends
    }
}
