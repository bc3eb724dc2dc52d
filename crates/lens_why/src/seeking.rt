//! The last record before another one by which something came about.
ghost use Rattle.std.specs.Prelude.{◌≡◌, List, Some, option_map, true};
ghost use Rattle.{audit_devices.specs.Effects.carried_by, audit_sweep.specs.Indexing.IsIndex};
ghost use Rattle.{tte_audit.specs.Named.IsNamed, tte_reports.specs.Commands.IsRead};
ghost use Rattle.{audit_devices.specs.Keeping.records_before, run_law.specs.control.Corrections.{heard_by, hearing_by}};
ghost use Rattle.{lens_why.specs.Records.IsThere, tte_units.specs.declared.units.Units.{Units as UnitsValue}};
ghost use Rattle.lens_why.specs.Seeking.{cut_by, cut_told, cut_with, is_channel, is_frame, is_hearing_of, is_sought};
ghost use Rattle.lens_why.specs.Seeking.{is_turning_on, last_sought, opens, turns, turns_before};
ghost use Rattle.net_plan.specs.declared.{event.Event.{Event as EventValue}, network.Network.{Network as NetworkValue}};
ghost use Rattle.run_law.specs.declared.note.Note.{Note as NoteValue};
ghost use Rattle.run_law.specs.records.{Happenings.{Happening, happenings, numbered}, Ranks.place_of};
ghost use Rattle.{run_law.specs.timed.Receptions.{comes_before, is_taken_before}, tte_reports.specs.Reports.IsReportOf};

use audit_devices::{Carried, channel_of, channel_of_link};
use audit_sweep::Index;
use net_plan::{DeviceId, LinkId, Network, VlId, Way, What};
use run_law::{Judgement, Note, NoteBody, Why};
use sync_state::membership::HeardFrame;
use tte_reports::AuditedReport;
use tte_units::frames::Channel;
use tte_units::{Units, magnitude};

/// By what a record is looked for.
#[derive(Clone, Copy)]
pub(crate) enum Sought {
    /// The device hears the frame, come by the channel within its time.
    Frame(DeviceId, Channel, HeardFrame),
    /// The device takes a frame of the virtual link before this one.
    Taking(Coming),
    /// The device comes to the state in which it is when something comes to it at the time, in units of 2^-16 ns.
    Turning(DeviceId, u64),
    /// A collection of the device opens at the point.
    Opening(DeviceId, Units),
}

/// A frame of the virtual link that comes to the device by the link, from the record of the number `cause`, at a time
/// in units of 2^-16 ns.
#[derive(Clone, Copy)]
pub(crate) struct Coming {
    pub(crate) device: DeviceId,
    pub(crate) vl: VlId,
    pub(crate) time: u64,
    pub(crate) link: LinkId,
    pub(crate) cause: u64,
}

/// The number of the last record before that of the number by which it came about, or 0.
pub(crate) fn last_before(
    report: &AuditedReport,
    network: &Network,
    number: u64,
    sought: Sought,
) -> u64
    requires named { IsNamed network.now }
    requires read { IsRead network.now report.now }
    ensures { (notes : List NoteValue) (end : UnitsValue) (h : Happening)
        → IsReportOf network.now report.now.octets notes end → IsThere network.now notes number h
        → result ≡ last_sought network.now sought (records_before (place_of h) (happenings network.now notes)) }
{
    let mut at = number;
    'records: while at > 1 {
        if is_sought_at(report, network, at - 1, sought) {
            return at - 1;
        }
        at -= 1;
    }
    0
}

/// Did it come about by the record of the number?
fn is_sought_at(report: &AuditedReport, network: &Network, number: u64, sought: Sought) -> bool
    requires named { IsNamed network.now }
    requires read { IsRead network.now report.now }
    ensures { (notes : List NoteValue) (end : UnitsValue) (h : Happening)
        → IsReportOf network.now report.now.octets notes end → IsThere network.now notes number h
        → result ≡ is_sought network.now sought h h.note.body }
{
    match report.record(network, number) {
        Some(note) => is_sought(&report.index, network, &note, sought),
        None => false,
    }
}

/// Did it come about by the record?
fn is_sought(index: &Index, network: &Network, note: &Note, sought: Sought) -> bool
    ensures { (befallen : List EventValue) (hs : List Happening) (h : Happening)
        → IsIndex network.now befallen hs index.now → numbered hs note.now.number ≡ Some h → h.note ≡ note.now
        → result ≡ is_sought network.now sought h h.note.body }
{
    match sought {
        Sought::Frame(device, channel, frame) => {
            let carried = index.carried(note.number);
            is_heard(network, carried, &note.body, device, channel, frame)
        }
        Sought::Taking(coming) => is_taken_before(coming, magnitude(note.time), &note.body),
        Sought::Turning(device, time) => {
            turns_before(device, time, magnitude(note.time), &note.body)
        }
        Sought::Opening(device, point) => opens(device, point, &note.body),
    }
}

/// Did a device take a frame of the virtual link by a record of this body at the time `at`, before this one?
fn is_taken_before(coming: Coming, at: u64, body: &NoteBody) -> bool
    ensures { result ≡ is_taken_before coming.device coming.vl coming.time coming.link coming.cause at body.now }
{
    match body {
        NoteBody::Accepted {
            device,
            link,
            cause,
            vl,
            ..
        }
        | NoteBody::Delivered {
            device,
            link,
            cause,
            vl,
            ..
        } => {
            coming.device.0 == device.0
                && coming.vl.0 == vl.0
                && (at < coming.time || (at == coming.time && comes_before(*link, *cause, coming)))
        }
        NoteBody::Event { .. }
        | NoteBody::Arrived { .. }
        | NoteBody::Permanent { .. }
        | NoteBody::Compressed { .. }
        | NoteBody::Sent { .. }
        | NoteBody::Corrected { .. }
        | NoteBody::State { .. }
        | NoteBody::Left { .. }
        | NoteBody::Lost { .. }
        | NoteBody::TtSent { .. }
        | NoteBody::Dropped { .. }
        | NoteBody::Clock { .. } => false,
    }
}

/// Is the arrival of this link and cause, at one time, before this one?
fn comes_before(link: LinkId, cause: u64, coming: Coming) -> bool
    ensures { result ≡ comes_before link cause coming.link coming.cause }
{
    link.0 < coming.link.0 || (link.0 == coming.link.0 && cause < coming.cause)
}

/// Does a record of this body change the device's state?
fn turns(device: DeviceId, body: &NoteBody) -> bool
    ensures { result ≡ turns device body.now }
{
    match body {
        NoteBody::State { device: other, .. } => device.0 == other.0,
        NoteBody::Permanent {
            device: other,
            verdict,
            ..
        }
        | NoteBody::Compressed {
            device: other,
            verdict,
            ..
        } => device.0 == other.0 && matches!(verdict, Judgement::Integrates),
        NoteBody::Event { .. }
        | NoteBody::Arrived { .. }
        | NoteBody::Sent { .. }
        | NoteBody::Corrected { .. }
        | NoteBody::Left { .. }
        | NoteBody::Lost { .. }
        | NoteBody::TtSent { .. }
        | NoteBody::Accepted { .. }
        | NoteBody::Delivered { .. }
        | NoteBody::Dropped { .. }
        | NoteBody::Clock { .. } => false,
    }
}

/// Does by a record of this body at the time `at` the device come to the state in which it is when something comes to
/// it at the time `time`? The record is of an earlier time, or the device is turned on by it.
fn turns_before(device: DeviceId, time: u64, at: u64, body: &NoteBody) -> bool
    ensures { result ≡ turns_before device time at body.now }
{
    turns(device, body) && (at < time || is_turning_on(body))
}

/// Is a device turned on by a record of this body?
fn is_turning_on(body: &NoteBody) -> bool
    ensures { result ≡ is_turning_on body.now }
{
    match body {
        NoteBody::State { why: Why::On, .. } => true,
        NoteBody::State { .. }
        | NoteBody::Event { .. }
        | NoteBody::Arrived { .. }
        | NoteBody::Permanent { .. }
        | NoteBody::Compressed { .. }
        | NoteBody::Sent { .. }
        | NoteBody::Corrected { .. }
        | NoteBody::Left { .. }
        | NoteBody::Lost { .. }
        | NoteBody::TtSent { .. }
        | NoteBody::Accepted { .. }
        | NoteBody::Delivered { .. }
        | NoteBody::Dropped { .. }
        | NoteBody::Clock { .. } => false,
    }
}

/// Does by a record of this body a frame open a collection of the device at the point?
fn opens(device: DeviceId, point: Units, body: &NoteBody) -> bool
    ensures { result ≡ opens device point body.now }
{
    match body {
        NoteBody::Permanent {
            device: other,
            point: at,
            verdict: Judgement::Opened,
            ..
        } => device.0 == other.0 && (at.0 <= point.0 && point.0 <= at.0),
        NoteBody::Permanent { .. }
        | NoteBody::Event { .. }
        | NoteBody::Arrived { .. }
        | NoteBody::Compressed { .. }
        | NoteBody::Sent { .. }
        | NoteBody::Corrected { .. }
        | NoteBody::State { .. }
        | NoteBody::Left { .. }
        | NoteBody::Lost { .. }
        | NoteBody::TtSent { .. }
        | NoteBody::Accepted { .. }
        | NoteBody::Delivered { .. }
        | NoteBody::Dropped { .. }
        | NoteBody::Clock { .. } => false,
    }
}

/// The number of the record that cut the way, of those before the record of the number, or 0 where it is whole. An
/// event that cuts a cut way changes nothing.
pub(crate) fn cut_before(
    report: &AuditedReport,
    network: &Network,
    number: u64,
    link: LinkId,
    way: Way,
) -> u64
    requires named { IsNamed network.now }
    requires read { IsRead network.now report.now }
    ensures { (notes : List NoteValue) (end : UnitsValue) (h : Happening)
        → IsReportOf network.now report.now.octets notes end → IsThere network.now notes number h
        → result ≡ cut_by link way (records_before (place_of h) (happenings network.now notes)) }
{
    let mut since = 0;
    'records: for at in 1..number {
        since = cut_behind(report, network, at, link, way, since);
    }
    since
}

/// The same behind the record of the number too, where it is `since` before it.
fn cut_behind(
    report: &AuditedReport,
    network: &Network,
    number: u64,
    link: LinkId,
    way: Way,
    since: u64,
) -> u64
    requires named { IsNamed network.now }
    requires read { IsRead network.now report.now }
    ensures { (notes : List NoteValue) (end : UnitsValue) (h : Happening)
        → IsReportOf network.now report.now.octets notes end → IsThere network.now notes number h
        → result ≡ cut_with since number (cut_told link way h.note.body) }
{
    match report.record(network, number) {
        Some(note) => cut_with(since, number, cut_told(link, way, &note.body)),
        None => since,
    }
}

/// The same behind a record of the number that says this of the way.
fn cut_with(since: u64, number: u64, told: Option<bool>) -> u64
    ensures { result ≡ cut_with since number told }
{
    match told {
        Some(true) => { if since == 0 { number } else { since } }
        Some(false) => 0,
        None => since,
    }
}

/// Whether the way is cut from a record of this body on, if that says so.
fn cut_told(link: LinkId, way: Way, body: &NoteBody) -> Option<bool>
    ensures { result ≡ cut_told link way body.now }
{
    match body {
        NoteBody::Event {
            what: What::Cut(other, turned),
            ..
        } => {
            if link.0 == other.0 && way == *turned {
                Some(true)
            } else {
                None
            }
        }
        NoteBody::Event {
            what: What::Heal(other, turned),
            ..
        } => {
            if link.0 == other.0 && way == *turned {
                Some(false)
            } else {
                None
            }
        }
        NoteBody::Event { .. }
        | NoteBody::Arrived { .. }
        | NoteBody::Permanent { .. }
        | NoteBody::Compressed { .. }
        | NoteBody::Sent { .. }
        | NoteBody::Corrected { .. }
        | NoteBody::State { .. }
        | NoteBody::Left { .. }
        | NoteBody::Lost { .. }
        | NoteBody::TtSent { .. }
        | NoteBody::Accepted { .. }
        | NoteBody::Delivered { .. }
        | NoteBody::Dropped { .. }
        | NoteBody::Clock { .. } => None,
    }
}

/// Does the device hear the frame by a record of this body, come by the channel within its time?
fn is_heard(
    network: &Network,
    carried: Carried,
    body: &NoteBody,
    device: DeviceId,
    channel: Channel,
    frame: HeardFrame,
) -> bool
    ensures { (h : Happening) → carried ≡ carried_by h
        → result ≡ is_hearing_of channel frame (hearing_by network.now device h body.now) }
{
    match body {
        NoteBody::Permanent {
            device: other,
            link,
            point,
            verdict: Judgement::Within,
            ..
        } => {
            device.0 == other.0
                && is_heard_on(
                    channel_of_link(network, *link),
                    channel,
                    carried,
                    *point,
                    frame,
                )
        }
        NoteBody::Compressed {
            device: other,
            at,
            verdict: Judgement::Within,
            ..
        } => {
            device.0 == other.0
                && is_heard_on(channel_of(network, device), channel, carried, *at, frame)
        }
        NoteBody::Permanent { .. }
        | NoteBody::Compressed { .. }
        | NoteBody::Event { .. }
        | NoteBody::Arrived { .. }
        | NoteBody::Sent { .. }
        | NoteBody::Corrected { .. }
        | NoteBody::State { .. }
        | NoteBody::Left { .. }
        | NoteBody::Lost { .. }
        | NoteBody::TtSent { .. }
        | NoteBody::Accepted { .. }
        | NoteBody::Delivered { .. }
        | NoteBody::Dropped { .. }
        | NoteBody::Clock { .. } => false,
    }
}

/// Is it the frame, come by the channel, that says this and is heard at the point where it came by `on`, if by one?
fn is_heard_on(
    on: Option<Channel>,
    channel: Channel,
    carried: Carried,
    point: Units,
    frame: HeardFrame,
) -> bool
    ensures { (h : Happening) → carried ≡ carried_by h
        → result ≡ is_hearing_of channel frame (option_map (λ c. heard_by c h point true) on) }
{
    match on {
        Some(on) => is_channel(on, channel) && is_frame(carried, point, frame),
        None => false,
    }
}

/// Is it the frame that says this and is heard at the point?
fn is_frame(carried: Carried, point: Units, frame: HeardFrame) -> bool
    ensures { result ≡ is_frame (record { cycle = carried.cycle; members = carried.members; point = point }) frame }
{
    carried.cycle == frame.cycle
        && (carried.members.0 == frame.members.0
            && (point.0 <= frame.point.0 && frame.point.0 <= point.0))
}

/// Are the two channels one?
fn is_channel(channel: Channel, other: Channel) -> bool
    ensures { result ≡ is_channel channel other }
{
    match channel {
        Channel::A => matches!(other, Channel::A),
        Channel::B => matches!(other, Channel::B),
    }
}
