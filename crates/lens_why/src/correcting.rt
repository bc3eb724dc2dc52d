//! What a correction of a device's clock comes from, or a state by a clique.
ghost use Rattle.std.specs.Prelude.{◌^◌, ◌≡◌, ◌≤◌, List, option_and_then, true};
ghost use Rattle.{device_rules.specs.Widths.IsWide, tte_audit.specs.{Named.IsNamed, Report.scenario_of}};
ghost use Rattle.lens_why.specs.Corrections.{clique_ground, corrected_ground, is_clique, said_by, told_on, value_of};
ghost use Rattle.{lens_why.specs.Records.{IsCorrection, IsState, IsThere}, tte_reports.specs.Commands.IsRead};
ghost use Rattle.tte_units.specs.Amount.{amount};
ghost use Rattle.{net_plan.specs.{Belonging.HasDevice, Ranges.IsInRange}, tte_reports.specs.Reports.IsReportOf};
ghost use Rattle.{run_law.specs.declared.judgement.Why.Why, tte_units.specs.declared.units.Units.{Units as UnitsValue}};
ghost use Rattle.run_law.specs.{declared.note.Note.{Note as NoteValue}, records.Happenings.{Happening, happenings}};

use crate::ground::{Best, BestHeard, Ground, beyond};
use crate::seeking::{Sought, last_before};
use device_rules::joined_adjustment;
use net_plan::{DeviceId, Network};
use sync_state::membership::{Heard, HeardFrame, count};
use tte_reports::AuditedReport;
use tte_units::frames::Channel;
use tte_units::{Units, magnitude};

/// What the channels say to the correction of the device's clock, that of the cycle, by the record of the number at the
/// time.
pub(crate) fn corrected(
    report: &AuditedReport,
    network: &Network,
    number: u64,
    time: Units,
    device: DeviceId,
    cycle: u32,
) -> Ground
    requires named { IsNamed network.now }
    requires read { IsRead network.now report.now }
    requires there { HasDevice network.now device }
    requires soon { amount time ≤ 2 ^ 60 }
    ensures { (notes : List NoteValue) (end : UnitsValue) (h : Happening)
        → IsReportOf network.now report.now.octets notes end → IsThere network.now notes number h
        → IsCorrection h time device cycle
        → result ≡ corrected_ground (scenario_of network.now notes) (happenings network.now notes) h device cycle }
{
    let at = magnitude(time);
    let heard = report.index.heard(network, device, at);
    let adjustment = report.index.adjustment_before(network, device, at);
    let correction = RecordedCorrection {
        number,
        device,
        cycle,
        adjustment,
    };
    let a = said_on(
        report,
        network,
        correction,
        heard.best(Channel::A),
        Channel::A,
    );
    let b = said_on(
        report,
        network,
        correction,
        heard.best(Channel::B),
        Channel::B,
    );
    Ground::Corrected(a, b)
}

/// A correction by the record of the number: of the device, which has this adjustment, at the point of the cycle.
#[derive(Clone, Copy)]
struct RecordedCorrection {
    number: u64,
    device: DeviceId,
    cycle: u32,
    adjustment: i128,
}

/// What the channel says to the correction, of which this is the best frame.
fn said_on(
    report: &AuditedReport,
    network: &Network,
    correction: RecordedCorrection,
    best: Option<HeardFrame>,
    channel: Channel,
) -> Option<Best>
    requires named { IsNamed network.now }
    requires read { IsRead network.now report.now }
    requires wide { IsWide correction.adjustment }
    ensures { (notes : List NoteValue) (end : UnitsValue) (h : Happening)
        → IsReportOf network.now report.now.octets notes end → IsThere network.now notes correction.number h
        → result ≡ option_and_then (said_by (scenario_of network.now notes) (happenings network.now notes) h
        correction.device correction.cycle correction.adjustment channel) best }
{
    match best {
        Some(frame) => said_by(report, network, correction, frame, channel),
        None => None,
    }
}

/// The same, of a best frame, if it has enough members.
fn said_by(
    report: &AuditedReport,
    network: &Network,
    correction: RecordedCorrection,
    frame: HeardFrame,
    channel: Channel,
) -> Option<Best>
    requires named { IsNamed network.now }
    requires read { IsRead network.now report.now }
    requires wide { IsWide correction.adjustment }
    ensures { (notes : List NoteValue) (end : UnitsValue) (h : Happening)
        → IsReportOf network.now report.now.octets notes end → IsThere network.now notes correction.number h
        → result ≡ said_by (scenario_of network.now notes) (happenings network.now notes) h correction.device
        correction.cycle correction.adjustment channel frame }
{
    if network.sync_threshold <= count(frame.members) {
        let sought = Sought::Frame(correction.device, channel, frame);
        Some(Best {
            number: last_before(report, network, correction.number, sought),
            members: frame.members,
            value: value(network, correction, frame.point),
        })
    } else {
        None
    }
}

/// The best frames of both channels where the device comes to a clique by the record of the number at the time, the
/// members of what it heard outside its time, and how many masters are enough.
pub(crate) fn clique(
    report: &AuditedReport,
    network: &Network,
    number: u64,
    time: Units,
    device: DeviceId,
) -> Ground
    requires named { IsNamed network.now }
    requires read { IsRead network.now report.now }
    requires there { HasDevice network.now device }
    requires soon { amount time ≤ 2 ^ 60 }
    ensures { (notes : List NoteValue) (end : UnitsValue) (h : Happening) (why : Why)
        → IsReportOf network.now report.now.octets notes end → IsThere network.now notes number h
        → IsState h time device why → is_clique why ≡ true
        → result ≡ clique_ground (scenario_of network.now notes) (happenings network.now notes) h device }
{
    let heard = report.index.heard(network, device, magnitude(time));
    let a = told_on(report, network, number, device, &heard, Channel::A);
    let b = told_on(report, network, number, device, &heard, Channel::B);
    Ground::Clique(a, b, heard.outside(), network.sync_threshold)
}

/// The best frame that the device had heard on the channel before the record of the number.
fn told_on(
    report: &AuditedReport,
    network: &Network,
    number: u64,
    device: DeviceId,
    heard: &Heard,
    channel: Channel,
) -> Option<BestHeard>
    requires named { IsNamed network.now }
    requires read { IsRead network.now report.now }
    ensures { (notes : List NoteValue) (end : UnitsValue) (h : Happening)
        → IsReportOf network.now report.now.octets notes end → IsThere network.now notes number h
        → result ≡ told_on network.now (happenings network.now notes) h device channel heard.now }
{
    match heard.best(channel) {
        Some(frame) => Some(BestHeard {
            number: last_before(
                report,
                network,
                number,
                Sought::Frame(device, channel, frame),
            ),
            members: frame.members,
        }),
        None => None,
    }
}

/// How far the clock is behind by a frame of this point.
fn value(network: &Network, correction: RecordedCorrection, point: Units) -> i128
    requires range { IsInRange network.now }
    requires wide { IsWide correction.adjustment }
    ensures { result ≡ value_of network.now correction.device correction.cycle correction.adjustment point }
{
    beyond(
        joined_adjustment(network, correction.device, correction.cycle, point),
        correction.adjustment,
    )
}
