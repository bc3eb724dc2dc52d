//! What a report shows of each line.

ghost use Rattle.std.specs.Prelude.{◌≡◌, ◌^◌, ◌<◌, All, IfOk, IfSome, List};
ghost use Rattle.lens_latency.specs.{Answer.{IsLatencyReport, told_answer}, Arrivals.AreArrivals, Comings.HasNames};
ghost use Rattle.lens_latency.specs.Seeing.{AreSeen, AreTold, is_of, times_of, with_time};
ghost use Rattle.run_law.specs.declared.note.Note.{Note as NoteValue};
ghost use Rattle.{run_law.specs.records.Happenings.happenings, tte_audit.specs.Named.IsNamed};
ghost use Rattle.tte_reports.specs.{Commands.IsRead, Reports.{IsReportOf, IsSomeReport}};
ghost use Rattle.tte_units.specs.declared.units.Units.{Units as UnitsValue};

use crate::arrivals::{Followed, FrameArrival};
use crate::comings::{Coming, comings_of};
use net_plan::Network;
use std::alloc::Global;
use tte_io::OutOfMemory;
use tte_reports::{AuditedReport, take_records};

/// How many frames came, and how long they were on their way, in units of 2^-16 ns of world time.
#[derive(Clone, Copy, PartialEq, Eq)]
pub struct SeenFrames {
    /// At least 1.
    pub count: u64,
    pub least: u64,
    pub most: u64,
}

/// How the frames of a virtual link come to a receiver, and how a report shows that they came, if any did.
#[derive(Clone, Copy)]
pub struct ReportedComing {
    pub coming: Coming,
    pub seen: Option<SeenFrames>,
}

/// Is it a frame of the virtual link that came to the receiver?
fn is_of(coming: &Coming, arrival: &FrameArrival) -> bool
    ensures { result ≡ is_of coming.now arrival.now }
{
    arrival.vl.0 == coming.vl.0 && arrival.device.0 == coming.device.0
}

/// The same with one frame more, which was on its way so long.
fn with_time(seen: Option<SeenFrames>, time: u64) -> Option<SeenFrames>
    requires { IfSome seen (λ some. some.count < 2 ^ 63) }
    ensures { result ≡ with_time seen time }
{
    let Some(seen) = seen else {
        return Some(SeenFrames {
            count: 1,
            least: time,
            most: time,
        });
    };
    Some(SeenFrames {
        count: seen.count + 1,
        least: seen.least.min(time),
        most: seen.most.max(time),
    })
}

/// What these arrivals show of it.
fn seen_of(coming: &Coming, arrivals: &[FrameArrival]) -> Option<SeenFrames>
    ensures { AreSeen (times_of coming.now arrivals.now) result }
{
    let mut seen = None;
    'arrivals: for arrival in arrivals {
        if is_of(coming, arrival) {
            seen = with_time(seen, arrival.time);
        }
    }
    seen
}

/// What these arrivals show of each.
///
/// Fails when memory runs out.
fn tell_all(
    alloc: Global,
    comings: &[Coming],
    arrivals: &[FrameArrival],
) -> Result<Vec<ReportedComing>, OutOfMemory>
    ensures { IfOk result (λ told. AreTold arrivals.now comings.now told.items) }
{
    let mut told = Vec::new(alloc);
    'comings: for coming in comings {
        let one = ReportedComing {
            coming: *coming,
            seen: seen_of(coming, arrivals),
        };
        match told.push(one) {
            Ok(()) => (),
            Err(_) => return Err(OutOfMemory),
        }
    }
    Ok(told)
}

/// The frames that a report delivers, from their dispatch by their senders.
///
/// Fails when memory runs out.
fn arrivals_in(
    alloc: Global,
    network: &Network,
    report: &AuditedReport,
) -> Result<Vec<FrameArrival>, OutOfMemory>
    requires named { IsNamed network.now }
    requires report { IsSomeReport network.now report.now.octets }
    ensures { IfOk result (λ arrivals. (notes : List NoteValue) (end : UnitsValue)
        → IsReportOf network.now report.now.octets notes end
        → AreArrivals (happenings network.now notes) arrivals.items) }
{
    let mut followed = Followed {
        departures: Vec::new(alloc),
        arrivals: Vec::new(alloc),
    };
    take_records(report, network, &mut followed)?;
    Ok(followed.arrivals)
}

/// What a report shows of each line.
///
/// Fails when memory runs out.
pub(crate) fn told_by(
    alloc: Global,
    network: &Network,
    report: &AuditedReport,
) -> Result<Vec<ReportedComing>, OutOfMemory>
    requires named { IsNamed network.now }
    requires read { IsRead network.now report.now }
    ensures names { IfOk result (λ told. All (λ one. HasNames network.now one.coming) told.items) }
    ensures answer { IfOk result (λ told. (notes : List NoteValue) (end : UnitsValue)
        → IsReportOf network.now report.now.octets notes end
        → IsLatencyReport network.now notes end (told_answer network.now told.items)) }
{
    let comings = comings_of(alloc, network)?;
    let arrivals = arrivals_in(alloc, network, report)?;
    let told = tell_all(alloc, comings.as_slice(), arrivals.as_slice())?;
    Ok(told)
}
