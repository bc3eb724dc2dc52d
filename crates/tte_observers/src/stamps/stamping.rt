ghost use Rattle.std.specs.Prelude.{◌^◌, ◌≡◌, ◌≢◌, ◌≤ℤ◌, ◌⊎◌, pos};
ghost use Rattle.tte_forms.specs.{Answering.{ForOctets, GivesAnswer}, Putting.Over};
ghost use Rattle.tte_forms.specs.{Faults.{HasCause, PutFailed, ReadFailed}, networks.Accepting.IsNetworkAnswer};
ghost use Rattle.tte_observers.specs.stamps.Answer.{IsStampAnswer, IsStampStatus, StampEnds, StampStops};
ghost use Rattle.tte_observers.specs.stamps.{Answer.StampTakesLittle, Safely.StampsSafely};
ghost use Rattle.tte_forms.specs.{Taking.TakesUpTo, frames.Answer.file_limit};

use crate::stamps::granules::{Granule, least};
use crate::stamps::refused_granule::put_refused_granule;
use crate::stamps::stamper::Stamper;
use schedule_tables::Accepted;
use std::alloc::Global;
use tte_forms::{Status, accept, put_no_network};
use tte_io::{LineText, Sink, Source};
use tte_traces::follow_trace;
use tte_units::Units;

/// Runs the network of the first file under the trace of the second, and stamps each line of the trace by each correct
/// synchronised device, in granules of 1 to 2^60 units. A granule of fewer units than the network's least is refused
/// before the trace is read.
pub fn stamp_trace<A: Source, B: Source, K: Sink>(
    alloc: Global,
    first: &mut A,
    second: &mut B,
    granule: Units,
    out: &mut K,
) -> Status
    requires least { pos 1 ≤ℤ granule.0 }
    requires most { granule.0 ≤ℤ pos (2 ^ 60) }
    ensures general { Over K.Sink out.old out.new (λ old new.
        ForOctets (A.left first.old) (λ octets. ForOctets (B.left second.old) (λ trace.
        GivesAnswer (IsNetworkAnswer (IsStampAnswer granule trace) octets) result old new))) }
    ensures safe { Over K.Sink out.old out.new (StampsSafely granule (A.left first.old) (B.left second.old) result) }
    ensures statuses { IsStampStatus result }
    // Where the first source failed, nothing was written.
    ensures faults { HasCause result
        ((ReadFailed A.Source first.old first.new × (out.new ≡ out.old) × (second.new ≡ second.old))
        ⊎ (ReadFailed B.Source second.old second.new
        × Over K.Sink out.old out.new (StampStops granule (A.left first.old) (B.left second.old) (B.left second.new))))
        (PutFailed K.Sink out.old out.new) }
    ensures takes { TakesUpTo file_limit (A.left first.old) (A.left first.new)
        × ((second.new ≡ second.old)
        ⊎ ((result ≢ Status.GranuleRefused) × Over K.Sink out.old out.new
        (StampTakesLittle granule (A.left first.old) (B.left second.old) (B.left second.new)))) }
{
    match accept(alloc, first) {
        Ok(accepted) => stamp_network(alloc, &accepted, second, granule, out),
        Err(cause) => put_no_network(cause, out),
    }
}

fn stamp_network<B: Source, K: Sink>(
    alloc: Global,
    accepted: &Accepted,
    second: &mut B,
    granule: Units,
    out: &mut K,
) -> Status
    requires least { pos 1 ≤ℤ granule.0 }
    ensures ends { Over K.Sink out.old out.new
        (StampEnds granule accepted.now (second.new ≡ second.old) (B.left second.old) (B.left second.new) result) }
    ensures statuses { IsStampStatus result }
    ensures cause { HasCause result (ReadFailed B.Source second.old second.new) (PutFailed K.Sink out.old out.new) }
{
    match Granule::new(accepted, granule) {
        Some(granule) => {
            let mut stamper = Stamper {
                granule,
                text: LineText::new(),
            };
            follow_trace(alloc, accepted, second, &mut stamper, out)
        }
        None => put_refused_granule(least(accepted).amount(), out),
    }
}
