//! Where the lines of a report's records begin.

ghost use Rattle.std.specs.Prelude.{IfOk, List};
ghost use Rattle.net_plan.specs.declared.network.Network.{Network as NetworkValue};
ghost use Rattle.{run_law.specs.declared.note.Note.{Note as NoteValue}, tte_audit.specs.Named.IsNamed};
ghost use Rattle.tte_reports.specs.{Places.ArePlaces, Reports.AreLines};

use std::alloc::Global;
use tte_audit::first_lf;
use tte_io::OutOfMemory;

/// The places where the lines begin, none of which is read.
///
/// Fails when memory runs out.
pub(crate) fn places_of(alloc: Global, octets: &[u8]) -> Result<Vec<usize>, OutOfMemory>
    ensures { IfOk result (λ places. (network : NetworkValue) (notes : List NoteValue) → IsNamed network
        → AreLines network octets.now notes → ArePlaces network octets.now notes places.items) }
{
    let mut places = Vec::new(alloc);
    let mut rest = octets;
    'lines: loop {
        let Some(end) = first_lf(rest) else {
            return Ok(places);
        };
        match places.push(octets.len() - rest.len()) {
            Ok(()) => rest = &rest[end + 1..],
            Err(_) => return Err(OutOfMemory),
        }
    }
}
