//! Where in their windows the frames came that are taken in a part of a run.
ghost use Rattle.std.specs.Prelude.{◌≡◌, All, IfOk, List};
ghost use Rattle.{audit_law.specs.events.Readings.scenario_under, lens_svg.specs.Windows.{came_of, windows_in}};
ghost use Rattle.{lens.specs.draw.Asking.IsAskable, net_plan.specs.{Ranges.IsInRange, declared.event.Event.Event}};
ghost use Rattle.audit_sweep.specs.Indexing.{IsIndex, IsSomeIndex, clock_at};
ghost use Rattle.run_law.specs.records.Happenings.{Happening};

use audit_sweep::Index;
use lens_svg::{Came, Look, Mark, Sketch, came_of};
use net_plan::Network;
use std::alloc::Global;
use tte_io::OutOfMemory;

/// Where in its window the frame of the mark came, if one was taken there.
fn came_at(network: &Network, index: &Index, mark: &Mark) -> Option<Came>
    requires range { IsInRange network.now }
    requires index { IsSomeIndex network.now index.now }
    requires askable { IsAskable network.now mark.now }
    ensures { (befallen : List Event) (hs : List Happening) → IsIndex network.now befallen hs index.now
        → result ≡ came_of network.now mark.now
        (clock_at (scenario_under network.now befallen) hs mark.now.device mark.now.time) }
{
    match mark.look {
        Look::Taken(_, _) => {
            let clock = index.clock_at(network, mark.device, mark.time);
            came_of(network, mark, clock)
        }
        Look::Plain | Look::Waited | Look::Gone | Look::Turned(_) => None,
    }
}

/// Where in their windows the frames of the sketch came that are taken.
pub(crate) fn windows_of(
    alloc: Global,
    network: &Network,
    index: &Index,
    sketch: &Sketch,
) -> Result<Vec<Came>, OutOfMemory>
    requires range { IsInRange network.now }
    requires index { IsSomeIndex network.now index.now }
    requires askable { All (IsAskable network.now) sketch.now.marks }
    ensures { (befallen : List Event) (hs : List Happening) → IsIndex network.now befallen hs index.now
        → IfOk result (λ windows. windows.items
        ≡ windows_in network.now (clock_at (scenario_under network.now befallen) hs) sketch.now.marks) }
{
    let mut windows = Vec::new(alloc);
    let marks = sketch.marks();
    'frames: for mark in marks {
        if let Some(came) = came_at(network, index, mark) {
            match windows.push(came) {
                Ok(()) => (),
                Err(_) => return Err(OutOfMemory),
            }
        }
    }
    Ok(windows)
}
