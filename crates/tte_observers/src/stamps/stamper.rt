ghost use Rattle.std.specs.Prelude.{◌≡◌, IfErr, List};
ghost use Rattle.net_plan.specs.Belonging.{HasDevice};
ghost use Rattle.tte_observers.specs.stamps.StampLines.{line_at, line_stamps, lines_by};
ghost use Rattle.{net_plan.specs.Ranges.IsInRange, run_law.specs.declared.note.Note.{Note as NoteValue}};
ghost use Rattle.{net_plan.specs.declared.event.Event.{Event as EventValue}, world_drive.specs.Observing.PutsFurther};
ghost use Rattle.tte_observers.specs.stamps.Stamping.{IsAtLine, MayStamp, PutsAll, PutsStamps, StopsStamps, stops_here};

use crate::stamps::granules::Granule;
use crate::stamps::stamp_line::make_stamp_line;
use drift_world::EventNote;
use net_plan::{DeviceId, Event, Network};
use run_law::plain::PlainNote;
use tte_io::{LineText, Sink};
use tte_units::Units;
use world_drive::exact::ExactWorld;
use world_drive::{Cut, Observer};

/// Puts the stamps of each line of a trace, as soon as its event befell the world.
#[derive(Drop)]
pub(crate) struct Stamper {
    pub(crate) granule: Granule,
    /// Where the lines are made, one after the other.
    pub(crate) text: LineText,
}

impl Stamper {
    /// Puts the device's stamp of the trace's line of this number, if it stamps it. The line's event befell the world
    /// last.
    fn put_stamp<K: Sink>(
        &mut self,
        world: &ExactWorld<'_>,
        network: &Network,
        number: u64,
        device: DeviceId,
        out: &mut K,
    ) -> Result<(), Cut>
        requires in_range { IsInRange network.now }
        requires there { HasDevice network.now device }
        requires may { MayStamp network.now world.now }
        ensures stamps { (before : List EventValue) (event : EventValue) (notes : List NoteValue)
            → IsAtLine network.now world.now number before event notes
            → PutsAll K.Sink result
            (lines_by self.old.granule network.now (line_at network.now before event notes) device) out.old out.new }
        ensures further { PutsFurther K.Sink result out.old out.new }
        ensures cut { IfErr result (λ cut. cut ≡ Cut.WriteFault) }
        ensures granule { self.new.granule ≡ self.old.granule }
    {
        match world.local_before(device) {
            Some(local) => {
                let stamp = self.granule.stamp_wide(local);
                make_stamp_line(&mut self.text, number, network.device_name(device), stamp);
                match out.put(self.text.as_slice()) {
                    Ok(()) => Ok(()),
                    Err(_) => Err(Cut::WriteFault),
                }
            }
            None => Ok(()),
        }
    }

    /// Puts the stamps of the line by all devices, in the order of the file.
    fn put_stamps<K: Sink>(
        &mut self,
        world: &ExactWorld<'_>,
        network: &Network,
        number: u64,
        out: &mut K,
    ) -> Result<(), Cut>
        requires in_range { IsInRange network.now }
        requires may { MayStamp network.now world.now }
        ensures stamps { (before : List EventValue) (event : EventValue) (notes : List NoteValue)
            → IsAtLine network.now world.now number before event notes
            → PutsAll K.Sink result (line_stamps self.old.granule network.now (line_at network.now before event notes))
            out.old out.new }
        ensures further { PutsFurther K.Sink result out.old out.new }
        ensures cut { IfErr result (λ cut. cut ≡ Cut.WriteFault) }
        ensures granule { self.new.granule ≡ self.old.granule }
    {
        'devices: for place in 0..network.device.as_slice().len() {
            match self.put_stamp(world, network, number, DeviceId(place as u32), out) {
                Ok(()) => (),
                Err(cut) => return Err(cut),
            }
        }
        Ok(())
    }
}

impl<K: Sink> Observer<K> for Stamper {
    ghost sees = { λ network events notes instant old put it. (it.granule ≡ old.observer.granule)
        × PutsStamps old.observer.granule network events old.told put };

    ghost stops = { λ network events notes cut old put.
        StopsStamps old.observer.granule network events cut old.told put };

    ghost cut = { λ network events notes instant old put it seen.
        stops_here old.observer.granule network events old.told put seen.1 };

    /// A record puts nothing.
    fn record(
        &mut self,
        _world: &ExactWorld<'_>,
        _network: &Network,
        _note: &PlainNote,
        _out: &mut K,
    ) -> Result<bool, Cut> {
        Ok(false)
    }

    fn event(
        &mut self,
        world: &ExactWorld<'_>,
        network: &Network,
        _event: &Event,
        note: &EventNote<'_>,
        out: &mut K,
    ) -> Result<(), Cut> {
        self.put_stamps(world, network, note.line, out)
    }

    /// The end of an instant was not asked for.
    fn instant(
        &mut self,
        _world: &ExactWorld<'_>,
        _network: &Network,
        _time: Units,
        _out: &mut K,
    ) -> Result<(), Cut> {
        Ok(())
    }
}
