//! What a picture takes of a record.
ghost use Rattle.std.specs.Prelude.{◌≡◌};
ghost use Rattle.lens_svg.specs.Sketching.{glance_of};

use crate::bodies::{look_of, own_hue, scene_of, seat_of};
use crate::{Hue, Look};
use net_plan::{DeviceId, Network};
use run_law::{Note, cause_of};

/// All that a picture takes of a record, but for the line of its mark.
#[derive(Clone, Copy)]
pub struct Glance {
    pub number: u64,
    /// Its world time, in units of 2^-16 ns.
    pub time: u64,
    /// The device at which it happens.
    pub device: DeviceId,
    /// The row in which its mark stands: 0 is that of the events, and then there is one for each device.
    pub seat: u64,
    /// The number of the record that it comes from, or 0.
    pub cause: u64,
    /// Its hue where it comes from no record.
    pub hue: Hue,
    /// What it draws besides its mark.
    pub look: Look,
}

impl Glance {
    /// What is taken of the record.
    pub fn of(network: &Network, note: &Note) -> Glance
        ensures { result ≡ glance_of network.now note.now }
    {
        Glance {
            number: note.number,
            time: note.time.0.unsigned_abs(),
            device: scene_of(network, &note.body),
            seat: seat_of(network, &note.body),
            cause: cause_of(&note.body),
            hue: own_hue(&note.body),
            look: look_of(&note.body),
        }
    }
}
