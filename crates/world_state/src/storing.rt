ghost use Rattle.std.specs.Prelude.{◌≡◌};
ghost use Rattle.world_state.specs.{Shelves.{HasPlace, spot_of}, Storing.IsStoredFor};

use crate::contents::{HoldSpot, Holding, Timed};
use crate::shelves::Shelves;
use run_law::plain::{PlainBody, PlainKind};

/// The switch holds the octets that it took by the record of this number, if there are any.
#[inline(always)]
pub fn store(stored: &mut Shelves, spot: HoldSpot, octets: Option<Timed>, number: u64)
    requires { HasPlace stored.old spot }
    ensures { IsStoredFor spot.device spot.vl octets number stored.old.items stored.new.items }
{
    if let Some(octets) = octets {
        stored.put(Holding {
            device: spot.device,
            vl: spot.vl,
            number,
            octets,
        });
    }
}

/// Where the frame stands that a switch takes by the record.
pub fn taker(body: &PlainBody) -> Option<HoldSpot>
    ensures { result ≡ spot_of body.now }
{
    match &body.kind {
        PlainKind::Accepted { device, vl, .. } => Some(HoldSpot {
            device: *device,
            vl: *vl,
        }),
        _ => None,
    }
}
