//! The octets that are shown by what is kept of a record.

ghost use Rattle.std.specs.Prelude.{◌≡◌};
ghost use Rattle.{device_rules.specs.frames.traced.Keeping.{IsHeld, kept_shown}, run_law.specs.records.Frames.tt_frame};
ghost use Rattle.{net_plan.specs.Ranges.IsInRange, pcf_codec.specs.Encoded.encoded};

use crate::frames::MadeFrame;
use crate::frames::traced::OctetsOfRecord;
use crate::frames::traced::keeping::piece_in;
use crate::frames::traced::kept::KeptFrame;
use net_plan::{Network, VlId};
use pcf_codec::{PCF_LENGTH, encode};
use tte_units::frames::Pcf;

/// The spelling of a control frame, with zero padding.
fn spelling(frame: &Pcf) -> OctetsOfRecord
    ensures { result ≡ encoded frame.now }
{
    let mut octets = [0; PCF_LENGTH];
    encode(frame, &mut octets);
    OctetsOfRecord::new(&octets)
}

/// The frame of the virtual link in the cycle; none where the network has no such virtual link.
fn made(network: &Network, vl: VlId, cycle: u32) -> OctetsOfRecord
    requires { IsInRange network.now }
    ensures { result ≡ tt_frame network.now vl cycle }
{
    if vl.0 as usize >= network.vl.as_slice().len() {
        return OctetsOfRecord::new(&[]);
    }
    let mut frame = MadeFrame::new();
    frame.write(network, vl, cycle);
    OctetsOfRecord::new(frame.as_slice())
}

/// The octets that are shown.
pub(crate) fn shown(network: &Network, pool: &[u8], kept: KeptFrame) -> Option<OctetsOfRecord>
    requires range { IsInRange network.now }
    requires held { IsHeld pool.now kept }
    ensures { result ≡ kept_shown network.now pool.now kept }
{
    match kept {
        KeptFrame::Control(frame) => Some(spelling(&frame)),
        KeptFrame::Made(vl, cycle) => Some(made(network, vl, cycle)),
        KeptFrame::Send(piece) | KeptFrame::Came(piece) => Some(OctetsOfRecord::new(piece_in(
            pool, piece,
        ))),
        KeptFrame::Nothing | KeptFrame::Silent(_) => None,
    }
}
