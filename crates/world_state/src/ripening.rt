ghost use Rattle.std.specs.{Prelude.{◌+◌, ◌<◌, ◌≡◌, ◌≤◌, Some}, VecDeque.{deque_capacity, deque_len}};
ghost use Rattle.net_plan.specs.declared.{ids.DeviceId.DeviceId as DeviceOf, network.Network.Network as NetworkValue};
ghost use Rattle.run_law.specs.machines.Answers.{IsPermanenceOutcomeAt, after_permanence, called};
ghost use Rattle.run_law.specs.machines.Calls.{IsHearing, MayCall, MayRipen, MayTake, StandsFor};
ghost use Rattle.run_law.specs.{machines.Nodes.{Node, ripening}, scenario.Devices.channel_of_link};
ghost use Rattle.world_state.specs.{Keeping.keeps, Ripening.{AreSettledSo, joined_record, judged_so, ripe_record}};

use crate::changes::{Change, put_change};
use crate::contents::{Settled, Waits};
use crate::kept::Kept;
use crate::settled::put_in;
use net_plan::{DeviceId, LinkId};
use run_law::plain::{PlainBody, PlainKind};
use run_law::{Judgement, Machine, Moment, Reason, Ripe, Why};
use std::collections::VecDeque;
use sync_state::State as DeviceState;
use tte_units::Units;
use tte_units::frames::Pcf;

impl<M: Machine + Drop> Kept<M> {
    /// What becomes of a frame that is permanent. A broken device has none.
    pub fn ripen(&mut self, moment: Moment, link: LinkId, frame: &Pcf, point: Units) -> Ripe
        requires { StandsFor (keeps M.stands) self.old
            (λ network device node. MayTake network device node moment link frame.now point) }
        ensures { (network : NetworkValue) (device : DeviceOf) (node : Node)
            → keeps M.stands self.old network device node
            → MayCall network device node moment ripening → IsHearing network device node
            → MayRipen network device node moment link frame.now point
            → IsPermanenceOutcomeAt network device node frame.now point result
            × keeps M.stands self.new network device
            (called moment ripening
            (after_permanence node moment (channel_of_link network link) frame.now point result)) }
    {
        match self {
            Kept::Sound(machine) => machine.ripen(moment, link, frame, point),
            Kept::Out(_, _) => Ripe::Ignored,
        }
    }
}

/// The record of a frame that is judged so.
fn judged(waits: &Waits, verdict: Judgement) -> Settled
    ensures { result ≡ judged_so waits.now verdict }
{
    Settled {
        body: PlainBody {
            kind: PlainKind::Permanent {
                device: waits.device,
                link: waits.link,
                cause: waits.cause,
                point: waits.point,
                verdict,
            },
        },
        frame: Some(waits.frame),
        octets: None,
    }
}

/// The record of a frame that is dropped.
fn dropped(waits: &Waits, reason: Reason) -> Settled
    ensures { result ≡ ripe_record waits.now (Ripe.Dropped reason) }
{
    Settled {
        body: PlainBody {
            kind: PlainKind::Dropped {
                device: waits.device,
                link: waits.link,
                cause: waits.cause,
                reason,
            },
        },
        frame: None,
        octets: None,
    }
}

/// The record of a frame that was permanent.
#[inline(always)]
pub fn record_of(waits: &Waits, ripe: Ripe) -> Settled
    ensures { result ≡ ripe_record waits.now ripe }
{
    match ripe {
        Ripe::Opened => judged(waits, Judgement::Opened),
        Ripe::Joined => judged(waits, Judgement::Joined),
        Ripe::Repeat => judged(waits, Judgement::Repeat),
        Ripe::Within => judged(waits, Judgement::Within),
        Ripe::Outside => judged(waits, Judgement::Outside),
        Ripe::Integrates => judged(waits, Judgement::Integrates),
        Ripe::Ignored => judged(waits, Judgement::Ignored),
        Ripe::Dropped(reason) => dropped(waits, reason),
    }
}

/// The change of state of a device that joins, where a frame tells it the time by the record of this number.
pub fn joined(number: u64, device: DeviceId, ripe: Ripe) -> Option<Change>
    ensures { result ≡ joined_record number device ripe }
{
    if ripe != Ripe::Integrates {
        return None;
    }
    Some(Change {
        device,
        state: DeviceState::Joining,
        cause: number,
        why: Why::Frame,
    })
}

/// Settles what becomes of a frame that was permanent. The first record will have this number.
pub fn settle_ripe(settled: &mut VecDeque<Settled>, number: u64, waits: &Waits, ripe: Ripe)
    requires room { deque_len settled.old + 2 ≤ deque_capacity settled.old }
    ensures { AreSettledSo number waits.now ripe settled.old.items settled.new.items }
{
    put_in(settled, record_of(waits, ripe));
    put_change(settled, joined(number, waits.device, ripe));
}
