ghost use Rattle.std.specs.Prelude.{◌∷◌, ◌≡◌, ◌≤◌, IsPermutation, None, false, true};
ghost use Rattle.net_plan.specs.{Ranges.IsInRange, declared.network.Network.Network as NetworkValue};
ghost use Rattle.run_law.specs.{plain.Bodies.body_of, records.Happenings.with_clock};
ghost use Rattle.run_law.specs.records.Ranks.{rank};
ghost use Rattle.world_state.specs.Leaving.{departed, departure_by, departure_of, port_entry};
ghost use Rattle.world_state.specs.Sound.{AreUnderWay, rank_of};
ghost use Rattle.world_state.specs.{declared.queue.DueAt.DueAt as PlaceOf, queue.Places.IsFirst};

use crate::contents::{Content, Settled};
use crate::queue::{DueAt, UnderWay};
use net_plan::{DeviceId, LinkId, Network};
use run_law::Reason;
use run_law::plain::{PlainBody, PlainKind};
use std::marker::Model;
use tte_units::frames::Pcf;

/// Takes the frame out that is at a port, and the first of all that is under way; and what its device's clock read
/// when it gave the frame to the link.
#[inline(always)]
pub fn take_port(under_way: &mut UnderWay<Content>, place: DueAt) -> (Pcf, u64)
    requires first { IsFirst under_way.old.entries place }
    requires sound { (network : NetworkValue) × AreUnderWay network under_way.old.entries }
    requires port { place.rank ≡ 8 }
    ensures taken { IsPermutation under_way.old.entries
        (record { place = place; content = Content.Port result.0 result.1 } ∷ under_way.new.entries) }
    ensures room { under_way.old.room ≤ under_way.new.room }
{
    let Some(first) = under_way.take_first() else {
        unreachable!()
    };
    port_of(first.content)
}

/// What is at a port.
fn port_of(content: Content) -> (Pcf, u64)
    requires { rank_of content ≡ 8 }
    ensures { content ≡ Content.Port result.0 result.1 }
{
    match content {
        Content::Port(frame, given) => (frame, given),
        Content::Wire(_) => unreachable!(),
    }
}

/// What becomes of a frame at a port that leaves.
#[derive(Clone, Copy)]
enum Fate {
    /// It leaves with this transparent clock.
    Leaves(u64),
    /// It has been on its way for too long.
    TooOld,
    /// Its way is cut.
    OnCutWay,
}

/// A frame at a port that leaves: it is seen as the record of it.
#[derive(Drop)]
pub struct LeavingFrame {
    place: DueAt,
    frame: Pcf,
    given: u64,
    fate: Fate,
}

impl Model for LeavingFrame {
    ghost use Rattle.world_state.specs.Leaving.{departed_so, departure_of, port_entry};
    ghost use Rattle.world_state.specs.declared.contents.Settled.{Settled};

    ghost Value = { Settled };

    ghost view = { λ f. departed_so (port_entry f.place f.frame f.given) (departure_of f.fate) };
}

/// What becomes of it, where its device's clock reads this, and its way is cut or not.
#[inline(always)]
fn fate_of(network: &Network, reading: u64, cut: bool, frame: &Pcf, given: u64) -> Fate
    requires { IsInRange network.now }
    ensures { (place : PlaceOf) → departure_of result
        ≡ departure_by network.now reading cut (port_entry place frame.now given) }
{
    let clock = u128::from(frame.clock) + u128::from(reading.saturating_sub(given));
    if clock > u128::from(network.dmax.amount()) {
        return Fate::TooOld;
    }
    if cut {
        return Fate::OnCutWay;
    }
    Fate::Leaves(clock as u64)
}

/// A frame at a port that leaves.
#[inline(always)]
pub fn departed(
    network: &Network,
    reading: u64,
    cut: bool,
    place: DueAt,
    frame: Pcf,
    given: u64,
) -> LeavingFrame
    requires { IsInRange network.now }
    ensures { result ≡ departed network.now reading cut (port_entry place frame given) }
{
    let fate = fate_of(network, reading, cut, &frame, given);
    LeavingFrame {
        place,
        frame,
        given,
        fate,
    }
}

impl LeavingFrame {
    /// Whether it goes on its wire.
    #[inline(always)]
    pub fn leaves(&self) -> bool
        ensures yes { result ≡ true → rank self.now.body ≡ 8 }
        ensures no { result ≡ false → rank self.now.body ≡ 8 → ⊥ }
    {
        match self.fate {
            Fate::Leaves(_) => true,
            Fate::TooOld | Fate::OnCutWay => false,
        }
    }

    /// The record of it.
    #[inline(always)]
    pub fn record(&self) -> Settled
        ensures { result ≡ self.now }
    {
        let device = DeviceId(self.place.device);
        let link = LinkId(self.place.link);
        let cause = self.place.cause;
        match self.fate {
            Fate::Leaves(clock) => Settled {
                body: PlainBody {
                    kind: PlainKind::Left {
                        device,
                        link,
                        cause,
                        clock,
                    },
                },
                frame: Some(with_clock(self.frame, clock)),
                octets: None,
            },
            Fate::TooOld => dropped(PlainKind::Dropped {
                device,
                link,
                cause,
                reason: Reason::Old,
            }),
            Fate::OnCutWay => dropped(PlainKind::Lost {
                device,
                link,
                cause,
            }),
        }
    }
}

fn dropped(kind: PlainKind) -> Settled
    ensures { result ≡ record { body = body_of kind; frame = None; octets = None } }
{
    Settled {
        body: PlainBody { kind },
        frame: None,
        octets: None,
    }
}

/// The frame with this transparent clock.
fn with_clock(frame: Pcf, clock: u64) -> Pcf
    ensures { result ≡ with_clock clock frame }
{
    Pcf { clock, ..frame }
}
