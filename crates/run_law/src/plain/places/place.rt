ghost use Rattle.std.specs.Prelude.{◌↔◌, ◌∷◌, ◌≡◌, IsTrue, [], get_or, ℕ};
ghost use Rattle.tte_units.specs.declared.frames.members.Members.{Members as MembersValue};
ghost use Rattle.run_law.specs.{declared.judgement.{Judgement.Judgement, Why.Why}, records.Ranks.{place_at, sign}};
ghost use Rattle.run_law.specs.{plain.{Bodies.body_of, Places.number_of}, records.Order.is_before};
ghost use Rattle.sync_state.specs.declared.state.State.{State};
ghost use Rattle.tte_units.specs.declared.units.Units.{Units as UnitsValue};
ghost use Rattle.run_law.specs.declared.note.NoteBody.TheVariants as notes;

use crate::NoteBody;
use crate::plain::apart::EventOrPlain;
use crate::plain::bodies::PlainKind;
use crate::plain::places::numbers::Numbers;
use crate::plain::places::rank::Rank;
use net_plan::{DeviceId, LinkId, VlId};
use std::marker::Model;
use tte_units::Units;

/// Where a record stands in the order of a report: its time, the rank of its kind, and numbers of its own.
#[derive(Drop)]
pub struct Place {
    numbers: Numbers,
}

impl Model for Place {
    ghost use Rattle.std.specs.Prelude.{ℕ, List, take};
    ghost use Rattle.run_law.specs.plain.Places.{IsPadded, numbers_of};

    ghost Value = { List ℕ };

    ghost view = { λ p. take p.numbers.count (numbers_of p.numbers) };

    ghost invariant = { λ p. IsPadded p.numbers.count (numbers_of p.numbers) };
}

impl Place {
    /// Before all records of the time and behind all earlier ones.
    pub fn of_time(time: u64) -> Place
        ensures { result ≡ time ∷ [] }
    {
        Place {
            numbers: Numbers::with(1, time, 0, 0),
        }
    }

    /// Before all records of the time and this rank or a higher one.
    pub fn of_rank(time: u64, rank: Rank) -> Place
        ensures { result ≡ time ∷ number_of rank ∷ [] }
    {
        Place {
            numbers: Numbers::with(2, time, rank.number(), 0),
        }
    }

    /// Before all records of the time and this rank that are of the device or of one behind it.
    pub fn of_device(time: u64, rank: Rank, device: DeviceId) -> Place
        ensures { result ≡ time ∷ number_of rank ∷ device.0 ∷ [] }
    {
        Place::by_one(time, rank, u64::from(device.0))
    }

    /// That of the record of this rank that the device, its link and a cause tell apart.
    pub fn of_cause(time: u64, rank: Rank, device: DeviceId, link: LinkId, cause: u64) -> Place
        ensures { result ≡ time ∷ number_of rank ∷ device.0 ∷ link.0 ∷ cause ∷ [] }
    {
        Place {
            numbers: Numbers {
                second: u64::from(link.0),
                third: cause,
                ..Numbers::with(5, time, rank.number(), u64::from(device.0))
            },
        }
    }

    /// That of a record of the time that says this; `members` are those of its frame, or 0.
    pub fn of(time: u64, members: u32, body: &NoteBody) -> Place
        ensures { result ≡ place_at time members body.now }
    {
        match EventOrPlain::of(body) {
            EventOrPlain::Event { line, .. } => Place::by_one(time, Rank::Event, line),
            EventOrPlain::Plain(kind) => Place::of_plain(time, members, &kind),
        }
    }

    /// That of a record of the time that says this of no event; `members` are those of its frame, or 0.
    pub fn of_plain(time: u64, members: u32, kind: &PlainKind) -> Place
        ensures { result ≡ place_at time members (body_of kind.now) }
    {
        let rank = Rank::of_plain(kind);
        match kind {
            PlainKind::Arrived {
                device,
                link,
                cause,
                ..
            }
            | PlainKind::Left {
                device,
                link,
                cause,
                ..
            }
            | PlainKind::Lost {
                device,
                link,
                cause,
            }
            | PlainKind::Accepted {
                device,
                link,
                cause,
                ..
            }
            | PlainKind::Delivered {
                device,
                link,
                cause,
                ..
            }
            | PlainKind::Dropped {
                device,
                link,
                cause,
                ..
            } => Place::of_cause(time, rank, *device, *link, *cause),
            PlainKind::Permanent {
                device,
                link,
                cause,
                point,
                ..
            } => { Place::of_permanence(time, *device, *point, members, *link, *cause) }
            PlainKind::Compressed {
                device,
                opened,
                at,
                cycle,
                members,
                ..
            } => { Place::of_emission(time, *device, *opened, *at, *cycle, u64::from(members.0)) }
            PlainKind::Sent { device, cycle } => Place::by_two(
                time,
                rank,
                *device,
                u64::from(*cycle),
            ),
            PlainKind::State { device, cause, .. } => Place::by_two(time, rank, *device, *cause),
            PlainKind::TtSent {
                device,
                link,
                cause,
                vl,
                cycle,
            } => { Place::of_dispatch(time, *device, *link, *cause, *vl, u64::from(*cycle)) }
            PlainKind::Corrected { device, .. } | PlainKind::Clock { device, .. } => {
                Place::of_device(time, rank, *device)
            }
        }
    }

    /// That of a frame that is permanent, or dropped, at its point: before it is all that bears on its judgement.
    pub fn of_permanence(
        time: u64,
        device: DeviceId,
        point: Units,
        members: u32,
        link: LinkId,
        cause: u64,
    ) -> Place
        ensures { (verdict : Judgement)
            → result ≡ place_at time members (notes.Permanent device link cause point verdict) }
    {
        Place {
            numbers: Numbers {
                second: point.0.unsigned_abs(),
                third: u64::from(members),
                fourth: link.0,
                fifth: cause,
                ..Numbers::with(7, time, Rank::Permanent.number(), u64::from(device.0))
            },
        }
    }

    /// That of an emission of a compression master. The members may be more than 32 bits.
    pub fn of_emission(
        time: u64,
        device: DeviceId,
        opened: Units,
        at: Units,
        cycle: u32,
        members: u64,
    ) -> Place
        ensures { (of_frame : ℕ) (of_masters : MembersValue) (verdict : Judgement) → of_masters.0 ≡ members
            → result ≡ place_at time of_frame (notes.Compressed device opened at cycle of_masters verdict) }
    {
        Place {
            numbers: Numbers {
                second: opened.0.unsigned_abs(),
                third: at.0.unsigned_abs(),
                fourth: cycle,
                fifth: members,
                sixth: sign(opened),
                seventh: sign(at),
                ..Numbers::with(9, time, Rank::Compressed.number(), u64::from(device.0))
            },
        }
    }

    /// That of the record that the device sends its frame of the cycle.
    pub fn of_sending(time: u64, device: DeviceId, cycle: u64) -> Place
        ensures { (members : ℕ) → result ≡ place_at time members (notes.Sent device cycle) }
    {
        Place::by_two(time, Rank::Sent, device, cycle)
    }

    /// That of the record of a correction of the device's clock.
    pub fn of_correction(time: u64, device: DeviceId) -> Place
        ensures { (members cycle : ℕ) (by adjustment : UnitsValue)
            → result ≡ place_at time members (notes.Corrected device cycle by adjustment) }
    {
        Place::of_device(time, Rank::Corrected, device)
    }

    /// That of the record of a change of the device's state that comes from no record.
    pub fn of_clique(time: u64, device: DeviceId) -> Place
        ensures { (members : ℕ) (state : State) (why : Why)
            → result ≡ place_at time members (notes.State device state 0 why) }
    {
        Place::by_two(time, Rank::State, device, 0)
    }

    /// That of the record that a frame is lost on the device's way on the link.
    pub fn of_loss(time: u64, device: DeviceId, link: LinkId, cause: u64) -> Place
        ensures { (members : ℕ) → result ≡ place_at time members (notes.Lost device link cause) }
    {
        Place::of_cause(time, Rank::Lost, device, link, cause)
    }

    /// That of the record that the device dispatches a row's frame of the cycle on the link.
    pub fn of_dispatch(
        time: u64,
        device: DeviceId,
        link: LinkId,
        cause: u64,
        vl: VlId,
        cycle: u64,
    ) -> Place
        ensures { (members : ℕ) → result ≡ place_at time members (notes.TtSent device link cause vl cycle) }
    {
        Place {
            numbers: Numbers {
                second: u64::from(link.0),
                third: cause,
                fourth: vl.0,
                fifth: cycle,
                ..Numbers::with(7, time, Rank::TtSent.number(), u64::from(device.0))
            },
        }
    }

    fn by_two(time: u64, rank: Rank, device: DeviceId, second: u64) -> Place
        ensures { result ≡ time ∷ number_of rank ∷ device.0 ∷ second ∷ [] }
    {
        Place {
            numbers: Numbers {
                second,
                ..Numbers::with(4, time, rank.number(), u64::from(device.0))
            },
        }
    }

    fn by_one(time: u64, rank: Rank, first: u64) -> Place
        ensures { result ≡ time ∷ number_of rank ∷ first ∷ [] }
    {
        Place {
            numbers: Numbers::with(3, time, rank.number(), first),
        }
    }

    /// The time of the records there.
    pub fn time(&self) -> u64
        ensures { result ≡ get_or self.now 0 0 }
    {
        self.numbers.time
    }

    /// Is it before the other?
    pub fn is_before(&self, other: &Place) -> bool
        ensures { result ≡ is_before self.now other.now }
    {
        self.numbers.are_before(&other.numbers)
    }

    /// Is it the other?
    pub fn is_same(&self, other: &Place) -> bool
        ensures { IsTrue result ↔ (self.now ≡ other.now) }
    {
        !self.is_before(other) && !other.is_before(self)
    }
}

/// 1 for a number below 0, and else 0.
fn sign(units: Units) -> u8
    ensures { result ≡ sign units.0 }
{
    if units.0 < 0 { 1 } else { 0 }
}
