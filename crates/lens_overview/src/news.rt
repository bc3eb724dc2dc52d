//! What each record tells of the rows.
ghost use Rattle.std.specs.Prelude.{◌^◌, ◌≡◌, ◌≤◌, List};
ghost use Rattle.{audit_law.specs.events.Readings.scenario_under, audit_sweep.specs.Indexing.{IsIndex, IsSomeIndex}};
ghost use Rattle.lens_overview.specs.News.{change_at, change_of, kind_of, last_cycle, named_cycle, news_of, reason_kind};
ghost use Rattle.{lens_overview.specs.News.{repeats_by, struck}, lens_svg.specs.Sketching.moment};
ghost use Rattle.net_plan.specs.{Ranges.IsInRange, declared.event.Event.Event};
ghost use Rattle.run_law.specs.records.Happenings.{Happening};

use crate::label::Kind;
use crate::shade::{Shade, shade_of};
use crate::spread::spread_by;
use audit_devices::channel_of_link;
use audit_sweep::Index;
use net_plan::{DeviceId, LinkId, Network, VlId, Way, What};
use run_law::{Note, NoteBody, Reason};
use tte_units::frames::Channel;

/// A copy of a virtual link's frame of a cycle, at a receiver, by a channel.
#[derive(Clone, Copy)]
pub struct Copied {
    pub vl: VlId,
    pub device: DeviceId,
    pub cycle: u32,
    pub channel: Option<Channel>,
}

/// What a record changes.
#[derive(Clone, Copy)]
pub enum Change {
    Nothing,
    /// The device is in another state from now on.
    Turns(DeviceId, Shade),
    /// The way of the link is cut from now on, or is not.
    Cuts(LinkId, Way),
    Heals(LinkId, Way),
    /// A frame of the virtual link goes out in a cycle.
    Sends(VlId, u32),
    /// A frame is delivered.
    Delivers(Copied),
    /// A second copy comes.
    Repeats(Copied),
}

/// What a record tells: in which cycle of world time it stands, what it is counted as, what it changes, and how far
/// apart the clocks are after a correction, in units of 2^-16 ns.
#[derive(Clone, Copy)]
pub struct News {
    pub cycle: u32,
    pub kind: Option<Kind>,
    pub change: Change,
    pub spread: Option<u128>,
}

/// What the record tells, where the records before it told this.
pub(crate) fn news_of(network: &Network, index: &Index, before: &[News], note: &Note) -> News
    requires range { IsInRange network.now }
    requires index { IsSomeIndex network.now index.now }
    requires limit { moment note.now ≤ 2 ^ 60 }
    ensures { (befallen : List Event) (hs : List Happening) → IsIndex network.now befallen hs index.now
        → result ≡ news_of network.now (scenario_under network.now befallen) hs before.now note.now }
{
    let time = note.time.0.unsigned_abs();
    News {
        cycle: (time / network.cycle.amount()) as u32,
        kind: kind_of(&note.body),
        change: change_of(network, before, &note.body),
        spread: spread_by(network, index, time, &note.body),
    }
}

/// What a frame that was dropped for this reason is counted as.
fn reason_kind(reason: Reason) -> Kind
    ensures { result ≡ reason_kind reason }
{
    match reason {
        Reason::Off => Kind::Off,
        Reason::ColdStart => Kind::ColdStart,
        Reason::Domain => Kind::Domain,
        Reason::Member => Kind::Member,
        Reason::Old => Kind::Old,
        Reason::Gate => Kind::Gate,
        Reason::Cycle => Kind::Cycle,
        Reason::Unsynchronised => Kind::Unsynchronised,
        Reason::Unknown => Kind::Unknown,
        Reason::Length => Kind::Length,
        Reason::Early => Kind::Early,
        Reason::Late => Kind::Late,
        Reason::Repeat => Kind::Repeat,
        Reason::RefusedLength(_)
        | Reason::RefusedEtherType
        | Reason::RefusedReserved(_)
        | Reason::RefusedKind(_) => Kind::Refused,
    }
}

/// What a record is counted as, if it is.
fn kind_of(body: &NoteBody) -> Option<Kind>
    ensures { result ≡ kind_of body.now }
{
    match body {
        NoteBody::Event { .. } => Some(Kind::Event),
        NoteBody::Lost { .. } => Some(Kind::Lost),
        NoteBody::Dropped { reason, .. } => Some(reason_kind(*reason)),
        NoteBody::Arrived { .. }
        | NoteBody::Permanent { .. }
        | NoteBody::Compressed { .. }
        | NoteBody::Sent { .. }
        | NoteBody::Corrected { .. }
        | NoteBody::State { .. }
        | NoteBody::Left { .. }
        | NoteBody::TtSent { .. }
        | NoteBody::Accepted { .. }
        | NoteBody::Delivered { .. }
        | NoteBody::Clock { .. } => None,
    }
}

/// What an event changes.
fn struck(what: &What) -> Change
    ensures { result ≡ struck what.now }
{
    match what {
        What::Break(device) => Change::Turns(*device, Shade::Broken),
        What::Cut(link, way) => Change::Cuts(*link, *way),
        What::Heal(link, way) => Change::Heals(*link, *way),
        What::Rate(_, _)
        | What::Wire(_, _, _)
        | What::Hold(_, _, _)
        | What::On(_)
        | What::Send(_, _)
        | What::End => Change::Nothing,
    }
}

/// What a record changes, where the records before it told this.
fn change_of(network: &Network, before: &[News], body: &NoteBody) -> Change
    ensures { result ≡ change_of network.now before.now body.now }
{
    match body {
        NoteBody::Event { line: _, what } => struck(what),
        NoteBody::State { device, state, .. } => Change::Turns(*device, shade_of(*state)),
        NoteBody::TtSent { vl, cycle, .. } => Change::Sends(*vl, *cycle),
        NoteBody::Delivered {
            device,
            link,
            vl,
            cycle,
            ..
        } => Change::Delivers(Copied {
            vl: *vl,
            device: *device,
            cycle: *cycle,
            channel: channel_of_link(network, *link),
        }),
        NoteBody::Dropped {
            device,
            link,
            cause,
            reason: Reason::Repeat,
        } => repeats(network, before, *device, *link, *cause),
        NoteBody::Arrived { .. }
        | NoteBody::Permanent { .. }
        | NoteBody::Compressed { .. }
        | NoteBody::Sent { .. }
        | NoteBody::Corrected { .. }
        | NoteBody::Left { .. }
        | NoteBody::Lost { .. }
        | NoteBody::Accepted { .. }
        | NoteBody::Dropped { .. }
        | NoteBody::Clock { .. } => Change::Nothing,
    }
}

/// The second copy that comes to the device by the link from the record of this number, if that is a dispatch.
fn repeats(network: &Network, before: &[News], device: DeviceId, link: LinkId, cause: u64) -> Change
    ensures { result ≡ repeats_by network.now device link (change_at before.now cause) }
{
    match change_at(before, cause) {
        Some(Change::Sends(vl, cycle)) => Change::Repeats(Copied {
            vl,
            device,
            cycle,
            channel: channel_of_link(network, link),
        }),
        Some(_) | None => Change::Nothing,
    }
}

/// What the record of this number changes; 0 is the number of none.
fn change_at(before: &[News], number: u64) -> Option<Change>
    ensures { result ≡ change_at before.now number }
{
    if number == 0 {
        return None;
    }
    match before.get((number - 1) as usize) {
        Some(news) => Some(news.change),
        None => None,
    }
}

/// The last cycle that the records stand in, or tell of a frame.
pub(crate) fn last_cycle(all: &[News]) -> u32
    ensures { result ≡ last_cycle all.now }
{
    let mut last = 0;
    'all: for news in all {
        last = last.max(news.cycle).max(named_cycle(news.change));
    }
    last
}

/// The cycle of the frame that is delivered or comes once more.
fn named_cycle(change: Change) -> u32
    ensures { result ≡ named_cycle change }
{
    match change {
        Change::Delivers(copied) => copied.cycle,
        Change::Repeats(copied) => copied.cycle,
        Change::Nothing
        | Change::Turns(_, _)
        | Change::Cuts(_, _)
        | Change::Heals(_, _)
        | Change::Sends(_, _) => 0,
    }
}
