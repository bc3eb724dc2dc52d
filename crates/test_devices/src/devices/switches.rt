ghost use Rattle.std.specs.Prelude.{◌≡◌, IfOk, IfSome, ◌^◌};
ghost use Rattle.switch_ports.specs.{Leaving.{IsFit, IsHeldFit}, Standpoints.IsSiteInRange};

use device_rules::least_key::{Keys, NO_KEY};
use net_plan::{LinkId, RowId, VlId};
use run_law::{Arrival, Reason};
use std::alloc::{AllocError, Global};
use std::process::Abort;
use std::test::Fail;
use switch_ports::{Departure, Held, Peer, Port, Site, Standpoint, SwitchRow, TakenFrameAt};
use sync_state::{State, SyncPlan};
use tte_units::Units;
use tte_units::frames::{Channel, Mac, Members, Pcf, PcfKind};

const DMAX: i64 = 3_276_800_000;

const PRECISION: i64 = 1_048_576_000;

// A relay of the worked network whose link 0 leads down to a client.
fn relay(alloc: Global) -> Result<Site, AllocError>
    ensures { IfOk result IsSiteInRange }
{
    let mut ports = Vec::new(alloc);
    ports.push(Port {
        peer: Peer::Client,
        wire: Units(32_768_000),
        channel: Some(Channel::A),
    })?;
    Ok(Site {
        is_relay: true,
        channel: Channel::A,
        frame: Pcf {
            destination: Mac::from_number(0x0300_0000_0001),
            source: Mac::from_number(0x0200_0000_0021),
            cycle: 0,
            members: Members(0),
            priority: 0,
            domain: 0,
            kind: PcfKind::Integration,
            clock: 0,
        },
        plan: SyncPlan {
            cycle_length: Units(131_072_000_000),
            expected: Units(2 * DMAX + 2 * PRECISION + 65_536_000),
            threshold: 3,
        },
        dmax: Units(DMAX),
        precision: Units(PRECISION),
        correction: Units(18_350_080_000),
        calc: Units(65_536_000),
        marker: 0x0304_0506,
        ports,
    })
}

#[test]
fn no_control_frame_comes_from_a_client(rt: HostRuntime) -> Result<(), Fail> {
    let at = Standpoint {
        state: State::Synchronised,
        reading: Units(131_072_000_000),
        adjustment: Units(0),
    };
    let frame = Pcf {
        destination: Mac::from_number(0x0300_0000_0001),
        source: Mac::from_number(0x0200_0000_0015),
        cycle: 1,
        members: Members(1),
        priority: 0,
        domain: 0,
        kind: PcfKind::Integration,
        clock: 0,
    };
    let found = relay(rt.alloc())?.frame_arrival(&at, LinkId(0), &frame);
    assert!(rt; found == Arrival::Dropped(Reason::Member));
    Ok(())
}

// A row that leaves by a link and has a place, with what it holds and what it awaits.
fn departure(link: u8, place: u8, held: Option<Held>, awaited: Option<Held>) -> Departure
    requires held { IfSome held IsHeldFit }
    requires awaited { IfSome awaited IsHeldFit }
    ensures { IsFit result }
{
    let of = SwitchRow {
        row: RowId(7),
        link: LinkId(u32::from(link)),
        vl: VlId(5),
        offset: 500,
        period: 2,
        phase: 1,
        place: usize::from(place),
        before: None,
    };
    Departure { of, held, awaited }
}

fn held(cycle: u32, value: u16) -> Held
    ensures { IsHeldFit result }
{
    Held {
        cycle,
        value: Units(i64::from(value)),
    }
}

fn taking(cycle: u32, at: i64) -> TakenFrameAt
    ensures { result.cycle ≡ cycle }
{
    TakenFrameAt {
        vl: VlId(5),
        cycle,
        at: Units(at),
    }
}

const CYCLE: Units = Units(10_000);

#[test]
fn a_row_dispatches_what_is_taken_before_its_place(rt: HostRuntime) {
    let row = departure(2, 1, None, None).of;
    let dispatched = [
        row.held(CYCLE, &taking(3, 30_499)),
        row.held(CYCLE, &taking(3, 30_500)),
        row.held(CYCLE, &taking(2, 20_100)),
        row.held(CYCLE, &taking(0, 100)),
    ];
    assert!(rt; dispatched == [Some(held(3, 30_500)), None, None, None]);
}

// What the row holds and what it awaits, where a frame of cycle 3 is taken in the place of an awaited one.
fn taken_anew(at: i64) -> (Option<Held>, Option<Held>) {
    let first = Some(held(1, 10_500));
    let mut departure = departure(2, 1, first, first);
    departure.take(CYCLE, &taking(3, at), Units(0));
    (departure.held, departure.awaited)
}

#[test]
fn a_new_frame_takes_the_place_of_the_last(rt: HostRuntime) {
    let last = Some(held(3, 30_500));
    assert!(rt; [taken_anew(30_400), taken_anew(30_600)] == [(last, last), (None, None)]);
}

#[test]
fn a_correction_tells_anew_what_is_awaited(rt: HostRuntime) {
    let held = Some(held(3, 30_500));
    let mut departure = departure(2, 1, held, None);
    departure.reopen(Units(30_499));
    assert!(rt; departure.awaited == held);
    departure.reopen(Units(30_500));
    assert!(rt; departure.awaited == None && departure.held == held);
}

// The key of a row that leaves by a link, has a place, and awaits a frame of this value.
fn key(link: u8, place: u8, value: u16) -> u128 {
    departure(link, place, Some(held(1, 10_500)), Some(held(1, value))).key()
}

// The key of the same row where it awaits none.
fn key_of_none(link: u8, place: u8) -> u128 {
    departure(link, place, Some(held(1, 10_500)), None).key()
}

#[test]
fn rows_dispatch_by_values_links_and_places(rt: HostRuntime) {
    let next = key(2, 1, 10_500);
    let sooner = [key(3, 1, 10_499), key(1, 4, 10_500), key(2, 0, 10_500)];
    for soon in sooner {
        assert!(rt; soon < next);
    }
    assert!(rt; next < NO_KEY && key_of_none(2, 1) == NO_KEY);
}

fn has_least(rt: &impl Abort, keys: &Keys, key: u128) {
    assert!(rt; keys.least() == key);
}

#[test]
fn the_least_key_is_at_hand(rt: HostRuntime) -> Result<(), Fail> {
    let mut keys = Keys::new(rt.alloc(), 5)?;
    has_least(&rt, &keys, NO_KEY);
    keys.set(3, 500);
    keys.set(4, 300);
    keys.set(0, 400);
    has_least(&rt, &keys, 300);
    keys.set(4, NO_KEY);
    has_least(&rt, &keys, 400);
    keys.set(0, 600);
    has_least(&rt, &keys, 500);
    Ok(())
}

#[test]
fn one_place_has_the_least_key_and_no_place_none(rt: HostRuntime) -> Result<(), Fail> {
    let mut keys = Keys::new(rt.alloc(), 1)?;
    keys.set(0, 500);
    assert!(rt; keys.least() == 500);
    keys.set(0, NO_KEY);
    assert!(rt; keys.least() == NO_KEY && Keys::new(rt.alloc(), 0)?.least() == NO_KEY);
    Ok(())
}
