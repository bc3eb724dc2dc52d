ghost use Rattle.std.specs.Prelude.{◌≡◌, ◌^◌, ◌≤ℤ◌, pos, neg_ℤ, IfSome};

use std::process::Abort;
use sync_state::membership::{Heard, HeardFrame};
use sync_state::{State, Sync, SyncPlan, Verdict};
use tte_units::Units;
use tte_units::frames::{Channel, Members};

const PLAN: SyncPlan = SyncPlan {
    cycle_length: Units(131_072_000_000),
    expected: Units(8_716_288_000),
    threshold: 3,
};

fn frame(cycle: u32, members: u32, point: i64) -> HeardFrame {
    HeardFrame {
        cycle,
        members: Members(members),
        point: Units(point),
    }
}

/// Looks whether a best frame is as early as the frames of these tests.
fn look(rt: &impl Abort, best: Option<HeardFrame>)
    ensures low { IfSome best (λ f. neg_ℤ (pos (2 ^ 50)) ≤ℤ f.point.0) }
    ensures high { IfSome best (λ f. f.point.0 ≤ℤ pos (2 ^ 50)) }
{
    if let Some(frame) = best {
        assert!(rt; -(1 << 50) <= frame.point.0 && frame.point.0 <= 1 << 50);
    }
}

/// Comes to the next correction point, among the first ten.
fn reach(rt: &impl Abort, sync: &mut Sync, heard: &Heard) -> Verdict
    requires cycle { sync.old.plan.cycle_length.0 ≡ pos 131072000000 }
    requires expected { sync.old.plan.expected.0 ≡ pos 8716288000 }
{
    look(rt, heard.best(Channel::A));
    look(rt, heard.best(Channel::B));
    let adjustment = sync.adjustment();
    assert!(rt; -(1 << 50) <= adjustment.0 && adjustment.0 <= 1 << 50);
    let number = sync.next_correction().expect(rt, "a correction point");
    assert!(rt; number <= 10);
    sync.at_correction(heard)
}

/// What was heard of frames of these cycles and members on channels at points, within their windows or outside.
fn heard_of(frames: &[(Channel, u32, u32, i64, bool)]) -> Heard {
    let mut heard = Heard::new();
    for (channel, cycle, members, point, within) in frames {
        heard.hear(*channel, frame(*cycle, *members, *point), *within);
    }
    heard
}

/// What a device that begins on comes to at its first correction point, and its state behind.
fn corrected(rt: &impl Abort, heard: &Heard) -> (Verdict, State) {
    let mut sync = Sync::new(PLAN, Some(Units(0)));
    let verdict = reach(rt, &mut sync, heard);
    (verdict, sync.state())
}

#[test]
fn a_device_outnumbered_from_outside_integrates_again(rt: HostRuntime) {
    let mut heard = heard_of(&[
        (Channel::A, 1, 0x7, 139_788_288_000, true),
        (Channel::B, 1, 0x18, 139_788_288_000, true),
        (Channel::B, 1, 0x3, 9, false),
    ]);
    let found = corrected(&rt, &heard);
    assert!(rt; found == (Verdict::Corrected(Units(0)), State::Synchronised));
    heard.hear(Channel::A, frame(1, 0x6, 9), false);
    assert!(rt; corrected(&rt, &heard) == (Verdict::AsyncClique, State::Integrating));
}
