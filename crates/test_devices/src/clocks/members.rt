use std::process::Abort;
use sync_state::membership::{Heard, HeardFrame, count, join, one};
use tte_units::Units;
use tte_units::frames::{Channel, Members};

fn frame(members: u32, point: i64) -> HeardFrame {
    HeardFrame {
        cycle: 7,
        members: Members(members),
        point: Units(point),
    }
}

/// Hears frames of these members on channels at points, within their windows or outside.
fn hear(heard: &mut Heard, frames: &[(Channel, u32, i64, bool)]) {
    for (channel, members, point, within) in frames {
        heard.hear(*channel, frame(*members, *point), *within);
    }
}

/// The best frame of the channel is the one with these members and this point.
fn best_is(rt: &impl Abort, heard: &Heard, channel: Channel, members: u32, point: i64) {
    assert!(rt; heard.best(channel) == Some(frame(members, point)));
}

#[test]
fn sets_are_bits(rt: HostRuntime) {
    assert!(rt; [one(0), one(31)] == [Members(1), Members(0x8000_0000)]);
    assert!(rt; [count(Members(0)), count(Members(0xffff_ffff))] == [0, 32]);
    assert!(rt; join(Members(0x5), Members(0x6)) == Members(0x7));
}

const FIRST: &[(Channel, u32, i64, bool)] = &[
    (Channel::A, 0x7, 10, true),
    (Channel::A, 0x3, 90, true),
    (Channel::B, 0xf, 50, true),
    (Channel::A, 0xf, 99, false),
];

const LATER: &[(Channel, u32, i64, bool)] = &[
    (Channel::A, 0xb, 20, true),
    (Channel::A, 0xd, 15, true),
];

#[test]
fn most_members_then_the_latest_point_then_the_last(rt: HostRuntime) {
    let mut heard = Heard::default();
    assert!(rt; heard.best(Channel::A) == None);
    hear(&mut heard, FIRST);
    best_is(&rt, &heard, Channel::A, 0x7, 10);
    hear(&mut heard, LATER);
    best_is(&rt, &heard, Channel::A, 0xb, 20);
    heard.hear(Channel::A, frame(0xe, 20), true);
    best_is(&rt, &heard, Channel::A, 0xe, 20);
    best_is(&rt, &heard, Channel::B, 0xf, 50);
}

#[test]
fn a_channel_qualifies_from_the_threshold_on(rt: HostRuntime) {
    let mut heard = Heard::new();
    assert!(rt; !heard.qualified(Channel::B, 0));
    heard.hear(Channel::B, frame(0x7, -4), true);
    assert!(rt; heard.qualified(Channel::B, 3));
    assert!(rt; !heard.qualified(Channel::B, 4));
    assert!(rt; !heard.qualified(Channel::A, 3));
}

const OUTSIDE: &[(Channel, u32, i64, bool)] = &[
    (Channel::A, 0x1, 5, false),
    (Channel::B, 0x9, 6, false),
    (Channel::A, 0x6, 7, true),
];

#[test]
fn frames_outside_are_kept_as_one_set(rt: HostRuntime) {
    let mut heard = Heard::new();
    hear(&mut heard, OUTSIDE);
    assert!(rt; heard.outside() == Members(0x9));
    heard.clear();
    assert!(rt; heard.outside() == Members(0));
    assert!(rt; heard.best(Channel::A) == None);
    assert!(rt; heard == Heard::new());
}
