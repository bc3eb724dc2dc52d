use std::process::Abort;
use std::test::Fail;
use tte_observers::votes::tmr::Ballot;

fn vote_is(rt: &impl Abort, ballot: &Ballot, wanted: Option<u32>) {
    assert!(rt; ballot.result() == wanted);
}

fn payload_is(rt: &impl Abort, ballot: &Ballot, seat: u32, wanted: Option<&[u8]>) {
    assert!(rt; ballot.payload(seat) == wanted);
}

// The vote where each seat is cast with the octet of its place.
fn vote_anew_is(rt: &impl Abort, ballot: &mut Ballot, octets: [u8; 3], wanted: Option<u32>) {
    ballot.clear();
    ballot.cast(0, &[octets[0]]);
    ballot.cast(1, &[octets[1]]);
    ballot.cast(2, &[octets[2]]);
    vote_is(rt, ballot, wanted);
}

// The octet that each seat is cast with, in the order of the seats, and the vote.
const VOTES: &[([u8; 3], Option<u32>)] = &[
    ([1, 1, 1], Some(0)),
    ([1, 1, 2], Some(0)),
    ([1, 2, 1], Some(0)),
    ([2, 1, 1], Some(1)),
    ([1, 2, 3], None),
];

#[test]
fn two_equal_payloads_are_the_vote(rt: HostRuntime) -> Result<(), Fail> {
    let mut ballot = Ballot::new();
    vote_is(&rt, &ballot, None);
    for (octets, wanted) in VOTES {
        vote_anew_is(&rt, &mut ballot, *octets, *wanted);
    }
    Ok(())
}

// A ballot with a payload, its front, and another of its length.
fn fronts() -> Ballot {
    let mut ballot = Ballot::new();
    ballot.cast(0, &[1, 1]);
    ballot.cast(1, &[1]);
    ballot.cast(2, &[1, 2]);
    ballot
}

#[test]
fn a_front_of_a_payload_is_another_payload(rt: HostRuntime) -> Result<(), Fail> {
    vote_is(&rt, &fronts(), None);
    Ok(())
}

#[test]
fn no_octets_are_a_payload_too(rt: HostRuntime) -> Result<(), Fail> {
    let mut ballot = fronts();
    ballot.clear();
    ballot.cast(0, &[]);
    ballot.cast(1, &[1]);
    ballot.cast(2, &[]);
    vote_is(&rt, &ballot, Some(0));
    Ok(())
}

#[test]
fn a_seat_that_is_not_cast_has_no_payload(rt: HostRuntime) -> Result<(), Fail> {
    let mut ballot = Ballot::new();
    ballot.cast(2, &[7; 1500]);
    payload_is(&rt, &ballot, 2, Some(&[7; 1500][..]));
    payload_is(&rt, &ballot, 0, None);
    payload_is(&rt, &ballot, 1, None);
    payload_is(&rt, &ballot, 3, None);
    payload_is(&rt, &ballot, u32::MAX, None);
    ballot.clear();
    payload_is(&rt, &ballot, 2, None);
    Ok(())
}

#[test]
fn a_seat_that_is_not_cast_has_no_vote(rt: HostRuntime) -> Result<(), Fail> {
    let mut ballot = Ballot::new();
    ballot.cast(2, &[7; 1500]);
    vote_is(&rt, &ballot, None);
    ballot.cast(1, &[7; 1500]);
    vote_is(&rt, &ballot, Some(1));
    ballot.clear();
    vote_is(&rt, &ballot, None);
    Ok(())
}

#[test]
fn a_shorter_payload_stands_over_a_longer_one(rt: HostRuntime) -> Result<(), Fail> {
    let mut ballot = Ballot::new();
    ballot.cast(2, &[7; 1500]);
    ballot.clear();
    ballot.cast(2, &[7; 46]);
    ballot.cast(0, &[7; 46]);
    payload_is(&rt, &ballot, 2, Some(&[7; 46][..]));
    vote_is(&rt, &ballot, Some(0));
    Ok(())
}
