ghost use Rattle.std.specs.Prelude.{◌<◌, ◌^◌, length};

use pcf_codec::{PcfReader, PcfRefusal, TtRefusal, decode_tt, is_pcf};
use std::process::Abort;
use tte_units::frames::{Mac, Members, Pcf, PcfKind, TtHead};

// What a master with member number 0 sends in cycle 7.
const FRAME: [u8; 60] = [
    0x03, 0x00, 0x00, 0x00, 0x00, 0x01, 0x02, 0x00, 0x00, 0x00, 0x00, 0x11, 0x89, 0x1d, 0x00, 0x00,
    0x00, 0x07, 0x00, 0x00, 0x00, 0x01, 0x00, 0x00, 0x00, 0x00, 0x00, 0x00, 0x02, 0x00, 0x00, 0x00,
    0x00, 0x00, 0x00, 0x00, 0x00, 0x00, 0x00, 0x00, 0x00, 0x00, 0x00, 0x00, 0x00, 0x00, 0x00, 0x00,
    0x00, 0x00, 0x00, 0x00, 0x00, 0x00, 0x00, 0x00, 0x00, 0x00, 0x00, 0x00,
];

fn value() -> Pcf {
    Pcf {
        destination: Mac::from_number(0x0300_0000_0001),
        source: Mac::from_number(0x0200_0000_0011),
        cycle: 7,
        members: Members(1),
        priority: 0,
        domain: 0,
        kind: PcfKind::Integration,
        clock: 0,
    }
}

fn takes_in(rt: &impl Abort, reader: &mut PcfReader, octets: &[u8], count: usize)
    requires { length octets.now < 2 ^ 32 }
{
    assert!(rt; reader.feed(octets) == Ok(count));
}

fn gives(rt: &impl Abort, reader: &mut PcfReader, frame: Option<Pcf>) {
    assert!(rt; reader.take() == frame);
}

fn takes_in_octet_by_octet(rt: &impl Abort, reader: &mut PcfReader) {
    for octet in FRAME.iter() {
        gives(rt, reader, None);
        takes_in(rt, reader, &[*octet], 1);
    }
}

#[test]
fn a_frame_comes_in_pieces_of_any_length(rt: HostRuntime) {
    let mut reader = PcfReader::new();
    takes_in_octet_by_octet(&rt, &mut reader);
    gives(&rt, &mut reader, Some(value()));

    let mut twice = [0; 120];
    twice[..60].copy_from_slice(&FRAME);
    twice[60..].copy_from_slice(&FRAME);
    takes_in(&rt, &mut reader, &twice, 60);
    takes_in(&rt, &mut reader, &FRAME, 0);
    gives(&rt, &mut reader, Some(value()));
    takes_in(&rt, &mut reader, &FRAME, 60);
    gives(&rt, &mut reader, Some(value()));
    assert!(rt; reader.finish() == Ok(()));
}

fn refuses(rt: &impl Abort, reader: &PcfReader, refusal: PcfRefusal) {
    assert!(rt; reader.finish() == Err(refusal));
}

#[test]
fn a_reader_keeps_to_its_refusal(rt: HostRuntime) {
    let mut octets = FRAME;
    octets[30] = 1;
    let mut reader = PcfReader::new();
    takes_in(&rt, &mut reader, &octets[..59], 59);
    refuses(&rt, &reader, PcfRefusal::Length(59));
    for _ in 0..2 {
        assert!(rt; reader.feed(&octets[59..]) == Err(PcfRefusal::Reserved(30)));
        refuses(&rt, &reader, PcfRefusal::Reserved(30));
        gives(&rt, &mut reader, None);
    }
}

fn heads(rt: &impl Abort, octets: &[u8], head: Result<TtHead, TtRefusal>)
    requires { length octets.now < 2 ^ 32 }
{
    assert!(rt; decode_tt(octets) == head);
}

#[test]
fn the_head_of_a_time_triggered_frame_is_read(rt: HostRuntime) {
    let head = [3, 4, 5, 6, 0, 1, 2, 0, 0, 0, 0, 0x11, 0x08, 0];
    let mut octets = [0; 1515];
    octets[..14].copy_from_slice(&head);
    let value = TtHead {
        marker: 0x0304_0506,
        id: 1,
        source: Mac::from_number(0x0200_0000_0011),
        ethertype: 0x0800,
        length: 60,
    };
    heads(&rt, &octets[..60], Ok(value));
    heads(&rt, &octets[..59], Err(TtRefusal::Length(59)));
    heads(&rt, &octets, Err(TtRefusal::Length(1515)));
    heads(&rt, &FRAME, Err(TtRefusal::EtherType));
    assert!(rt; is_pcf(&FRAME[..14]) && !is_pcf(&FRAME[..13]) && !is_pcf(&octets));
    octets[12] = 0x05;
    heads(&rt, &octets[..60], Err(TtRefusal::EtherType));
}
