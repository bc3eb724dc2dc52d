ghost use Rattle.std.specs.Prelude.{◌<◌, ◌^◌, ◌∷◌, ◌≡◌, ◌≤◌, List, [], length, map, ℕ};
ghost use Rattle.{net_plan.specs.{Belonging.HasLink, Ranges.IsInRange}, run_law.specs.records.Ranks.rank};
ghost use Rattle.pcf_codec.specs.Encoded.{encoded};
ghost use Rattle.{run_law.specs.control.Wires.signal_of, tte_observers.specs.captures.pcap.Layout.most_written};
ghost use Rattle.{run_law.specs.scenario.Ways.{is_way_of, way_from}, world_state.specs.Views.{octets_of, signal_as}};
ghost use Rattle.tte_observers.specs.captures.wires.{Packets.{is_sent_on, packet_at}, Seeing.{IsSpelt, PutsAll}};

use crate::captures::pcap::put_packet;
use device_rules::frames::MadeFrame;
use device_rules::way_from;
use net_plan::{LinkId, Network, Way};
use pcf_codec::{PCF_LENGTH, decode, encode};
use run_law::is_way_of;
use run_law::plain::{PlainBody, PlainKind};
use tte_io::Sink;
use tte_units::frames::Pcf;
use world_drive::Cut;
use world_state::contents::{Signal, Timed};
use world_state::packets::Packet;

/// How many units of time a microsecond has.
const MICRO: u64 = 65_536_000;

/// How many microseconds a second has.
const SECOND: u64 = 1_000_000;

/// Does the device of a record send its frame on this way of this link?
pub(crate) fn is_sent_on(network: &Network, body: &PlainBody, link: LinkId, way: Way) -> bool
    requires { HasLink network.now link }
    ensures value { result ≡ is_sent_on network.now link way body.now }
    // It is the record of no event.
    ensures behind { 1 < rank body.now }
{
    match &body.kind {
        PlainKind::Left {
            device,
            link: other,
            ..
        }
        | PlainKind::TtSent {
            device,
            link: other,
            ..
        } => is_way_of(link, way, *other, way_from(network, *device, *other)),
        _ => false,
    }
}

/// Puts the packet of octets that are put on a way at a time.
pub(crate) fn put_frame<K: Sink>(time: u64, octets: &[u8], out: &mut K) -> Result<(), Cut>
    requires limit { time ≤ 2 ^ 60 }
    requires short { length octets.now ≤ most_written }
    ensures { PutsAll K.Sink (packet_at time octets.now ∷ []) result out.old out.new }
{
    let micros = time / MICRO;
    let seconds = (micros / SECOND) as u32;
    let rest = (micros % SECOND) as u32;
    match put_packet(seconds, rest, octets, out) {
        Ok(()) => Ok(()),
        Err(_) => Err(Cut::WriteFault),
    }
}

/// Puts the packets of frames that are put on a way at a time, in their order.
pub(crate) fn put_frames<K: Sink>(time: u64, frames: &[Packet], out: &mut K) -> Result<(), Cut>
    requires limit { time ≤ 2 ^ 60 }
    ensures { PutsAll K.Sink (map (packet_at time) frames.now) result out.old out.new }
{
    'frames: for frame in frames {
        match put_frame(time, frame.as_slice(), out) {
            Ok(()) => (),
            Err(cut) => return Err(cut),
        }
    }
    Ok(())
}

/// Puts the packet of a control frame, which is spelt with zero padding.
fn put_control<K: Sink>(time: u64, frame: &Pcf, out: &mut K) -> Result<(), Cut>
    requires limit { time ≤ 2 ^ 60 }
    ensures { PutsAll K.Sink (packet_at time (encoded frame.now) ∷ []) result out.old out.new }
{
    let mut octets = [0; PCF_LENGTH];
    encode(frame, &mut octets);
    put_frame(time, &octets, out)
}

/// Puts the packet of a frame of the schedule, which is made in `made` where its sender made it.
fn put_timed<K: Sink>(
    network: &Network,
    time: u64,
    frame: &Timed,
    made: &mut MadeFrame,
    out: &mut K,
) -> Result<(), Cut>
    requires in_range { IsInRange network.now }
    requires limit { time ≤ 2 ^ 60 }
    ensures { PutsAll K.Sink (packet_at time (octets_of network.now frame.now) ∷ []) result out.old out.new }
{
    match frame {
        Timed::Made(vl, cycle) => {
            made.write(network, *vl, *cycle);
            put_frame(time, made.as_slice(), out)
        }
        Timed::Sent(octets) => put_frame(time, octets.as_slice(), out),
    }
}

/// Puts the packet of octets that are a control frame, which is spelt anew, or any others.
fn put_octets<K: Sink>(time: u64, octets: &[u8], out: &mut K) -> Result<(), Cut>
    requires limit { time ≤ 2 ^ 60 }
    requires short { length octets.now ≤ most_written }
    ensures { (line : List ℕ) × PutsAll K.Sink (line ∷ []) result out.old out.new
        × ((spelt : List ℕ) → IsSpelt (signal_of octets.now) spelt → line ≡ packet_at time spelt) }
{
    match decode(octets) {
        Ok(frame) => put_control(time, &frame, out),
        Err(_) => put_frame(time, octets, out),
    }
}

/// Puts the packet of what is on a wire.
#[inline(never)]
pub(crate) fn put_signal<K: Sink>(
    network: &Network,
    time: u64,
    signal: &Signal,
    made: &mut MadeFrame,
    out: &mut K,
) -> Result<(), Cut>
    requires in_range { IsInRange network.now }
    requires limit { time ≤ 2 ^ 60 }
    ensures { (line : List ℕ) × PutsAll K.Sink (line ∷ []) result out.old out.new
        × ((spelt : List ℕ) → IsSpelt (signal_as network.now signal.now) spelt → line ≡ packet_at time spelt) }
{
    match signal {
        Signal::Control(frame) => put_control(time, frame, out),
        Signal::Timed(frame) => put_timed(network, time, frame, made, out),
        Signal::Octets(octets) => put_octets(time, octets.as_slice(), out),
    }
}
