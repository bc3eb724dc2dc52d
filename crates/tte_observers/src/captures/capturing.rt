ghost use Rattle.std.specs.Prelude.{◌≡◌, ◌≢◌, ◌≤◌, length};
ghost use Rattle.tte_observers.specs.captures.pcap.{Layout.head_length, Reading.opened};
ghost use Rattle.tte_forms.specs.{Answering.{Answers, Gives}, Faults.{HasCause, PutFailed, ReadFailed}, Putting.Over};
ghost use Rattle.tte_observers.specs.captures.Answer.{IsCaptureStatus, capture_answer, capture_limit, opened_answer};
ghost use Rattle.tte_observers.specs.captures.{Answer.packets_answer, Law.{ShowsOctets, ShowsPackets}};
ghost use Rattle.tte_forms.specs.Taking.{TakesUpTo};

use crate::captures::capture_line::{
    make_head_refusal_line, make_packet_line, make_packet_refusal_line,
};
use crate::captures::pcap::{CaptureHead, next_packet, open_capture};
use std::alloc::Global;
use tte_forms::{Status, end_with, put_last};
use tte_io::{LineText, ReadAll, Sink, Source, read_all};

/// How many octets a capture has at most.
const LIMIT: u64 = 16_777_216;

/// The place of the first packet.
const FIRST: u32 = 24;

/// Shows the packets of a capture, a line for each, and the control frames among them. A header and a packet that are
/// none are refused, and the first of these is the last line.
///
/// `capture_law` says which packets these are, and what their octets are shown as.
pub fn capture_file<A: Source, K: Sink>(alloc: Global, source: &mut A, out: &mut K) -> Status
    ensures general { Over K.Sink out.old out.new (Answers capture_answer (A.left source.old) result) }
    ensures statuses { IsCaptureStatus result }
    ensures faults { HasCause result (ReadFailed A.Source source.old source.new × (out.new ≡ out.old))
        (PutFailed K.Sink out.old out.new) }
    ensures taken { TakesUpTo capture_limit (A.left source.old) (A.left source.new) }
{
    match read_all(alloc, source, LIMIT) {
        Ok(file) => show_file(file.as_slice(), out),
        Err(ReadAll::Fault) => Status::ReadFault,
        Err(ReadAll::TooLong) => end_with(Status::TooLong, out),
        Err(ReadAll::OutOfMemory) => Status::OutOfMemory,
    }
}

/// Shows the packets of a file, or refuses its header.
fn show_file<K: Sink>(file: &[u8], out: &mut K) -> Status
    requires { length file.now ≤ capture_limit }
    ensures gives { Over K.Sink out.old out.new (Gives (opened_answer file.now (opened file.now)) result) }
    ensures statuses { IsCaptureStatus result }
    ensures read { result ≢ Status.ReadFault }
    ensures write { result ≡ Status.WriteFault → PutFailed K.Sink out.old out.new }
{
    let mut line = LineText::new();
    match open_capture(file) {
        Ok(head) => show_packets(head, file, &mut line, out),
        Err(refusal) => {
            make_head_refusal_line(&mut line, refusal);
            put_last(line.as_slice(), Status::CaptureRefused, out)
        }
    }
}

/// Shows the packets behind a header, up to the first that is refused.
fn show_packets<K: Sink>(head: CaptureHead, file: &[u8], line: &mut LineText, out: &mut K) -> Status
    requires short { length file.now ≤ capture_limit }
    requires whole { head_length ≤ length file.now }
    ensures gives { Over K.Sink out.old out.new
        (Gives (packets_answer (length file.now) 1 head file.now head_length) result) }
    ensures statuses { IsCaptureStatus result }
    ensures read { result ≢ Status.ReadFault }
    ensures write { result ≡ Status.WriteFault → PutFailed K.Sink out.old out.new }
{
    let mut number = 1;
    let mut at = FIRST;
    'packets: loop {
        match next_packet(head, file, at) {
            Ok(Some(packet)) => {
                make_packet_line(line, number, file, packet);
                match out.put(line.as_slice()) {
                    Ok(()) => (),
                    Err(_) => return Status::WriteFault,
                }
                number += 1;
                at = packet.to;
            }
            Ok(None) => return end_with(Status::Done, out),
            Err(refusal) => {
                make_packet_refusal_line(line, number, refusal);
                return put_last(line.as_slice(), Status::CaptureRefused, out);
            }
        }
    }
}

/// What the answer of `capture` has to do with the packets that stand in a file, as a law.
pub fn capture_law()
    ensures octets { ShowsOctets }
    ensures packets { ShowsPackets }
{}
