ghost use Rattle.std.specs.Prelude.{◌≡◌, ◌≤◌, All, IfErr, IfOk, Ok, length};
ghost use Rattle.{lens_plan.specs.messages.Steps.{IsFault, IsRead}, net_plan.specs.Ranges.IsInRange};
ghost use Rattle.lens_plan.specs.messages.{Lines.{AreNoMessages, fault_at, is_passed, messages_read}, Reading.message_reader};
ghost use Rattle.{lens_plan.specs.places.Fitting.IsAsked, trace_text.specs.Steps.words};

use crate::messages::line::MessageWords;
use crate::messages::lines::Lines;
use crate::messages::refusal::LineFault;
use crate::{Message, MessageRefusal, NoMessages, RefusedLine};
use net_plan::Network;
use std::alloc::Global;

/// How many octets a line has at most.
const LINE_LIMIT: usize = 4096;

/// The message of a line, behind the earlier ones.
fn message_of(
    alloc: Global,
    network: &Network,
    earlier: &[Message],
    text: &[u8],
) -> Result<Message, LineFault>
    requires { IsInRange network.now }
    ensures read { IfOk result (IsRead (message_reader network.now earlier.now (words text.now))) }
    ensures asked { IfOk result (IsAsked network.now) }
    ensures fault { IfErr result (IsFault (message_reader network.now earlier.now (words text.now))) }
{
    let mut line = MessageWords::of(text);
    let head = match line.head(network, earlier) {
        Ok(head) => head,
        Err(refusal) => return Err(LineFault::Refused(refusal)),
    };
    let timing = match line.timing() {
        Ok(timing) => timing,
        Err(refusal) => return Err(LineFault::Refused(refusal)),
    };
    let sender = match line.sender(network) {
        Ok(sender) => sender,
        Err(refusal) => return Err(LineFault::Refused(refusal)),
    };
    let receivers = match line.receivers(alloc, network, sender) {
        Ok(receivers) => receivers,
        Err(fault) => return Err(fault),
    };
    Ok(Message {
        name: head.name,
        id: head.id,
        length: head.length,
        ethertype: head.ethertype,
        period: timing.period,
        phase: timing.phase,
        after: timing.after,
        by: timing.by,
        sender,
        receivers,
    })
}

/// Has the line no message?
fn is_passed(line: &[u8]) -> bool
    ensures { result ≡ is_passed line.now }
{
    match line.first() {
        Some(octet) => *octet == b'#',
        None => true,
    }
}

/// Why there are no messages, where the line of this number has this fault.
fn fault_at(number: u64, fault: LineFault) -> NoMessages
    ensures { result ≡ fault_at number fault }
{
    match fault {
        LineFault::Refused(refusal) => NoMessages::Refused(RefusedLine { number, refusal }),
        LineFault::OutOfMemory => NoMessages::OutOfMemory,
    }
}

/// Reads the messages of a file of at most 262,144 octets, a line each, for an accepted network: the virtual links that
/// it has keep their names and ids.
///
/// The error tells the first line that is refused.
pub fn read_messages(
    alloc: Global,
    network: &Network,
    text: &[u8],
) -> Result<Vec<Message>, NoMessages>
    requires range { IsInRange network.now }
    requires few { length text.now ≤ 262144 }
    ensures read { IfOk result (λ ms. messages_read network.now text.now ≡ Ok ms.items) }
    ensures asked { IfOk result (λ ms. All (IsAsked network.now) ms.items) }
    ensures none { IfErr result (AreNoMessages (messages_read network.now text.now)) }
{
    let mut messages = Vec::new(alloc);
    let mut lines = Lines::of(text);
    let mut number = 0;
    'lines: loop {
        let Some(line) = lines.next_line() else {
            return Ok(messages);
        };
        number += 1;
        if line.len() > LINE_LIMIT {
            let long = LineFault::Refused(MessageRefusal::Long);
            return Err(fault_at(number, long));
        }
        if is_passed(line) {
            continue;
        }
        let message = match message_of(alloc, network, messages.as_slice(), line) {
            Ok(message) => message,
            Err(fault) => return Err(fault_at(number, fault)),
        };
        match messages.push(message) {
            Ok(()) => (),
            Err(_) => return Err(NoMessages::OutOfMemory),
        }
    }
}
