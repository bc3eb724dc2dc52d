//! The octets of NETWORK with the text of a plan behind them.
ghost use Rattle.std.specs.Prelude.{◌++◌, ◌<◌, ◌↔◌, ◌≡◌, ◌≤◌, IfErr, IfOk, IsTrue, OnOk, length, map};
ghost use Rattle.std.specs.List.{concat};
ghost use Rattle.{lens_plan.specs.text.Lines.plan_line, net_plan.specs.Ranges.IsInRange};
ghost use Rattle.lens_plan.specs.joining.Joined.{IsNoJoin, MeansPlanned, joined, text_of};
ghost use Rattle.lens_plan.specs.joining.{Extends.Extends, Served.AreServed};
ghost use Rattle.tte_forms.specs.frames.Answer.{file_limit};

use crate::joining::extends::extends;
use crate::joining::served::are_served;
use crate::text::make_plan_line;
use crate::{Message, PlanLine};
use net_plan::Network;
use std::alloc::Global;
use tte_forms::{NoNetwork, accept_text};
use tte_io::{LineText, OutOfMemory};

/// How many octets a file has at most.
const FILE_LIMIT: usize = 262_144;

/// Why octets and text are not joined.
#[derive(Clone, Copy, PartialEq, Eq)]
pub(crate) enum NoJoin {
    /// They are more than a file may have.
    TooLong,
    OutOfMemory,
}

/// Adds octets.
fn push_octets(text: &mut Vec<u8>, octets: &[u8]) -> Result<(), OutOfMemory>
    ensures { OnOk result (text.new.items ≡ text.old.items ++ octets.now) }
{
    match text.extend_from_slice(octets) {
        Ok(()) => Ok(()),
        Err(_) => Err(OutOfMemory),
    }
}

/// Adds the text of the lines.
fn push_text(text: &mut Vec<u8>, lines: &[PlanLine]) -> Result<(), OutOfMemory>
    ensures { OnOk result (text.new.items ≡ text.old.items ++ text_of lines.now) }
{
    let mut line = LineText::new();
    'lines: for of in lines {
        make_plan_line(&mut line, *of);
        match push_octets(text, line.as_slice()) {
            Ok(()) => (),
            Err(OutOfMemory) => return Err(OutOfMemory),
        }
    }
    Ok(())
}

/// The octets with the text of the lines behind them.
fn joined(alloc: Global, octets: &[u8], lines: &[PlanLine]) -> Result<Vec<u8>, OutOfMemory>
    ensures { IfOk result (λ text. text.items ≡ joined octets.now lines.now) }
{
    let mut text = Vec::new(alloc);
    push_octets(&mut text, octets)?;
    push_text(&mut text, lines)?;
    Ok(text)
}

/// The octets with the text of the lines behind them, if they are no more than a file may have.
pub(crate) fn joined_octets(
    alloc: Global,
    octets: &[u8],
    lines: &[PlanLine],
) -> Result<Vec<u8>, NoJoin>
    ensures joined { IfOk result (λ text. text.items ≡ joined octets.now lines.now) }
    ensures fits { IfOk result (λ text. length text.items ≤ file_limit) }
    ensures none { IfErr result (IsNoJoin octets.now lines.now) }
{
    match joined(alloc, octets, lines) {
        Ok(text) if text.len() > FILE_LIMIT => Err(NoJoin::TooLong),
        Ok(text) => Ok(text),
        Err(OutOfMemory) => Err(NoJoin::OutOfMemory),
    }
}

/// Do the octets mean an accepted network, which is the network with virtual links and rows that serve the messages?
pub(crate) fn means_planned(
    alloc: Global,
    octets: &[u8],
    network: &Network,
    messages: &[Message],
) -> Result<bool, OutOfMemory>
    requires fits { length octets.now ≤ file_limit }
    requires range { IsInRange network.now }
    ensures { IfOk result (λ b. IsTrue b ↔ MeansPlanned octets.now network.now messages.now) }
{
    match accept_text(alloc, octets) {
        Ok(accepted) => Ok(is_planned(network, accepted.network(), messages)),
        // No read fails here.
        Err(NoNetwork::OutOfMemory | NoNetwork::ReadFault) => Err(OutOfMemory),
        Err(NoNetwork::TooLong | NoNetwork::File(_) | NoNetwork::Rule(_)) => Ok(false),
    }
}

/// Is the planned network the network with virtual links and rows that serve the messages?
fn is_planned(network: &Network, planned: &Network, messages: &[Message]) -> bool
    requires range { IsInRange network.now }
    requires planned { IsInRange planned.now }
    ensures { IsTrue result ↔ (Extends network.now planned.now × AreServed network.now planned.now messages.now) }
{
    extends(network, planned) && are_served(network, planned, messages)
}
