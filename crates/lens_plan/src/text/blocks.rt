//! The blocks of a plan.
ghost use Rattle.std.specs.Prelude.{◌++◌, ◌<◌, ◌∷◌, ◌≡◌, All, IfOk, OnOk, [], length};
ghost use Rattle.{lens_plan.specs.places.Fitting.IsAsked, net_plan.specs.{Belonging.HasLink, Ranges.IsInRange}};
ghost use Rattle.lens_plan.specs.text.Blocks.{message_blocks, plan_lines, row_block, vl_block};
ghost use Rattle.std.specs.List.{flat_map};

use crate::places::{Attempt, Placed, rows_in_order};
use crate::{Message, PlanLine};
use net_file::{KeyName, TableName};
use net_plan::{Name, Network};
use std::alloc::Global;
use tte_io::OutOfMemory;

fn push(lines: &mut Vec<PlanLine>, line: PlanLine) -> Result<(), OutOfMemory>
    ensures { OnOk result (lines.new.items ≡ lines.old.items ++ line ∷ []) }
{
    match lines.push(line) {
        Ok(()) => Ok(()),
        Err(_) => Err(OutOfMemory),
    }
}

/// Adds the lines.
fn push_lines(lines: &mut Vec<PlanLine>, more: &[PlanLine]) -> Result<(), OutOfMemory>
    ensures { OnOk result (lines.new.items ≡ lines.old.items ++ more.now) }
{
    match lines.extend_from_slice(more) {
        Ok(()) => Ok(()),
        Err(_) => Err(OutOfMemory),
    }
}

/// Adds the block of a message's virtual link.
fn push_vl(
    network: &Network,
    message: &Message,
    id: u64,
    phase: u32,
    lines: &mut Vec<PlanLine>,
) -> Result<(), OutOfMemory>
    requires { IsAsked network.now message.now }
    ensures { OnOk result (lines.new.items ≡ lines.old.items ++ vl_block network.now message.now id phase) }
{
    let sender = network.device.as_slice()[message.sender.0 as usize].name;
    let block = [
        PlanLine::Empty,
        PlanLine::Head(TableName::Vl),
        PlanLine::Name(KeyName::Name, message.name),
        PlanLine::Number(KeyName::Id, id),
        PlanLine::Number(KeyName::Length, message.length.into()),
        PlanLine::Number(KeyName::Ethertype, message.ethertype.into()),
        PlanLine::Name(KeyName::Sender, sender),
        PlanLine::Number(KeyName::Period, message.period.into()),
        PlanLine::Number(KeyName::Phase, phase.into()),
    ];
    push_lines(lines, &block)
}

/// Adds the block of a row of it.
fn push_row(
    network: &Network,
    message: &Message,
    row: &Placed,
    lines: &mut Vec<PlanLine>,
) -> Result<(), OutOfMemory>
    requires { HasLink network.now row.now.hop.link }
    ensures { OnOk result (lines.new.items ≡ lines.old.items ++ row_block network.now message.now row.now) }
{
    let link = network.link.as_slice()[row.hop.link.0 as usize].name;
    let block = [
        PlanLine::Empty,
        PlanLine::Head(TableName::Row),
        PlanLine::Name(KeyName::Vl, message.name),
        PlanLine::Name(KeyName::Link, link),
        PlanLine::Way(row.hop.way),
        PlanLine::Number(KeyName::Offset, row.offset),
    ];
    push_lines(lines, &block)
}

/// Adds the blocks of rows of a message.
fn push_rows(
    network: &Network,
    message: &Message,
    rows: &[Placed],
    lines: &mut Vec<PlanLine>,
) -> Result<(), OutOfMemory>
    requires { All (λ row. HasLink network.now row.hop.link) rows.now }
    ensures { OnOk result (lines.new.items ≡ lines.old.items ++ flat_map (row_block network.now message.now) rows.now) }
{
    'rows: for row in rows {
        match push_row(network, message, row, lines) {
            Ok(()) => (),
            Err(OutOfMemory) => return Err(OutOfMemory),
        }
    }
    Ok(())
}

/// Adds all blocks of a message.
fn push_message(
    alloc: Global,
    network: &Network,
    message: &Message,
    id: u64,
    attempt: &Attempt,
    lines: &mut Vec<PlanLine>,
) -> Result<(), OutOfMemory>
    requires range { IsInRange network.now }
    requires asked { IsAsked network.now message.now }
    ensures { OnOk result (lines.new.items ≡ lines.old.items ++ message_blocks network.now message.now id attempt.now) }
{
    let rows = rows_in_order(alloc, network, attempt.placed.as_slice())?;
    push_vl(network, message, id, attempt.phase, lines)?;
    push_rows(network, message, rows.as_slice(), lines)
}

/// The lines of the messages, with their ids and their rows.
pub(crate) fn plan_lines(
    alloc: Global,
    network: &Network,
    messages: &[Message],
    ids: &[u64],
    attempts: &[Attempt],
) -> Result<Vec<PlanLine>, OutOfMemory>
    requires range { IsInRange network.now }
    requires asked { All (IsAsked network.now) messages.now }
    requires ids { length ids.now ≡ length messages.now }
    requires attempts { length attempts.now ≡ length messages.now }
    ensures { IfOk result (λ lines. lines.items ≡ plan_lines network.now messages.now ids.now attempts.now) }
{
    let mut lines = Vec::new(alloc);
    'messages: for place in 0..messages.len() {
        let message = &messages[place];
        match push_message(
            alloc,
            network,
            message,
            ids[place],
            &attempts[place],
            &mut lines,
        ) {
            Ok(()) => (),
            Err(OutOfMemory) => return Err(OutOfMemory),
        }
    }
    Ok(lines)
}
