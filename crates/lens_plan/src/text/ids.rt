//! The ids of messages.
ghost use Rattle.std.specs.Prelude.{◌++◌, ◌+◌, ◌<◌, ◌∷◌, ◌≡◌, ◌≤◌, All, IfOk, OnOk, [], length, map};
ghost use Rattle.std.specs.List.{Contains, filter_map};
ghost use Rattle.lens_plan.specs.text.Ids.{AreIds, IsIdBy, IsLeastNew, taken_ids};

use crate::Message;
use net_plan::Network;
use std::alloc::Global;
use tte_io::OutOfMemory;

/// Adds a number.
fn push(numbers: &mut Vec<u64>, number: u64) -> Result<(), OutOfMemory>
    ensures { OnOk result (numbers.new.items ≡ numbers.old.items ++ number ∷ []) }
{
    match numbers.push(number) {
        Ok(()) => Ok(()),
        Err(_) => Err(OutOfMemory),
    }
}

/// Adds the id of a virtual link.
fn push_id(ids: &mut Vec<u64>, id: u16) -> Result<(), OutOfMemory>
    requires { All (λ id. id < 65536) ids.old.items }
    ensures ids { OnOk result (ids.new.items ≡ ids.old.items ++ id ∷ []) }
    ensures small { OnOk result (All (λ id. id < 65536) ids.new.items) }
{
    push(ids, id.into())
}

/// Adds the ids of the network's virtual links.
fn push_vl_ids(network: &Network, ids: &mut Vec<u64>) -> Result<(), OutOfMemory>
    requires { All (λ id. id < 65536) ids.old.items }
    ensures ids { OnOk result (ids.new.items ≡ ids.old.items ++ map (λ vl. vl.id) network.now.vl) }
    ensures small { OnOk result (All (λ id. id < 65536) ids.new.items) }
{
    'vls: for vl in network.vl.as_slice() {
        match push_id(ids, vl.id) {
            Ok(()) => (),
            Err(OutOfMemory) => return Err(OutOfMemory),
        }
    }
    Ok(())
}

/// Adds the id that the message gives, if it gives one.
fn push_given_id(message: &Message, ids: &mut Vec<u64>) -> Result<(), OutOfMemory>
    requires { All (λ id. id < 65536) ids.old.items }
    ensures ids { OnOk result (ids.new.items ≡ ids.old.items ++ filter_map (λ m. m.id) (message.now ∷ [])) }
    ensures small { OnOk result (All (λ id. id < 65536) ids.new.items) }
{
    match message.id {
        Some(id) => push_id(ids, id),
        None => Ok(()),
    }
}

/// Adds the ids that messages give.
fn push_given_ids(messages: &[Message], ids: &mut Vec<u64>) -> Result<(), OutOfMemory>
    requires { All (λ id. id < 65536) ids.old.items }
    ensures ids { OnOk result (ids.new.items ≡ ids.old.items ++ filter_map (λ m. m.id) messages.now) }
    ensures small { OnOk result (All (λ id. id < 65536) ids.new.items) }
{
    'messages: for message in messages {
        match push_given_id(message, ids) {
            Ok(()) => (),
            Err(OutOfMemory) => return Err(OutOfMemory),
        }
    }
    Ok(())
}

/// The ids that the network's virtual links have, and those that the messages give.
fn taken_ids(
    alloc: Global,
    network: &Network,
    messages: &[Message],
) -> Result<Vec<u64>, OutOfMemory>
    ensures ids { IfOk result (λ ids. ids.items ≡ taken_ids network.now messages.now) }
    ensures small { IfOk result (λ ids. All (λ id. id < 65536) ids.items) }
{
    let mut ids = Vec::new(alloc);
    push_vl_ids(network, &mut ids)?;
    push_given_ids(messages, &mut ids)?;
    Ok(ids)
}

/// The least number from 1 that is none of these, which are all less than the bound.
fn least_new(taken: &[u64], bound: u64) -> u64
    requires bound { 1 ≤ bound }
    requires less { All (λ id. id < bound) taken.now }
    ensures least { IsLeastNew taken.now result }
    ensures bound { result ≤ bound }
{
    'ids: for id in 1..bound {
        if !taken.contains(&id) {
            return id;
        }
    }
    bound
}

/// The id of the message, where these are taken, which are all less than the bound.
fn id_of(message: &Message, taken: &[u64], bound: u64) -> u64
    requires bound { 65536 ≤ bound }
    requires less { All (λ id. id < bound) taken.now }
    ensures is { IsIdBy taken.now message.now.id result }
    ensures bound { result ≤ bound }
{
    match message.id {
        Some(id) => id.into(),
        None => least_new(taken, bound),
    }
}

/// The ids of the messages, in their order: what a line gives, or the least number from 1 that is not taken.
pub(crate) fn ids_of(
    alloc: Global,
    network: &Network,
    messages: &[Message],
) -> Result<Vec<u64>, OutOfMemory>
    ensures are { IfOk result (λ ids. AreIds (taken_ids network.now messages.now) messages.now ids.items) }
    ensures counted { IfOk result (λ ids. length ids.items ≡ length messages.now) }
{
    let mut taken = taken_ids(alloc, network, messages)?;
    let mut ids = Vec::new(alloc);
    'messages: for place in 0..messages.len() {
        let id = id_of(&messages[place], taken.as_slice(), 65_536 + place as u64);
        match push(&mut taken, id) {
            Ok(()) => (),
            Err(OutOfMemory) => return Err(OutOfMemory),
        }
        match push(&mut ids, id) {
            Ok(()) => (),
            Err(OutOfMemory) => return Err(OutOfMemory),
        }
    }
    Ok(ids)
}
