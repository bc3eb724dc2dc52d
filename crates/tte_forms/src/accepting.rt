ghost use Rattle.std.specs.Prelude.{◌≡◌, ◌≢◌, ◌≤◌, ◌⊎◌, Err, IfErr, IfOk, length};
ghost use Rattle.net_plan.specs.Ranges.{IsInRange};
ghost use Rattle.tte_forms.specs.{Answering.{ForOctets, Gives}, Putting.{Over, PutsNone}, frames.Answer.file_limit};
ghost use Rattle.tte_forms.specs.{Faults.{PutFailed, ReadFailed}, networks.Accepting.{MeansAccepted, MeansNetwork}};
ghost use Rattle.tte_forms.specs.{Taking.TakesUpTo, networks.NoNetworks.{IsNoNetwork, IsUnread, no_network_answer}};

pub(crate) mod network_line;

use crate::Status;
use crate::put_line::{end_with, put_last};
use net_file::{FileRefusal, read_network};
use net_plan::Network;
use network_line::{make_file_line, make_rule_line};
use schedule_checker::{RuleBroken, Unfit, check};
use schedule_tables::Accepted;
use std::alloc::Global;
use tte_io::{LineText, ReadAll, Sink, Source, read_all};

/// How many octets a file has at most.
pub(crate) const LIMIT: u64 = 262_144;

/// Why a source gives no accepted network.
#[derive(Clone, Copy, Debug, PartialEq, Eq)]
pub enum NoNetwork {
    /// A read failed.
    ReadFault,
    /// The file is too long.
    TooLong,
    /// Memory ran out.
    OutOfMemory,
    /// The text is no network.
    File(FileRefusal),
    /// The network breaks a rule.
    Rule(RuleBroken),
}

/// Reads a network from a file of at most 262,144 octets, and accepts it if it keeps all rules.
///
/// The error says why there is none. The file is read whole, or until a read fails or it is too long.
pub fn accept<A: Source>(alloc: Global, source: &mut A) -> Result<Accepted, NoNetwork>
    ensures accepted { IfOk result (λ network. ForOctets (A.left source.old) (λ octets. MeansAccepted octets network)) }
    ensures range { IfOk result IsInRange }
    ensures none { IfErr result (λ cause. ForOctets (A.left source.old) (λ octets. IsNoNetwork octets cause)) }
    ensures read { result ≡ Err NoNetwork.ReadFault → ReadFailed A.Source source.old source.new }
    ensures taken { TakesUpTo file_limit (A.left source.old) (A.left source.new) }
{
    match read_all(alloc, source, LIMIT) {
        Ok(octets) => accept_text(alloc, octets.as_slice()),
        Err(ReadAll::Fault) => Err(NoNetwork::ReadFault),
        Err(ReadAll::TooLong) => Err(NoNetwork::TooLong),
        Err(ReadAll::OutOfMemory) => Err(NoNetwork::OutOfMemory),
    }
}

/// Makes a network of a text of at most 262,144 octets, and accepts it if it keeps all rules.
///
/// The error says why there is none; it is no failed read.
pub fn accept_text(alloc: Global, text: &[u8]) -> Result<Accepted, NoNetwork>
    requires { length text.now ≤ file_limit }
    ensures accepted { IfOk result (MeansAccepted text.now) }
    ensures range { IfOk result IsInRange }
    ensures none { IfErr result (IsNoNetwork text.now) }
    ensures read { result ≢ Err NoNetwork.ReadFault }
{
    let network = match read_network(alloc, text) {
        Ok(network) => network,
        Err(FileRefusal::OutOfMemory) => return Err(NoNetwork::OutOfMemory),
        Err(refusal) => return Err(NoNetwork::File(refusal)),
    };
    match check(alloc, network) {
        Ok(accepted) => Ok(accepted),
        Err(Unfit::Rule(told)) => Err(NoNetwork::Rule(told)),
        Err(Unfit::OutOfMemory) => Err(NoNetwork::OutOfMemory),
    }
}

/// Reads a network from a file of at most 262,144 octets, whether it keeps the rules or not.
///
/// The error says why there is none. It is no broken rule.
pub fn read_unjudged<A: Source>(alloc: Global, source: &mut A) -> Result<Network, NoNetwork>
    ensures read { IfOk result (λ network. ForOctets (A.left source.old) (λ octets. MeansNetwork octets network)) }
    ensures range { IfOk result IsInRange }
    ensures none { IfErr result (λ cause. ForOctets (A.left source.old) (λ octets. IsUnread octets cause)) }
    ensures failed { result ≡ Err NoNetwork.ReadFault → ReadFailed A.Source source.old source.new }
    ensures taken { TakesUpTo file_limit (A.left source.old) (A.left source.new) }
{
    match read_all(alloc, source, LIMIT) {
        Ok(octets) => unjudged_text(alloc, octets.as_slice()),
        Err(ReadAll::Fault) => Err(NoNetwork::ReadFault),
        Err(ReadAll::TooLong) => Err(NoNetwork::TooLong),
        Err(ReadAll::OutOfMemory) => Err(NoNetwork::OutOfMemory),
    }
}

fn unjudged_text(alloc: Global, text: &[u8]) -> Result<Network, NoNetwork>
    requires { length text.now ≤ file_limit }
    ensures read { IfOk result (MeansNetwork text.now) }
    ensures range { IfOk result IsInRange }
    ensures none { IfErr result (IsUnread text.now) }
    ensures failed { result ≢ Err NoNetwork.ReadFault }
{
    match read_network(alloc, text) {
        Ok(network) => Ok(network),
        Err(FileRefusal::OutOfMemory) => Err(NoNetwork::OutOfMemory),
        Err(refusal) => Err(NoNetwork::File(refusal)),
    }
}

/// Answers that there is no accepted network: the line that says why, where there is one, and the status.
pub fn put_no_network<K: Sink>(cause: NoNetwork, out: &mut K) -> Status
    ensures gives { Over K.Sink out.old out.new (Gives (no_network_answer cause) result) }
    ensures read { result ≡ Status.ReadFault → cause ≡ NoNetwork.ReadFault }
    ensures unread { result ≡ Status.ReadFault → out.new ≡ out.old }
    ensures unput { (cause ≡ NoNetwork.ReadFault) ⊎ (cause ≡ NoNetwork.OutOfMemory)
        → (result ≢ Status.WriteFault) × Over K.Sink out.old out.new PutsNone }
    ensures write { result ≡ Status.WriteFault → PutFailed K.Sink out.old out.new }
{
    let mut line = LineText::new();
    match cause {
        NoNetwork::ReadFault => Status::ReadFault,
        NoNetwork::TooLong => end_with(Status::TooLong, out),
        NoNetwork::OutOfMemory => Status::OutOfMemory,
        NoNetwork::File(refusal) => {
            make_file_line(&mut line, refusal);
            put_last(line.as_slice(), Status::NetworkRefused, out)
        }
        NoNetwork::Rule(told) => {
            make_rule_line(&mut line, told);
            put_last(line.as_slice(), Status::NetworkRefused, out)
        }
    }
}
