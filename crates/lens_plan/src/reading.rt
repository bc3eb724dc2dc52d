//! The two files: NETWORK with its octets, and MESSAGES.
ghost use Rattle.std.specs.Prelude.{◌≡◌, ◌≢◌, ◌≤◌, ◌⊎◌, All, Err, IfErr, IfOk, MatchResult, length};
ghost use Rattle.{lens_plan.specs.{Answer.MeansMessages, places.Fitting.IsAsked}, net_plan.specs.Ranges.IsInRange};
ghost use Rattle.lens_plan.specs.{Answer.IsPlanStatus, Reading.{IsNoMessages, MeansItsText, no_messages_answer}};
ghost use Rattle.tte_forms.specs.Answering.{ForOctets, Gives};
ghost use Rattle.tte_forms.specs.Faults.{HasCause, PutFailed, ReadFailed};
ghost use Rattle.tte_forms.specs.{Putting.{Over, PutsNone}, frames.Answer.file_limit};
ghost use Rattle.tte_forms.specs.{Taking.TakesUpTo, networks.NoNetworks.IsNoNetwork};

use crate::text::make_line_refusal;
use crate::{Message, NoMessages, RefusedLine, read_messages};
use net_plan::Network;
use schedule_tables::Accepted;
use std::alloc::Global;
use tte_forms::{NoNetwork, Status, accept_text, end_with, put_last};
use tte_io::{Bytes, LineText, ReadAll, Sink, Source, read_all};

/// How many octets a file has at most.
const FILE_LIMIT: u64 = 262_144;

/// An accepted network, and the octets of its file.
#[derive(Drop)]
pub(crate) struct NetworkText {
    pub(crate) octets: Bytes,
    pub(crate) accepted: Accepted,
}

/// Reads a network as `accept` does, and keeps the octets of its file.
pub(crate) fn accept_text_of<A: Source>(
    alloc: Global,
    source: &mut A,
) -> Result<NetworkText, NoNetwork>
    ensures accepted { IfOk result MeansItsText }
    ensures octets { IfOk result (λ file. ForOctets (A.left source.old) (λ octets. file.octets ≡ octets)) }
    ensures none { IfErr result (λ cause. ForOctets (A.left source.old) (λ octets. IsNoNetwork octets cause)) }
    ensures read { result ≡ Err NoNetwork.ReadFault → ReadFailed A.Source source.old source.new }
    ensures taken { TakesUpTo file_limit (A.left source.old) (A.left source.new) }
{
    match read_all(alloc, source, FILE_LIMIT) {
        Ok(octets) => accept_octets(alloc, octets),
        Err(ReadAll::Fault) => Err(NoNetwork::ReadFault),
        Err(ReadAll::TooLong) => Err(NoNetwork::TooLong),
        Err(ReadAll::OutOfMemory) => Err(NoNetwork::OutOfMemory),
    }
}

fn accept_octets(alloc: Global, octets: Bytes) -> Result<NetworkText, NoNetwork>
    requires { length octets ≤ file_limit }
    ensures accepted { IfOk result MeansItsText }
    ensures kept { IfOk result (λ file. file.octets ≡ octets) }
    ensures none { IfErr result (IsNoNetwork octets) }
    ensures read { result ≢ Err NoNetwork.ReadFault }
{
    match accept_text(alloc, octets.as_slice()) {
        Ok(accepted) => Ok(NetworkText { octets, accepted }),
        Err(cause) => Err(cause),
    }
}

/// Why a source gives no messages.
#[derive(Clone, Copy)]
pub(crate) enum NoMessageFile {
    /// A read failed.
    ReadFault,
    /// The file is too long.
    TooLong,
    /// Memory ran out.
    OutOfMemory,
    /// A line is refused.
    Refused(RefusedLine),
}

/// Reads the messages of a file of at most 262,144 octets for a network. The file is read whole, or until a read fails
/// or it is too long.
pub(crate) fn messages_of<B: Source>(
    alloc: Global,
    network: &Network,
    source: &mut B,
) -> Result<Vec<Message>, NoMessageFile>
    requires { IsInRange network.now }
    ensures read { IfOk result (λ ms. ForOctets (B.left source.old) (λ text. MeansMessages network.now text ms.items)) }
    ensures asked { IfOk result (λ ms. All (IsAsked network.now) ms.items) }
    ensures none { IfErr result (λ cause. ForOctets (B.left source.old) (λ text. IsNoMessages network.now text cause)) }
    ensures fault { result ≡ Err NoMessageFile.ReadFault → ReadFailed B.Source source.old source.new }
    ensures taken { TakesUpTo file_limit (B.left source.old) (B.left source.new) }
{
    match read_all(alloc, source, FILE_LIMIT) {
        Ok(octets) => messages_in(alloc, network, octets.as_slice()),
        Err(ReadAll::Fault) => Err(NoMessageFile::ReadFault),
        Err(ReadAll::TooLong) => Err(NoMessageFile::TooLong),
        Err(ReadAll::OutOfMemory) => Err(NoMessageFile::OutOfMemory),
    }
}

fn messages_in(alloc: Global, network: &Network, text: &[u8]) -> Result<Vec<Message>, NoMessageFile>
    requires range { IsInRange network.now }
    requires few { length text.now ≤ file_limit }
    ensures read { IfOk result (λ ms. MeansMessages network.now text.now ms.items) }
    ensures asked { IfOk result (λ ms. All (IsAsked network.now) ms.items) }
    ensures none { IfErr result (IsNoMessages network.now text.now) }
    ensures fault { result ≢ Err NoMessageFile.ReadFault }
{
    match read_messages(alloc, network, text) {
        Ok(messages) => Ok(messages),
        Err(NoMessages::Refused(line)) => Err(NoMessageFile::Refused(line)),
        Err(NoMessages::OutOfMemory) => Err(NoMessageFile::OutOfMemory),
    }
}

/// Answers that there are no messages: the line that says why, where there is one, and the status.
pub(crate) fn put_no_messages<K: Sink>(cause: NoMessageFile, out: &mut K) -> Status
    ensures gives { Over K.Sink out.old out.new (Gives (no_messages_answer cause) result) }
    ensures unput { (cause ≡ NoMessageFile.ReadFault) ⊎ (cause ≡ NoMessageFile.OutOfMemory)
        → (result ≢ Status.WriteFault) × Over K.Sink out.old out.new PutsNone }
    ensures statuses { IsPlanStatus result }
    ensures cause { HasCause result ((cause ≡ NoMessageFile.ReadFault) × (out.new ≡ out.old))
        (PutFailed K.Sink out.old out.new) }
{
    match cause {
        NoMessageFile::ReadFault => Status::ReadFault,
        NoMessageFile::TooLong => end_with(Status::TooLong, out),
        NoMessageFile::OutOfMemory => Status::OutOfMemory,
        NoMessageFile::Refused(refused) => {
            let mut line = LineText::new();
            make_line_refusal(&mut line, refused);
            put_last(line.as_slice(), Status::MessagesRefused, out)
        }
    }
}
