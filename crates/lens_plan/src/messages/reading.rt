ghost use Rattle.std.specs.{List.list_any, Prelude.{◌-◌, ◌==◌, ◌^◌, ◌≡◌, ◌≤◌, IfOk, IfSome, bytes_eq, codes}};
ghost use Rattle.lens_plan.specs.messages.{Message.{gives_id, id_is_taken, name_is_taken}, Steps.{Reads, optional}};
ghost use Rattle.lens_plan.specs.messages.Reading.{ethertype, head, id, name, timing};
ghost use Rattle.lens_plan.specs.messages.Words.{number, time};

use crate::messages::line::MessageWords;
use crate::messages::words::is_name_text;
use crate::{Message, MessageRefusal};
use net_plan::{Name, Network};

/// The EtherType of IPv4, which a message has where its line gives none.
const IPV4: u16 = 0x0800;

/// The EtherType of protocol control frames, which no message has.
const PCF: u64 = 0x891d;

/// The words of a message's frame.
#[derive(Clone, Copy)]
pub(crate) struct Head {
    pub(crate) name: Name,
    pub(crate) id: Option<u16>,
    pub(crate) length: u16,
    pub(crate) ethertype: u16,
}

/// The words of a message's times.
#[derive(Clone, Copy)]
pub(crate) struct Timing {
    pub(crate) period: u32,
    pub(crate) phase: Option<u32>,
    pub(crate) after: Option<u64>,
    pub(crate) by: Option<u64>,
}

/// Has a virtual link of the network this name?
fn vl_has_name(network: &Network, text: &[u8]) -> bool
    ensures { result ≡ list_any (λ vl. bytes_eq vl.name text.now) network.now.vl }
{
    network
        .vl
        .as_slice()
        .iter()
        .any(|vl| vl.name.as_slice() == text)
}

/// Has an earlier message this name?
fn message_has_name(earlier: &[Message], text: &[u8]) -> bool
    ensures { result ≡ list_any (λ m. bytes_eq m.name text.now) earlier.now }
{
    earlier
        .iter()
        .any(|message| message.name.as_slice() == text)
}

/// Has a virtual link of the network or an earlier message this name?
fn name_is_taken(network: &Network, earlier: &[Message], text: &[u8]) -> bool
    ensures { result ≡ name_is_taken network.now earlier.now text.now }
{
    vl_has_name(network, text) || message_has_name(earlier, text)
}

/// Has a virtual link of the network this id?
fn vl_has_id(network: &Network, id: u16) -> bool
    ensures { result ≡ list_any (λ vl. vl.id == id) network.now.vl }
{
    network.vl.as_slice().iter().any(|vl| vl.id == id)
}

/// Does the message give this id?
fn gives_id(message: &Message, id: u16) -> bool
    ensures { result ≡ gives_id id message.now }
{
    match message.id {
        Some(given) => given == id,
        None => false,
    }
}

/// Does an earlier message give this id?
fn message_gives_id(earlier: &[Message], id: u16) -> bool
    ensures { result ≡ list_any (gives_id id) earlier.now }
{
    earlier.iter().any(|message| gives_id(message, id))
}

/// Has a virtual link of the network or an earlier message this id?
fn id_is_taken(network: &Network, earlier: &[Message], id: u16) -> bool
    ensures { result ≡ id_is_taken network.now earlier.now id }
{
    vl_has_id(network, id) || message_gives_id(earlier, id)
}

impl<'a> MessageWords<'a> {
    /// The message's name.
    #[tactic(auto, using(trace_text::proofs::WordsBack::name_is_utf8), unfolding(crate::specs::messages::Reading::name))]
    fn name(&mut self, network: &Network, earlier: &[Message]) -> Result<Name, MessageRefusal>
        ensures { Reads (name network.now earlier.now self.old) result self.new }
    {
        let text = self.word()?;
        if !is_name_text(text) {
            return Err(MessageRefusal::Name);
        }
        if name_is_taken(network, earlier, text) {
            return Err(MessageRefusal::Taken);
        }
        match str::from_utf8(text) {
            Ok(text) => Ok(Name::new(text)),
            // A name is in ASCII.
            Err(_) => Err(MessageRefusal::Name),
        }
    }

    /// The id.
    #[tactic(auto, unfolding(crate::specs::messages::Reading::id))]
    fn id(&mut self, network: &Network, earlier: &[Message]) -> Result<u16, MessageRefusal>
        ensures { Reads (id network.now earlier.now self.old) result self.new }
    {
        let id = self.number(0, 65_535)? as u16;
        if id_is_taken(network, earlier, id) {
            return Err(MessageRefusal::Taken);
        }
        Ok(id)
    }

    /// The id, if it is given.
    fn some_id(
        &mut self,
        network: &Network,
        earlier: &[Message],
    ) -> Result<Option<u16>, MessageRefusal>
        ensures { Reads (optional (codes "id") (id network.now earlier.now) self.old) result self.new }
    {
        if !self.takes("id") {
            return Ok(None);
        }
        let id = self.id(network, earlier)?;
        Ok(Some(id))
    }

    /// The EtherType.
    #[tactic(auto, unfolding(crate::specs::messages::Reading::ethertype))]
    fn ethertype(&mut self) -> Result<u16, MessageRefusal>
        ensures { Reads (ethertype self.old) result self.new }
    {
        let ethertype = self.number(1_536, 65_535)?;
        if ethertype == PCF {
            return Err(MessageRefusal::Number);
        }
        Ok(ethertype as u16)
    }

    /// The EtherType, if it is given.
    fn some_ethertype(&mut self) -> Result<Option<u16>, MessageRefusal>
        ensures { Reads (optional (codes "ethertype") ethertype self.old) result self.new }
    {
        if !self.takes("ethertype") {
            return Ok(None);
        }
        let ethertype = self.ethertype()?;
        Ok(Some(ethertype))
    }

    /// The words of the frame.
    #[tactic(auto, unfolding(crate::specs::messages::Reading::head))]
    pub(crate) fn head(
        &mut self,
        network: &Network,
        earlier: &[Message],
    ) -> Result<Head, MessageRefusal>
        ensures value { Reads (head network.now earlier.now self.old) result self.new }
        ensures length { IfOk result (λ h. h.length ≤ 1514) }
    {
        let name = self.name(network, earlier)?;
        let id = self.some_id(network, earlier)?;
        self.expect("length")?;
        let length = self.number(60, 1_514)? as u16;
        let ethertype = self.some_ethertype()?.unwrap_or(IPV4);
        Ok(Head {
            name,
            id,
            length,
            ethertype,
        })
    }

    /// The phase, if it is given.
    fn some_phase(&mut self, period: u32) -> Result<Option<u32>, MessageRefusal>
        requires { 1 ≤ period }
        ensures { Reads (optional (codes "phase") (number 0 (period - 1)) self.old) result self.new }
    {
        if !self.takes("phase") {
            return Ok(None);
        }
        let phase = self.number(0, u64::from(period) - 1)?;
        Ok(Some(phase as u32))
    }

    /// A place in the cycle, if it is given behind this word.
    fn some_time(&mut self, key: &str) -> Result<Option<u64>, MessageRefusal>
        ensures value { Reads (optional key.now time self.old) result self.new }
        ensures most { IfOk result (λ t. IfSome t (λ n. n ≤ 2 ^ 40)) }
    {
        if !self.takes(key) {
            return Ok(None);
        }
        let time = self.time()?;
        Ok(Some(time))
    }

    /// The words of the times.
    #[tactic(auto, unfolding(crate::specs::messages::Reading::timing))]
    pub(crate) fn timing(&mut self) -> Result<Timing, MessageRefusal>
        ensures value { Reads (timing self.old) result self.new }
        ensures period { IfOk result (λ t. 1 ≤ t.period) }
        ensures after { IfOk result (λ t. IfSome t.after (λ n. n ≤ 2 ^ 40)) }
    {
        self.expect("period")?;
        let period = self.period()?;
        let phase = self.some_phase(period)?;
        let after = self.some_time("after")?;
        let by = self.some_time("by")?;
        Ok(Timing {
            period,
            phase,
            after,
            by,
        })
    }
}
