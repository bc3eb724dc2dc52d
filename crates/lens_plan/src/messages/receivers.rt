ghost use Rattle.std.specs.{List.list_any, Prelude.{◌==◌, ◌≡◌, All, IfErr, IfOk}};
ghost use Rattle.{lens_plan.specs.messages.Steps.{IsFault, IsRead, Reads}, net_plan.specs.{Places.IsEndSystem, Ranges.IsInRange}};
ghost use Rattle.lens_plan.specs.messages.Reading.{receiver, sender, some_receivers};

use crate::MessageRefusal;
use crate::messages::line::MessageWords;
use crate::messages::refusal::LineFault;
use crate::messages::words::end_system_spelled;
use net_plan::{DeviceId, Network};
use std::alloc::Global;

/// Is the device one of these?
fn is_among(device: DeviceId, others: &[DeviceId]) -> bool
    ensures { result ≡ list_any (λ e. e.0 == device.0) others.now }
{
    others.iter().any(|other| other.0 == device.0)
}

impl<'a> MessageWords<'a> {
    /// The sender, between its two words.
    #[tactic(auto, unfolding(crate::specs::messages::Reading::sender))]
    pub(crate) fn sender(&mut self, network: &Network) -> Result<DeviceId, MessageRefusal>
        requires { IsInRange network.now }
        ensures value { Reads (sender network.now self.old) result self.new }
        ensures ends { IfOk result (IsEndSystem network.now) }
    {
        self.expect("from")?;
        let sender = self.end_system(network)?;
        self.expect("to")?;
        Ok(sender)
    }

    /// One more receiver.
    #[tactic(auto, unfolding(crate::specs::messages::Reading::receiver))]
    fn receiver(
        &mut self,
        network: &Network,
        sender: DeviceId,
        earlier: &[DeviceId],
    ) -> Result<DeviceId, MessageRefusal>
        requires { IsInRange network.now }
        ensures value { Reads (receiver network.now sender earlier.now self.old) result self.new }
        ensures ends { IfOk result (IsEndSystem network.now) }
    {
        let text = self.word()?;
        let Some(device) = end_system_spelled(network, text) else {
            return Err(MessageRefusal::Name);
        };
        if device.0 == sender.0 || is_among(device, earlier) {
            return Err(MessageRefusal::Twice);
        }
        Ok(device)
    }

    /// The receivers, up to the line's end.
    pub(crate) fn receivers(
        &mut self,
        alloc: Global,
        network: &Network,
        sender: DeviceId,
    ) -> Result<Vec<DeviceId>, LineFault>
        requires { IsInRange network.now }
        ensures read { IfOk result (λ r. IsRead (some_receivers network.now sender self.old) r.items) }
        ensures ends { IfOk result (λ r. All (IsEndSystem network.now) r.items) }
        ensures fault { IfErr result (IsFault (some_receivers network.now sender self.old)) }
    {
        let mut receivers = Vec::new(alloc);
        if self.is_ended() {
            return Err(LineFault::Refused(MessageRefusal::Form));
        }
        'receivers: loop {
            if self.is_ended() {
                return Ok(receivers);
            }
            let device = match self.receiver(network, sender, receivers.as_slice()) {
                Ok(device) => device,
                Err(refusal) => return Err(LineFault::Refused(refusal)),
            };
            match receivers.push(device) {
                Ok(()) => (),
                Err(_) => return Err(LineFault::OutOfMemory),
            }
        }
    }
}
