use crate::breach::{hold, late, not_broken, not_master, rate, wire};
use crate::line_fault::line_fault;
use crate::naming::{channel_of, device_at, device_text, letter_of, link_text, text_of};
use crate::saying::Hole::{Count, Number, Text};
use crate::saying::filled;
use fault_hypothesis::{Outside, Watch};
use net_plan::{DeviceId, Event, LinkId, Network, What};
use schedule_tables::Accepted;
use std::alloc::Global;
use trace_text::line;
use tte_units::Units;

/// The most devices of a network that keeps the rules.
const MOST_DEVICES: usize = 64;

/// What the event of a line was about.
#[derive(Clone, Copy)]
struct Since<T> {
    line: u32,
    what: T,
}

/// The events of a trace's lines so far, as far as later ones are judged by them.
#[derive(Drop)]
pub(crate) struct Past<'n> {
    alloc: Global,
    accepted: &'n Accepted,
    watch: Watch<'n>,
    /// The time of the last event.
    last: Option<Since<Units>>,
    /// The first cut.
    cut: Option<Since<LinkId>>,
    broken: Option<Since<DeviceId>>,
    /// By the device's id, the line that turned it on, or 0.
    turned_on: [u32; MOST_DEVICES],
    /// The line of the end.
    end: Option<u32>,
}

impl<'n> Past<'n> {
    /// No line.
    pub(crate) fn new(alloc: Global, accepted: &'n Accepted) -> Past<'n> {
        Past {
            alloc,
            accepted,
            watch: Watch::new(accepted),
            last: None,
            cut: None,
            broken: None,
            turned_on: [0; MOST_DEVICES],
            end: None,
        }
    }

    /// Takes the next line. Where the trace is refused there, answers why, as far as memory goes.
    pub(crate) fn take(&mut self, number: u32, text: &[u8]) -> Result<(), Option<String>> {
        if let Some(end) = self.end {
            return Err(filled(
                self.alloc,
                "line {} stands behind line {}, the end",
                &[Count(number.into()), Count(end.into())],
            ));
        }
        let network = self.accepted.network();
        match line(network, text) {
            Ok(event) => self.admit(number, &event),
            Err(_) => Err(self.of_line(number, line_fault(self.alloc, network, text))),
        }
    }

    /// The text of a line's fault.
    fn of_line(&self, number: u32, fault: Option<String>) -> Option<String> {
        let fault = fault?;
        filled(
            self.alloc,
            "line {}: {}",
            &[Count(number.into()), Text(fault.as_str())],
        )
    }

    /// Takes the event of a line.
    fn admit(&mut self, number: u32, event: &Event) -> Result<(), Option<String>> {
        match self.watch.admit(event) {
            Ok(()) => {
                self.keep(number, event);
                Ok(())
            }
            Err(outside) => Err(self.of_line(number, self.breach(event, outside))),
        }
    }

    /// Whether a line was the end.
    pub(crate) fn has_ended(&self) -> bool {
        self.end.is_some()
    }

    /// Keeps of the event of a line what later ones are judged by.
    fn keep(&mut self, number: u32, event: &Event) {
        let line = number;
        let what = event.time;
        self.last = Some(Since { line, what });
        match &event.what {
            What::Cut(link, _) if self.cut.is_none() => {
                let what = *link;
                self.cut = Some(Since { line, what });
            }
            What::Break(device) => {
                let what = *device;
                self.broken = Some(Since { line, what });
            }
            What::On(device) => self.turn_on(number, *device),
            What::End => self.end = Some(number),
            What::Cut(_, _)
            | What::Heal(_, _)
            | What::Rate(_, _)
            | What::Wire(_, _, _)
            | What::Hold(_, _, _)
            | What::Send(_, _) => (),
        }
    }

    fn turn_on(&mut self, number: u32, device: DeviceId) {
        if let Some(line) = self.turned_on.get_mut(device.0 as usize) {
            *line = number;
        }
    }

    /// The line that turned the device on, or 0.
    fn turned_on_at(&self, device: DeviceId) -> u32 {
        match self.turned_on.get(device.0 as usize) {
            Some(line) => *line,
            None => 0,
        }
    }

    /// How the event breaks a condition of the fault hypothesis.
    fn breach(&self, event: &Event, outside: Outside) -> Option<String> {
        match outside {
            Outside::Order => self.early(event.time),
            Outside::Late => late(self.alloc, self.accepted.network(), event.time),
            Outside::Rate
            | Outside::Wire
            | Outside::Hold
            | Outside::Channel
            | Outside::NotMaster
            | Outside::SecondBreak
            | Outside::TooFewMasters
            | Outside::NotBroken
            | Outside::NotOff => self.breach_of(&event.what, outside),
        }
    }

    /// How an event of its kind breaks a condition, whenever it comes.
    fn breach_of(&self, what: &What, outside: Outside) -> Option<String> {
        let network = self.accepted.network();
        match what {
            What::Rate(device, amount) => rate(self.alloc, network, *device, *amount),
            What::Wire(link, _, delay) => wire(self.alloc, network, *link, *delay),
            What::Hold(link, _, delay) => hold(self.alloc, network, *link, *delay),
            What::Cut(link, _) => self.other_channel(*link),
            What::Break(device) => self.wrong_break(*device, outside),
            What::Send(link, _) => not_broken(self.alloc, network, *link),
            What::On(device) => self.not_off(*device),
            What::Heal(_, _) | What::End => None,
        }
    }

    fn early(&self, time: Units) -> Option<String> {
        let before = self.last?;
        filled(
            self.alloc,
            "it comes at {}, earlier than line {} at {}",
            &[
                Number(time.0),
                Count(before.line.into()),
                Number(before.what.0),
            ],
        )
    }

    fn other_channel(&self, link: LinkId) -> Option<String> {
        let network = self.accepted.network();
        let channel = Text(letter_of(channel_of(network, link)?));
        let faulty = Text(letter_of(self.watch.faulty()?));
        let link = Text(link_text(network, link));
        match self.cut {
            Some(first) => filled(
                self.alloc,
                "it cuts {} of channel {}; line {} cuts {}, so channel {} is the faulty one",
                &[
                    link,
                    channel,
                    Count(first.line.into()),
                    Text(link_text(network, first.what)),
                    faulty,
                ],
            ),
            None => filled(
                self.alloc,
                "it cuts {} of channel {}; a switch of channel {} begins off, so that is the faulty one",
                &[link, channel, faulty],
            ),
        }
    }

    fn wrong_break(&self, device: DeviceId, outside: Outside) -> Option<String> {
        match outside {
            Outside::NotMaster => not_master(self.alloc, self.accepted.network(), device),
            Outside::SecondBreak => self.second_break(device),
            Outside::TooFewMasters => self.too_few_masters(device),
            Outside::Order
            | Outside::Late
            | Outside::Rate
            | Outside::Wire
            | Outside::Hold
            | Outside::Channel
            | Outside::NotBroken
            | Outside::NotOff => None,
        }
    }

    fn second_break(&self, device: DeviceId) -> Option<String> {
        let network = self.accepted.network();
        let broken = self.broken?;
        filled(
            self.alloc,
            "it breaks {}; line {} breaks {}, and no second device may break",
            &[
                Text(device_text(network, device)),
                Count(broken.line.into()),
                Text(device_text(network, broken.what)),
            ],
        )
    }

    fn too_few_masters(&self, device: DeviceId) -> Option<String> {
        let network = self.accepted.network();
        let broken = device_at(network, device)?;
        let left = masters_on(network).saturating_sub(u64::from(broken.start.is_some()));
        filled(
            self.alloc,
            "it breaks {}, which leaves {} masters that began on; sync_threshold asks for {}",
            &[
                Text(text_of(&broken.name)),
                Count(left),
                Count(network.sync_threshold.into()),
            ],
        )
    }

    fn not_off(&self, id: DeviceId) -> Option<String> {
        let device = Text(device_text(self.accepted.network(), id));
        let (line, text) = match self.broken {
            Some(broken) if broken.what == id => {
                (broken.line, "it turns on {}, which line {} breaks")
            }
            Some(_) | None => (
                self.turned_on_at(id),
                "it turns on {}, which line {} turned on",
            ),
        };
        if line == 0 {
            return filled(self.alloc, "it turns on {}, which begins on", &[device]);
        }
        filled(self.alloc, text, &[device, Count(line.into())])
    }
}

/// How many masters of the network begin on.
fn masters_on(network: &Network) -> u64 {
    let mut count = 0u64;
    for device in network.device.as_slice() {
        if device.role.is_master() && device.start.is_some() {
            count = count.saturating_add(1);
        }
    }
    count
}
