ghost use Rattle.std.specs.Prelude.{◌≡◌};
ghost use Rattle.schedule_tables.specs.Numbers.{number_of};

/// The rules that a network keeps to be accepted. Each is judged at places, or in parts, and
/// supposes those before it.
#[derive(Clone, Copy, PartialEq, Eq)]
pub enum Rule {
    /// There are not too many devices, links, virtual links and rows.
    Limits,
    /// No two devices have one name or one address.
    DevicesDiffer,
    /// No two links have one name.
    LinksDiffer,
    /// Each channel has one compression master.
    CompressionMasters,
    /// Links join end systems and relays to switches.
    Joints,
    /// Each device is connected to its compression masters.
    Connections,
    /// There are enough masters.
    Masters,
    /// Dmax has room for the delays.
    Delays,
    /// The spread of the starts has room for errors.
    Settling,
    /// The precision has room for errors.
    Precision,
    /// The correction comes when all is heard.
    Correction,
    /// The schedule has its place in the cycle.
    ScheduleStart,
    /// Windows end in the cycle.
    WindowEnds,
    /// No two virtual links have one name.
    VlNamesDiffer,
    /// No two virtual links have one id.
    VlIdsDiffer,
    /// Periods are powers of two.
    Periods,
    /// Senders are end systems.
    Senders,
    /// A virtual link goes once by a link.
    LinksOnce,
    /// Rows leave senders, or switches that have the frame.
    Sources,
    /// Rows enter devices that do not have the frame.
    Targets,
    /// Rows of one port stand apart.
    Spacing,
    /// Virtual links go by both channels.
    BothChannels,
    /// Rows come in time.
    Forwarding,
    /// Not too many rows leave a device.
    RowsOfDevice,
}

impl Rule {
    /// All rules, in the order in which they are judged.
    pub const ALL: [Rule; 24] = [
        Rule::Limits,
        Rule::DevicesDiffer,
        Rule::LinksDiffer,
        Rule::CompressionMasters,
        Rule::Joints,
        Rule::Connections,
        Rule::Masters,
        Rule::Delays,
        Rule::Settling,
        Rule::Precision,
        Rule::Correction,
        Rule::ScheduleStart,
        Rule::WindowEnds,
        Rule::VlNamesDiffer,
        Rule::VlIdsDiffer,
        Rule::Periods,
        Rule::Senders,
        Rule::LinksOnce,
        Rule::Sources,
        Rule::Targets,
        Rule::Spacing,
        Rule::BothChannels,
        Rule::Forwarding,
        Rule::RowsOfDevice,
    ];

    /// The rule's number, from 1 to 24, in the order in which they are judged.
    pub fn number(self) -> u8
        ensures { result ≡ number_of self }
    {
        match self {
            Rule::Limits => 1,
            Rule::DevicesDiffer => 2,
            Rule::LinksDiffer => 3,
            Rule::CompressionMasters => 4,
            Rule::Joints => 5,
            Rule::Connections => 6,
            Rule::Masters => 7,
            Rule::Delays => 8,
            Rule::Settling => 9,
            Rule::Precision => 10,
            Rule::Correction => 11,
            Rule::ScheduleStart => 12,
            Rule::WindowEnds => 13,
            Rule::VlNamesDiffer => 14,
            Rule::VlIdsDiffer => 15,
            Rule::Periods => 16,
            Rule::Senders => 17,
            Rule::LinksOnce => 18,
            Rule::Sources => 19,
            Rule::Targets => 20,
            Rule::Spacing => 21,
            Rule::BothChannels => 22,
            Rule::Forwarding => 23,
            Rule::RowsOfDevice => 24,
        }
    }
}
