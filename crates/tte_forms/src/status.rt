ghost use Rattle.std.specs.Prelude.{◌≡◌};
ghost use Rattle.tte_forms.specs.StatusNumber.{status_number};

/// How the program ended.
#[derive(Clone, Copy, Debug, PartialEq, Eq)]
pub enum Status {
    /// All was read to its end and all was written.
    Done,
    /// The words are of no form.
    Usage,
    /// The octets are no sequence of protocol control frames.
    FrameRefused,
    /// The text is no network, or one of the rules on networks fails.
    NetworkRefused,
    /// A line of the trace is refused, or the trace has no end.
    TraceRefused,
    /// An event of the trace is outside the fault hypothesis.
    OutsideHypothesis,
    /// A source failed in this call.
    ReadFault,
    /// The sink failed in this call.
    WriteFault,
    /// Memory ran out.
    OutOfMemory,
    /// A limit on the size of the input is passed.
    TooLong,
    /// The granule is less than the network allows.
    GranuleRefused,
    /// The report is no report of a run of the network.
    AuditRefused,
    /// The file is no capture, or a packet of it is refused.
    CaptureRefused,
    /// The network has no link or virtual link of a name.
    NameRefused,
    /// The three virtual links can't be voted on.
    VoteRefused,
    /// The report has no record of the number.
    NumberRefused,
    /// A line of the messages is refused.
    MessagesRefused,
    /// The messages have no schedule, or none was found.
    PlanRefused,
}

impl Status {
    /// The exit status of the program, from 0 to 17.
    pub fn number(self) -> u8
        ensures { result ≡ status_number self }
    {
        match self {
            Status::Done => 0,
            Status::Usage => 1,
            Status::FrameRefused => 2,
            Status::NetworkRefused => 3,
            Status::TraceRefused => 4,
            Status::OutsideHypothesis => 5,
            Status::ReadFault => 6,
            Status::WriteFault => 7,
            Status::OutOfMemory => 8,
            Status::TooLong => 9,
            Status::GranuleRefused => 10,
            Status::AuditRefused => 11,
            Status::CaptureRefused => 12,
            Status::NameRefused => 13,
            Status::VoteRefused => 14,
            Status::NumberRefused => 15,
            Status::MessagesRefused => 16,
            Status::PlanRefused => 17,
        }
    }
}
