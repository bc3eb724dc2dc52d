use tte_run::Status;

// The statuses, from number 0 on.
const STATUSES: &[Status] = &[
    Status::Done,
    Status::Usage,
    Status::FrameRefused,
    Status::NetworkRefused,
    Status::TraceRefused,
    Status::OutsideHypothesis,
    Status::ReadFault,
    Status::WriteFault,
    Status::OutOfMemory,
    Status::TooLong,
    Status::GranuleRefused,
    Status::AuditRefused,
    Status::CaptureRefused,
    Status::NameRefused,
    Status::VoteRefused,
    Status::NumberRefused,
    Status::MessagesRefused,
    Status::PlanRefused,
];

#[test]
fn statuses_have_their_numbers(rt: HostRuntime) {
    for (number, status) in STATUSES.iter().enumerate() {
        assert!(rt; usize::from(status.number()) == number);
    }
}
