ghost use Rattle.tte_observers.specs.captures.pcap.{ReadingLaw.{FindsHead, FindsPackets}, RoundTrip.ReadsBack};

/// What reading finds, as a law: a header exactly where its octets stand in the layout, a packet
/// exactly where its octets do, the end exactly at the end, and a refusal exactly where it stands
/// first.
pub fn reading_law()
    ensures head { FindsHead }
    ensures packets { FindsPackets }
{}

/// What was written is read back, as a law: reading a written header and written packets gives the
/// packets, in order, and then the end.
pub fn round_trip_law()
    ensures { ReadsBack }
{}
