use net_plan::VlId;
use tte_units::frames::Pcf;

/// Octets of a `send` event, by where they stand among those of all `send` events.
#[derive(Clone, Copy)]
pub(crate) struct SentPiece {
    /// How many octets stand before them.
    pub from: usize,
    /// How many they are.
    pub len: usize,
}

/// What is kept of a record.
#[derive(Clone, Copy)]
pub(crate) enum KeptFrame {
    /// It is of no frame.
    Nothing,
    /// It is of a control frame, and shows its octets.
    Control(Pcf),
    /// It is of a control frame, and shows none.
    Silent(Pcf),
    /// The frame of the virtual link, as its sender made it for this cycle.
    Made(VlId, u32),
    /// A `send` event with these octets.
    Send(SentPiece),
    /// A frame with the octets of a `send` event; with none where its cause has none.
    Came(SentPiece),
}
