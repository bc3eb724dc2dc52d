ghost use Rattle.device_rules.specs.frames.traced.Delivery.{DeliveriesShowFrames};

/// The octets of a record, as a law: where a frame that is owed to a device is delivered, the record shows the octets
/// that its sender made.
pub fn delivery_law()
    ensures { DeliveriesShowFrames }
{}
