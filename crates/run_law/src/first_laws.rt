ghost use Rattle.run_law.specs.law.FirstLaws.{BrokenAreStill, DeliveriesBegin, SentFramesCome};

/// In an accepted network, under events within the fault hypothesis, the frame of a master comes to the first switch
/// of each channel whose way is not cut when the frame leaves, unless the master is broken by then: there it arrives,
/// or is dropped for a reason.
pub fn sent_frames_come()
    ensures { SentFramesCome }
{}

/// From its break on a device has no records but drops of what comes to it, since it is off, the loss of what its
/// `send` events put on a cut way, and that of its clock at the end.
pub fn broken_are_still()
    ensures { BrokenAreStill }
{}

/// The chain of causes of each frame that is delivered goes back to its dispatch by its sender, or to the `send` event
/// that put it on its link.
pub fn deliveries_begin()
    ensures { DeliveriesBegin }
{}
