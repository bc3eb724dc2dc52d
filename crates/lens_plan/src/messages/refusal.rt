/// Why a line of the messages is refused: the fault of its leftmost wrong word.
#[derive(Clone, Copy, PartialEq, Eq)]
pub enum MessageRefusal {
    /// The line has more than 4,096 octets.
    Long,
    /// It is another word than those that may stand there, or the line has ended.
    Form,
    /// A number is not in decimal, has a leading zero, or is none of the values that it may have.
    Number,
    /// The message's name is no name, or a device is no end system of the network.
    Name,
    /// The name or the id is that of a virtual link of the network or of an earlier message.
    Taken,
    /// A receiver is the sender or an earlier receiver.
    Twice,
}

/// The first line of the messages that is refused, all lines counted from 1, and why.
#[derive(Clone, Copy, PartialEq, Eq)]
pub struct RefusedLine {
    pub number: u64,
    pub refusal: MessageRefusal,
}

/// Why a line gives no message.
#[derive(Clone, Copy)]
pub(crate) enum LineFault {
    Refused(MessageRefusal),
    OutOfMemory,
}

/// Why a file gives no messages.
#[derive(Clone, Copy)]
pub enum NoMessages {
    Refused(RefusedLine),
    OutOfMemory,
}
