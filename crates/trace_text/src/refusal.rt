use thiserror::Error;

/// Why a line has no reading as an event: the fault of its leftmost wrong word.
#[derive(Clone, Copy, Debug, PartialEq, Eq, Error)]
pub enum LineRefusal {
    /// A word is missing or one too many, or it is none of the words that may stand there.
    #[error("the line has another form")]
    Form,
    /// The network has no device, or no link, of this name.
    #[error("a name is unknown")]
    Name,
    /// A number is not in decimal, has a leading zero, or is out of its range.
    #[error("a number is wrong")]
    Number,
    /// The octets of a frame are no even number of hexadecimal digits.
    #[error("octets are not in hexadecimal")]
    Hex,
    /// A frame has fewer than 60 octets or more than 1,514.
    #[error("a frame has another count of octets")]
    Octets,
}
