use crate::{Spot, TableName};
use thiserror::Error;

/// Why a text has no reading as a network.
#[derive(Clone, Copy, Debug, PartialEq, Eq, Error)]
pub enum FileRefusal {
    /// The text is no TOML document.
    #[error("the text is no TOML document")]
    NotToml,
    /// This key is not there.
    #[error("a key is missing: {0:?}")]
    Missing(Spot),
    /// The value of this key is of another kind of TOML.
    #[error("a value is of another kind: {0:?}")]
    Kind(Spot),
    /// This table, at this place in its array, has a key that it does not know.
    #[error("a key is unknown in table {1} of {0:?}")]
    Unknown(TableName, u32),
    /// The value of this key is none of those that it may have.
    #[error("a value is out of its range: {0:?}")]
    Range(Spot),
    /// Nothing has the name that stands at this key.
    #[error("a name is unknown: {0:?}")]
    Name(Spot),
    /// There is no memory left.
    #[error("out of memory")]
    OutOfMemory,
}
