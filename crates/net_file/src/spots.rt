use crate::KeyName;

/// A kind of table in a network file.
#[derive(Clone, Copy, Debug, PartialEq, Eq)]
pub enum TableName {
    /// The whole document.
    Top,
    Device,
    Link,
    /// A virtual link.
    Vl,
    /// A row of the schedule.
    Row,
}

/// A table of a network file.
#[derive(Clone, Copy, PartialEq, Eq)]
pub(crate) struct TableSpot {
    pub(crate) table: TableName,
    /// Its place in its array, from 0. It is 0 for the whole document.
    pub(crate) index: u32,
}

/// A key of a table of a network file.
#[derive(Clone, Copy, Debug, PartialEq, Eq)]
pub struct Spot {
    pub table: TableName,
    /// The table's place in its array, from 0. It is 0 for the whole document.
    pub index: u32,
    pub key: KeyName,
}
