// Refusals of a friend table.

/// Why a friend isn't joined to a table, printed as J1 to J5. Columns and entries count from 0.
#[derive(Clone, Copy, Debug, PartialEq, Eq)]
pub enum JoinCause {
    /// The main table, or else the friend, has no int column of the key's name.
    NoKey { friend: bool },
    /// The main table has a column with the name of this column of the friend.
    NameTaken { column: u32 },
    /// Together they would have so many columns.
    TooManyColumns { count: u32 },
    /// An earlier entry of the friend has the key of this one.
    Duplicate { entry: u32 },
    /// Together the vectors would have so many elements.
    TooLarge { elements: u64 },
}
