//! How indices are told.

/// How the indices of the elements of a row follow from what was told before in the unit. Rows are
/// of the same table.
#[derive(Clone, Copy, PartialEq, Eq)]
pub enum Rule {
    /// There are none.
    Absent,
    /// The elements are repeated together: how often they were there.
    Each,
    /// The same, from 1.
    AfterFirst,
    /// The same, from 0 where the flag of a row is set, else from the value of another.
    SubLayers { flag: u8, top: u8 },
    /// The same, of sub-layers from the highest one on (table 2).
    AboveTop,
    /// The index of the last element of a row.
    Last { of: u8 },
    /// The index that the next element of a row has.
    Next { of: u8 },
    /// Two indices, the second of which is below the value of a row and some more.
    Pairs { first: u8, of: u8, more: u8 },
    /// The schedules of a sub-layer, once or twice (table 4).
    Schedules,
    /// The size, less so many, and the matrix of a scaling list (table 6).
    Matrices { less: u8 },
    /// The members of a predicted set (table 7).
    Members,
    /// The first set of flags says which.
    First,
    /// The second one does.
    Second,
    /// The second one does, and each has two elements of the row.
    SecondTwice,
    /// The bits of the profile of a sub-layer (table 2).
    SubLayerProfile,
    /// Each byte has eight bits.
    Bytes,
    /// The first bit is another element than those after it.
    Alignment,
}
