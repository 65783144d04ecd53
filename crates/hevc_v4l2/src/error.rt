//! What a control can't hold.

use thiserror::Error;

/// Why a control can't hold what it is to be filled from.
#[derive(Clone, Copy, Debug, PartialEq, Eq, Drop, Error)]
pub enum ControlError {
    /// A tile column is wider than 256 coding tree blocks (7.4.3.3.1, column_width_minus1).
    #[error("a tile column is wider than 256 coding tree blocks")]
    TileColumns,
    /// A tile row is higher than 256 coding tree blocks (7.4.3.3.1, row_height_minus1).
    #[error("a tile row is higher than 256 coding tree blocks")]
    TileRows,
    /// The unit has 2^29 bytes or more, or 2^32 bytes or more are before its data.
    #[error("the size of the unit takes more than 32 bits")]
    UnitSize,
    /// The header's own short-term set takes 2^16 bits or more.
    #[error("the size of the short-term reference picture set takes more than 16 bits")]
    ShortTermSize,
    /// ChromaLog2WeightDenom is above 7, which H.265 doesn't allow (7.4.7.3).
    #[error("the logarithm of the denominator of chroma weights is above 7")]
    ChromaDenominator,
    /// A luma offset isn't -128 to 127, as can be with high precision (7.4.7.3, luma_offset_l0 and
    /// luma_offset_l1).
    #[error("an offset of luma takes more than 8 bits")]
    LumaOffset,
    /// A chroma offset isn't -128 to 127, as can be with high precision (7-56).
    #[error("an offset of chroma takes more than 8 bits")]
    ChromaOffset,
    /// A reference list has the current picture itself (8.3.4), which isn't in the buffer.
    #[error("a reference picture list has the current picture")]
    CurrentPicture,
    /// There are more entry points than places for them.
    #[error("there are more entry points than places for them")]
    NoRoom,
    /// Between two entry points there are 2^32 bytes (7.4.7.1, entry_point_offset_minus1).
    #[error("the bytes between two entry points take more than 32 bits")]
    EntryPoint,
}
