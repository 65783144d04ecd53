//! What a buffer of VA-API can't hold.

use thiserror::Error;

/// Why a buffer can't hold what it is to be filled from.
#[derive(Clone, Copy, Debug, PartialEq, Eq, Drop, Error)]
pub enum VaError {
    /// A number of the range extension isn't 0 to 255, which H.265 doesn't allow (7.4.3.3.2).
    #[error("a number of the range extension takes more than 8 bits")]
    RangeExtension,
    /// A chroma offset of its lists isn't -128 to 127, which H.265 doesn't allow (7.4.3.3.2).
    #[error("a chroma offset of the range extension takes more than 8 bits")]
    ChromaOffsetList,
    /// A tile column is wider than 65536 coding tree blocks, which no picture is (7.4.3.3.1).
    #[error("a tile column is wider than 65536 coding tree blocks")]
    TileColumns,
    /// A tile row is higher than 65536 coding tree blocks, which no picture is (7.4.3.3.1).
    #[error("a tile row is higher than 65536 coding tree blocks")]
    TileRows,
    /// There are sixteen reference pictures or more, the current picture among them where pictures
    /// may refer to themselves; there are places for fifteen.
    #[error("there are more than fifteen reference pictures")]
    References,
    /// The surface of a reference picture wasn't given.
    #[error("a reference picture has no surface")]
    NoSurface,
    /// The resolution of motion vectors isn't 0 to 3, of which it takes 2 bits (7.4.3.2.3).
    #[error("the resolution of motion vectors takes more than 2 bits")]
    MotionVectorResolution,
    /// There are more than 128 first palette predictors, which H.265 doesn't allow (7.4.3.2.3).
    #[error("there are more than 128 first palette predictors")]
    PaletteSize,
    /// A first palette predictor takes more than 16 bits, which H.265 doesn't allow (7.4.3.2.3).
    #[error("a first palette predictor takes more than 16 bits")]
    PaletteEntry,
    /// The unit has 2^32 bytes or more.
    #[error("the size of the unit takes more than 32 bits")]
    UnitSize,
    /// 2^16 emulation prevention bytes or more are before the data of the slice.
    #[error("the number of emulation prevention bytes takes more than 16 bits")]
    EmulationPrevention,
    /// There are 2^16 entry points or more (7.4.7.1, num_entry_point_offsets).
    #[error("the number of entry points takes more than 16 bits")]
    EntryPoints,
    /// The colour plane isn't 0 to 3, of which it takes 2 bits (7.4.7.1).
    #[error("the colour plane takes more than 2 bits")]
    ColourPlane,
    /// A reference list has sixteen places, which H.265 doesn't allow (7.4.7.1,
    /// num_ref_idx_l0_active_minus1 and num_ref_idx_l1_active_minus1).
    #[error("a reference picture list has more than fifteen places")]
    ReferenceList,
    /// ChromaLog2WeightDenom is above 7, which H.265 doesn't allow (7.4.7.3).
    #[error("the logarithm of the denominator of chroma weights is above 7")]
    ChromaDenominator,
    /// A luma offset isn't -128 to 127, as can be with high precision (7.4.7.3, luma_offset_l0 and
    /// luma_offset_l1).
    #[error("an offset of luma takes more than 8 bits")]
    LumaOffset,
    /// A chroma offset isn't -128 to 127, as can be with high precision (7-56).
    #[error("an offset of chroma takes more than 8 bits")]
    ChromaOffset,
}
