//! Parts of sets.
use super::Form::{Se, U, Ue};
use super::Line::{Bits, Bounded};
use super::{ANY, Line, Row};

/// Table 2 for two sub-layers.
pub(super) const PROFILE: &[Line] = &[
    // rows 1 to 4
    Bits(2, 0),
    Bits(1, 0),
    Bits(5, 1),
    Bits(32, 0x6000_0000),
    // rows 5 and 10 to 14
    Bits(4, 9),
    Bits(32, 0),
    Bits(12, 0),
    // row 27, whose greatest value stands alone, as does the least
    Bounded(U(8), 60, Row(2, 27), 30, 186),
    // rows 28 and 29, then 30 and 31
    Bits(2, 3),
    Bits(14, 0),
    Bits(2, 0),
    Bits(1, 0),
    Bits(5, 1),
    Bits(32, 0x6000_0000),
    Bits(4, 9),
    Bits(32, 0),
    Bits(12, 0),
    Bounded(U(8), 30, Row(2, 31), 30, 186),
];

/// Table 3, with its common rows, for two sub-layers: both kinds of schedules, one of each.
pub(super) const TIMING: &[Line] = &[
    // rows 1 to 9
    Bits(2, 3),
    Bits(1, 1),
    Bits(8, 0),
    Bits(5, 0),
    Bits(1, 0),
    Bits(5, 0),
    Bits(4, 0),
    Bits(4, 0),
    Bits(4, 0),
    Bits(15, 0),
    // rows 10 to 14
    Bits(1, 0),
    Bits(1, 1),
    Bounded(Ue, 0, Row(3, 12), 0, 2047),
    Bounded(Ue, 0, Row(3, 14), 0, 31),
    // row 15: table 4
    Bounded(Ue, 0, Row(4, 1), 0, ANY),
    Bounded(Ue, 0, Row(4, 1), 0, ANY),
    Bounded(Ue, 0, Row(4, 2), 0, ANY),
    Bounded(Ue, 0, Row(4, 2), 0, ANY),
    Bits(1, 1),
    // row 16: table 4
    Bounded(Ue, 0, Row(4, 1), 0, ANY),
    Bounded(Ue, 0, Row(4, 1), 0, ANY),
    Bounded(Ue, 0, Row(4, 2), 0, ANY),
    Bounded(Ue, 0, Row(4, 2), 0, ANY),
    Bits(1, 1),
    // rows 10 to 14
    Bits(1, 1),
    Bounded(Ue, 0, Row(3, 12), 0, 2047),
    Bounded(Ue, 0, Row(3, 14), 0, 31),
    // row 15: table 4
    Bounded(Ue, 0, Row(4, 1), 0, ANY),
    Bounded(Ue, 0, Row(4, 1), 0, ANY),
    Bounded(Ue, 0, Row(4, 2), 0, ANY),
    Bounded(Ue, 0, Row(4, 2), 0, ANY),
    Bits(1, 1),
    // row 16: table 4
    Bounded(Ue, 0, Row(4, 1), 0, ANY),
    Bounded(Ue, 0, Row(4, 1), 0, ANY),
    Bounded(Ue, 0, Row(4, 2), 0, ANY),
    Bounded(Ue, 0, Row(4, 2), 0, ANY),
    Bits(1, 1),
];

/// Table 6: the first list of 4x4 and of 16x16 with entries, all others by another list.
pub(super) const SCALING: &[Line] = &[
    // 4x4
    Bits(1, 1),
    Bounded(Se, 0, Row(6, 4), -128, 127),
    Bits(15, 0x7fff),
    Bits(1, 0),
    Bounded(Ue, 0, Row(6, 2), 0, 1),
    Bits(1, 0),
    Bounded(Ue, 0, Row(6, 2), 0, 2),
    Bits(1, 0),
    Bounded(Ue, 0, Row(6, 2), 0, 3),
    Bits(1, 0),
    Bounded(Ue, 0, Row(6, 2), 0, 4),
    Bits(1, 0),
    Bounded(Ue, 0, Row(6, 2), 0, 5),
    // 8x8
    Bits(1, 0),
    Bounded(Ue, 0, Row(6, 2), 0, 0),
    Bits(1, 0),
    Bounded(Ue, 0, Row(6, 2), 0, 1),
    Bits(1, 0),
    Bounded(Ue, 0, Row(6, 2), 0, 2),
    Bits(1, 0),
    Bounded(Ue, 0, Row(6, 2), 0, 3),
    Bits(1, 0),
    Bounded(Ue, 0, Row(6, 2), 0, 4),
    Bits(1, 0),
    Bounded(Ue, 0, Row(6, 2), 0, 5),
    // 16x16
    Bits(1, 1),
    Bounded(Se, 0, Row(6, 3), -7, 247),
    Bounded(Se, 0, Row(6, 4), -128, 127),
    Bits(31, 0x7fff_ffff),
    Bits(32, 0xffff_ffff),
    Bits(1, 0),
    Bounded(Ue, 0, Row(6, 2), 0, 1),
    Bits(1, 0),
    Bounded(Ue, 0, Row(6, 2), 0, 2),
    Bits(1, 0),
    Bounded(Ue, 0, Row(6, 2), 0, 3),
    Bits(1, 0),
    Bounded(Ue, 0, Row(6, 2), 0, 4),
    Bits(1, 0),
    Bounded(Ue, 0, Row(6, 2), 0, 5),
    // 32x32
    Bits(1, 0),
    Bounded(Ue, 0, Row(6, 2), 0, 0),
    Bits(1, 0),
    Bounded(Ue, 0, Row(6, 2), 0, 1),
];
