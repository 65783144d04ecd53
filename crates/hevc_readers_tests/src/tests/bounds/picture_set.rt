//! A picture set with all that can be present.
use super::Form::{Se, U, Ue};
use super::Line::{Bits, Bounded};
use super::parts::SCALING;
use super::{ANY, Line, Row, Unit};

/// Before its scaling lists.
const BEGINNING: &[Line] = &[
    // rows 1 to 7
    Bounded(Ue, 0, Row(11, 1), 0, 63),
    Bounded(Ue, 0, Row(11, 2), 0, 15),
    Bits(1, 1),
    Bits(1, 1),
    Bits(3, 1),
    Bits(1, 0),
    Bits(1, 1),
    Bounded(Ue, 0, Row(11, 6), 0, 14),
    Bounded(Ue, 0, Row(11, 7), 0, 14),
    // rows 8 to 13
    Bounded(Se, 0, Row(11, 8), -50, 25),
    Bits(1, 0),
    Bits(1, 1),
    Bits(1, 1),
    Bounded(Ue, 0, Row(11, 10), 0, 2),
    Bounded(Se, 2, Row(11, 11), -12, 12),
    Bounded(Se, -2, Row(11, 12), -12, 12),
    Bits(6, 0b111011),
    // rows 14 to 19: two columns of four blocks, two rows of three
    Bounded(Ue, 1, Row(11, 14), 0, 3),
    Bounded(Ue, 1, Row(11, 15), 0, 2),
    Bits(1, 0),
    Bounded(Ue, 0, Row(11, 17), 0, 2),
    Bounded(Ue, 0, Row(11, 18), 0, 1),
    Bits(1, 1),
    // rows 20 to 24
    Bits(1, 1),
    Bits(1, 1),
    Bits(1, 1),
    Bits(1, 0),
    Bounded(Se, 3, Row(11, 22), -6, 6),
    Bounded(Se, -4, Row(11, 23), -6, 6),
    Bits(1, 1),
];

/// After them.
const END: &[Line] = &[
    // rows 26 to 33
    Bits(1, 1),
    Bounded(Ue, 0, Row(11, 27), 0, 3),
    Bits(2, 3),
    Bits(1, 1),
    Bounded(U(1), 0, Row(11, 30), 0, 0),
    Bounded(U(1), 0, Row(11, 31), 0, 0),
    Bits(1, 1),
    Bits(4, 0),
    // table 12
    Bounded(Ue, 0, Row(12, 1), 0, 3),
    Bits(1, 1),
    Bits(1, 1),
    Bounded(Ue, 0, Row(12, 3), 0, ANY),
    Bounded(Ue, 0, Row(12, 4), 0, 5),
    Bounded(Se, 0, Row(12, 5), -12, 12),
    Bounded(Se, 0, Row(12, 5), -12, 12),
    Bounded(Ue, 0, Row(12, 6), 0, 2),
    Bounded(Ue, 0, Row(12, 7), 0, 0),
    // table 13
    Bits(1, 1),
    Bits(1, 1),
    Bits(1, 1),
    Bounded(Se, 5, Row(13, 3), -7, 17),
    Bounded(Se, 4, Row(13, 4), -7, 17),
    Bounded(Se, 3, Row(13, 5), -9, 15),
    Bits(1, 1),
    Bounded(Ue, 1, Row(13, 7), 0, 6),
    Bits(1, 0),
    Bounded(Ue, 4, Row(13, 9), 4, 4),
    Bounded(Ue, 2, Row(13, 10), 2, 2),
    Bits(12, 5),
    Bits(10, 6),
    Bits(10, 7),
];

/// Table 11 whole.
pub(super) const PICTURE_SET: Unit = Unit {
    header: [0x44, 0x01],
    parts: &[BEGINNING, SCALING, END],
};
