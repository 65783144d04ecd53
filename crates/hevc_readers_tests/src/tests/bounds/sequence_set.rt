//! A sequence set of two sub-layers with all that can be present: 128 by 96 samples, 4:4:4 of 12
//! bits of luma and 10 of chroma.
use super::Form::{U, Ue};
use super::Line::{Bits, Bounded, Checked};
use super::parts::{PROFILE, SCALING, TIMING};
use super::{ANY, Line, Row, Unit};

/// Before its profile.
const BEGINNING: &[Line] = &[
    // rows 1 to 3
    Bits(4, 0),
    Bounded(U(3), 1, Row(5, 2), 0, 6),
    Bits(1, 1),
];

/// Rows 5 to 28.
const CODING: &[Line] = &[
    // rows 5 to 9
    Bounded(Ue, 0, Row(5, 5), 0, 15),
    Bounded(Ue, 3, Row(5, 6), 0, 3),
    Bits(1, 0),
    Bounded(Ue, 128, Row(5, 8), 1, 16888),
    Bounded(Ue, 96, Row(5, 9), 1, 16888),
    // rows 10 to 12
    Bits(1, 1),
    Bounded(Ue, 0, Row(5, 11), 0, ANY),
    Bounded(Ue, 0, Row(5, 11), 0, ANY),
    Bounded(Ue, 0, Row(5, 11), 0, ANY),
    Bounded(Ue, 0, Row(5, 12), 0, 95),
    Checked(3, Row(5, 12), None, Some(127)),
    // rows 13 to 16
    Bounded(Ue, 4, Row(5, 13), 0, 6),
    Bounded(Ue, 2, Row(5, 14), 0, 6),
    Bounded(Ue, 0, Row(5, 15), 0, 12),
    Bits(1, 1),
    // rows 17 to 19, of each sub-layer
    Bounded(Ue, 1, Row(5, 17), 0, 16),
    Bounded(Ue, 1, Row(5, 18), 0, 1),
    Bounded(Ue, 0, Row(5, 19), 0, 255),
    Bounded(Ue, 4, Row(5, 17), 0, 16),
    Bounded(Ue, 2, Row(5, 18), 0, 4),
    Bounded(Ue, 0, Row(5, 19), 0, 255),
    // rows 20 to 26: coding tree blocks of 32, transform blocks up to 32
    Bounded(Ue, 0, Row(5, 20), 0, 3),
    Bounded(Ue, 2, Row(5, 21), 0, 6),
    Bounded(Ue, 0, Row(5, 22), 0, 3),
    Bounded(Ue, 3, Row(5, 23), 0, 3),
    Checked(2, Row(5, 24), None, Some(0)),
    Checked(4, Row(5, 24), Some(2), None),
    Bounded(Ue, 0, Row(5, 25), 0, 4),
    Bounded(Ue, 0, Row(5, 26), 0, 4),
    // rows 27 and 28
    Bits(1, 1),
    Bits(1, 1),
];

/// Rows 30 to 41, and table 7.
const TOOLS: &[Line] = &[
    // rows 30 to 34
    Bits(1, 1),
    Bits(1, 1),
    Bits(1, 1),
    Bits(4, 0),
    Bits(4, 0),
    Bounded(Ue, 0, Row(5, 32), 0, 2),
    Bounded(Ue, 0, Row(5, 33), 0, 2),
    Bits(1, 0),
    // row 35
    Bounded(Ue, 3, Row(5, 35), 0, 64),
    // set 0 of table 7: rows 7 to 12
    Bounded(Ue, 1, Row(7, 7), 0, 4),
    Bounded(Ue, 1, Row(7, 8), 0, 3),
    Bounded(Ue, 0, Row(7, 9), 0, 32767),
    Bits(1, 1),
    Bounded(Ue, 0, Row(7, 11), 0, 32767),
    Bits(1, 1),
    // set 1: rows 1 to 5
    Bits(1, 1),
    Bits(1, 0),
    Bounded(Ue, 0, Row(7, 4), 0, 32767),
    Bits(3, 7),
    // set 2: rows 1 and 7 to 10
    Bits(1, 0),
    Bounded(Ue, 1, Row(7, 7), 0, 4),
    Bounded(Ue, 0, Row(7, 8), 0, 3),
    Bounded(Ue, 0, Row(7, 9), 0, 32767),
    Bits(1, 1),
    // rows 37 to 40
    Bits(1, 1),
    Bounded(Ue, 3, Row(5, 38), 0, 32),
    Bits(4, 3),
    Bits(1, 1),
    Bits(4, 7),
    Bits(1, 0),
    Bits(4, 11),
    Bits(1, 0),
    // row 41
    Bits(1, 1),
    Bits(1, 0),
    Bits(1, 1),
];

/// Rows 1 to 19 of table 8.
const USABILITY: &[Line] = &[
    // rows 1 to 9
    Bits(1, 1),
    Bits(8, 255),
    Bits(16, 1),
    Bits(16, 1),
    Bits(1, 1),
    Bits(1, 0),
    Bits(1, 1),
    Bits(3, 0),
    Bits(1, 0),
    Bits(1, 1),
    Bits(24, 0),
    // rows 10 to 12
    Bits(1, 1),
    Bounded(Ue, 0, Row(8, 11), 0, 5),
    Bounded(Ue, 0, Row(8, 12), 0, 5),
    // rows 13 and 14
    Bits(4, 1),
    Bounded(Ue, 0, Row(8, 14), 0, ANY),
    Bounded(Ue, 0, Row(8, 14), 0, ANY),
    Bounded(Ue, 0, Row(8, 14), 0, ANY),
    Bounded(Ue, 0, Row(8, 14), 0, ANY),
    // rows 15 to 19
    Bits(1, 1),
    Bits(32, 1),
    Bits(32, 25),
    Bits(1, 1),
    Bounded(Ue, 0, Row(8, 18), 0, ANY),
    Bits(1, 1),
];

/// What comes after the timing.
const END: &[Line] = &[
    // rows 21 to 26 of table 8
    Bits(1, 1),
    Bits(3, 0),
    Bounded(Ue, 0, Row(8, 23), 0, 4095),
    Bounded(Ue, 0, Row(8, 24), 0, ANY),
    Bounded(Ue, 0, Row(8, 24), 0, ANY),
    Bounded(Ue, 0, Row(8, 25), 0, 16),
    Bounded(Ue, 0, Row(8, 26), 0, 15),
    // rows 43 to 48
    Bits(1, 1),
    Bits(1, 1),
    Bounded(U(1), 0, Row(5, 45), 0, 0),
    Bounded(U(1), 0, Row(5, 46), 0, 0),
    Bits(1, 1),
    Bits(4, 0),
    // table 9
    Bits(9, 0),
    // table 10
    Bits(1, 1),
    Bits(1, 1),
    Bounded(Ue, 4, Row(10, 2), 0, 64),
    Bounded(Ue, 2, Row(10, 3), 0, 124),
    Bits(1, 1),
    Bounded(Ue, 0, Row(10, 5), 0, 5),
    Bits(12, 5),
    Bits(10, 6),
    Bits(10, 7),
    Bits(2, 2),
    Bits(1, 0),
];

/// Table 5 whole.
pub(super) const SEQUENCE_SET: Unit = Unit {
    header: [0x42, 0x01],
    parts: &[
        BEGINNING, PROFILE, CODING, SCALING, TOOLS, USABILITY, TIMING, END,
    ],
};
