//! Slice segment headers with all that can be present.
use super::Form::{Se, U, Ue};
use super::Line::{Bits, Bounded, Checked};
use super::{Line, Row, Unit};

/// Rows 1 to 10 of a B slice.
const BEGINNING: &[Line] = &[
    // rows 1 to 5
    Bits(1, 0),
    Bounded(Ue, 0, Row(14, 3), 0, 63),
    Bits(1, 0),
    Bounded(U(4), 1, Row(14, 5), 0, 11),
    // rows 6 to 8
    Bits(1, 0),
    Bounded(Ue, 0, Row(14, 7), 0, 2),
    Bits(1, 0),
    // row 10
    Bits(4, 5),
];

/// A short-term set of its own, predicted.
const PREDICTED_SET: &[Line] = &[
    // rows 11 and 12: rows 1 to 5 of table 7
    Bits(1, 0),
    Bits(1, 1),
    Bounded(Ue, 0, Row(7, 2), 0, 2),
    Bits(1, 0),
    Bounded(Ue, 0, Row(7, 4), 0, 32767),
    Bits(2, 3),
];

/// One of the sequence set's.
const NAMED_SET: &[Line] = &[
    // rows 11 and 13
    Bits(1, 1),
    Bounded(U(2), 2, Row(14, 13), 0, 2),
];

/// Rows 14 to 26: long-term pictures and active places.
const REFERENCES: &[Line] = &[
    // rows 14 and 15
    Bounded(Ue, 1, Row(14, 14), 0, 3),
    Bounded(Ue, 1, Row(14, 15), 0, 15),
    // rows 16, 19 and 20
    Bounded(U(2), 1, Row(14, 16), 0, 2),
    Bits(1, 1),
    Bounded(Ue, 2, Row(14, 20), 0, 1 << 28),
    // rows 17 to 19
    Bits(4, 9),
    Bits(1, 1),
    Bits(1, 0),
    // rows 21 to 26
    Bits(1, 1),
    Bits(1, 1),
    Bits(1, 0),
    Bits(1, 1),
    Bounded(Ue, 1, Row(14, 25), 0, 14),
    Bounded(Ue, 1, Row(14, 26), 0, 14),
];

/// Rows 27 to 30, with the collocated picture in list 0.
const LISTS: &[Line] = &[
    // row 27: table 15
    Bits(1, 1),
    Bounded(U(2), 0, Row(15, 2), 0, 2),
    Bounded(U(2), 1, Row(15, 2), 0, 2),
    Bits(1, 1),
    Bounded(U(2), 2, Row(15, 4), 0, 2),
    Bounded(U(2), 0, Row(15, 4), 0, 2),
    // rows 28 to 31
    Bits(1, 0),
    Bits(1, 1),
];

/// The same with it in list 1.
const LISTS_OF_1: &[Line] = &[
    // row 27: table 15
    Bits(1, 1),
    Bounded(U(2), 0, Row(15, 2), 0, 2),
    Bounded(U(2), 1, Row(15, 2), 0, 2),
    Bits(1, 1),
    Bounded(U(2), 2, Row(15, 4), 0, 2),
    Bounded(U(2), 0, Row(15, 4), 0, 2),
    // rows 28 to 31
    Bits(1, 0),
    Bits(1, 0),
];

/// Rows 31 and 32, of both lists.
const WEIGHTS: &[Line] = &[
    // row 31
    Bits(1, 1),
    Bounded(Ue, 1, Row(14, 31), 0, 1),
    // rows 1 and 2 of table 16
    Bounded(Ue, 2, Row(16, 1), 0, 7),
    Bounded(Se, -1, Row(16, 2), -2, 127),
    // rows 3 and 4 of table 16
    Bits(2, 3),
    Bits(2, 3),
    // place 0: rows 5 to 8
    Bounded(Se, 0, Row(16, 5), -128, 127),
    Bounded(Se, 0, Row(16, 6), -128, 127),
    Bounded(Se, 0, Row(16, 7), -128, 127),
    Bounded(Se, 0, Row(16, 8), -512, 511),
    Bounded(Se, 0, Row(16, 7), -128, 127),
    Bounded(Se, 0, Row(16, 8), -512, 511),
    // place 1: rows 5 to 8
    Bounded(Se, 0, Row(16, 5), -128, 127),
    Bounded(Se, 0, Row(16, 6), -128, 127),
    Bounded(Se, 0, Row(16, 7), -128, 127),
    Bounded(Se, 0, Row(16, 8), -512, 511),
    Bounded(Se, 0, Row(16, 7), -128, 127),
    Bounded(Se, 0, Row(16, 8), -512, 511),
    // rows 9 and 10 of table 16
    Bits(2, 3),
    Bits(2, 3),
    // place 0: rows 11 to 14
    Bounded(Se, 0, Row(16, 11), -128, 127),
    Bounded(Se, 0, Row(16, 12), -128, 127),
    Bounded(Se, 0, Row(16, 13), -128, 127),
    Bounded(Se, 0, Row(16, 14), -512, 511),
    Bounded(Se, 0, Row(16, 13), -128, 127),
    Bounded(Se, 0, Row(16, 14), -512, 511),
    // place 1: rows 11 to 14
    Bounded(Se, 0, Row(16, 11), -128, 127),
    Bounded(Se, 0, Row(16, 12), -128, 127),
    Bounded(Se, 0, Row(16, 13), -128, 127),
    Bounded(Se, 0, Row(16, 14), -512, 511),
    Bounded(Se, 0, Row(16, 13), -128, 127),
    Bounded(Se, 0, Row(16, 14), -512, 511),
];

/// Rows 33 to 41.
const QUANTISERS: &[Line] = &[
    // rows 33 to 36
    Bounded(Ue, 0, Row(14, 33), 0, 255),
    Bits(1, 1),
    Bounded(Se, 0, Row(14, 35), -87, 77),
    Checked(1, Row(14, 36), Some(-50), Some(25)),
    // rows 37 to 40
    Bounded(Se, 4, Row(14, 37), -12, 12),
    Checked(1, Row(14, 38), None, Some(10)),
    Bounded(Se, -5, Row(14, 39), -12, 12),
    Checked(1, Row(14, 40), Some(-10), None),
    // row 41
    Bounded(Se, 1, Row(14, 41), -12, 12),
    Bounded(Se, 2, Row(14, 41), -12, 12),
    Bounded(Se, 3, Row(14, 41), -12, 12),
];

/// Rows 42 to 52.
const END: &[Line] = &[
    // rows 42 to 47
    Bits(1, 1),
    Bits(1, 1),
    Bits(1, 0),
    Bounded(Se, 2, Row(14, 45), -6, 6),
    Bounded(Se, -1, Row(14, 46), -6, 6),
    Bits(1, 1),
    // rows 48 to 50
    Bounded(Ue, 1, Row(14, 48), 0, 5),
    Bounded(Ue, 7, Row(14, 49), 0, 31),
    Bits(8, 18),
    // rows 51 and 52
    Bounded(Ue, 1, Row(14, 51), 0, 256),
    Bits(8, 255),
];

/// Table 14 whole, with a short-term set of its own.
pub(super) const SLICE: Unit = Unit {
    header: [0x02, 0x01],
    parts: &[
        BEGINNING,
        PREDICTED_SET,
        REFERENCES,
        LISTS,
        WEIGHTS,
        QUANTISERS,
        END,
    ],
};

/// The same with one of the sequence set's, and the collocated picture in list 1.
pub(super) const NAMING_SLICE: Unit = Unit {
    header: [0x02, 0x01],
    parts: &[
        BEGINNING, NAMED_SET, REFERENCES, LISTS_OF_1, WEIGHTS, QUANTISERS, END,
    ],
};
