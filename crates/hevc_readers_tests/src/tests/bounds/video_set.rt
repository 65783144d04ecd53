//! A video set of two sub-layers, with timing.
use super::Form::{U, Ue};
use super::Line::{Bits, Bounded, Checked};
use super::parts::{PROFILE, TIMING};
use super::{ANY, Line, Row, Unit};

/// Before its profile.
const BEGINNING: &[Line] = &[
    // rows 1 to 6
    Bits(4, 0),
    Bits(2, 3),
    Bits(6, 0),
    Bounded(U(3), 1, Row(1, 4), 0, 6),
    Bits(1, 1),
    Bits(16, 0xffff),
];

/// Rows 8 to 22.
const ORDERING: &[Line] = &[
    // row 8
    Bits(1, 1),
    // rows 9 to 13, of each sub-layer
    Bounded(Ue, 2, Row(1, 9), 0, 15),
    Bounded(Ue, 1, Row(1, 10), 0, 2),
    Bounded(Ue, 0, Row(1, 11), 0, ANY),
    Bounded(Ue, 4, Row(1, 9), 0, 15),
    Bounded(Ue, 1, Row(1, 10), 0, 4),
    Bounded(Ue, 0, Row(1, 11), 0, ANY),
    Checked(3, Row(1, 12), Some(2), None),
    Checked(3, Row(1, 13), Some(1), None),
    // rows 14 to 16
    Bounded(U(6), 1, Row(1, 14), 0, 62),
    Bounded(Ue, 1, Row(1, 15), 0, 1023),
    Bits(2, 0),
    // rows 17 to 20
    Bits(1, 1),
    Bits(32, 1),
    Bits(32, 25),
    Bits(1, 1),
    Bounded(Ue, 0, Row(1, 20), 0, ANY),
    // rows 21 and 22
    Bounded(Ue, 1, Row(1, 21), 0, 1024),
    Bounded(Ue, 0, Row(1, 22), 0, 65535),
];

/// After its timing.
const END: &[Line] = &[
    // row 25
    Bits(1, 0),
];

/// Table 1 whole.
pub(super) const VIDEO_SET: Unit = Unit {
    header: [0x40, 0x01],
    parts: &[BEGINNING, PROFILE, ORDERING, TIMING, END],
};
