//! Each bound of a row of docs/TABLES.md: a value at it is let through, and the one beyond it is
//! refused with the row.
ghost use Rattle.std.specs.Prelude.{◌<◌, length};

mod fields;
mod parts;
mod picture_set;
mod sequence_set;
mod slice;
mod video_set;

use crate::tests::expect::{expect, expect_eq, ok};
use hevc_bit_writer::{BitWriter, append_unit};
use hevc_bits::{Nalu, NaluHeader};
use hevc_boxed::Boxed;
use hevc_picture_slice::{Pps, SliceHeader};
use hevc_readers::{ParseError, read_pps, read_sps, read_vps};
use hevc_sequence_set::Sps;
use hevc_slice_header::read_slice_header;
use std::alloc::Global;
use std::collections::BTreeMap;
use std::process::Abort;

/// How an element is written: u(n), ue(v) or se(v).
#[derive(Clone, Copy)]
enum Form {
    U(u32),
    Ue,
    Se,
}

/// A table and a row.
#[derive(Clone, Copy)]
struct Row(u8, u8);

/// The greatest number that is read as ue(v).
const ANY: i64 = 2_147_483_647;

/// A line of a unit.
#[derive(Clone, Copy)]
enum Line {
    /// So many bits of this value, which may be another.
    Bits(u32, u32),
    /// An element of this value, a row, and the least and the greatest value that it allows.
    Bounded(Form, i64, Row, i64, i64),
    /// A row that looks at the element so many lines before it: the least and the greatest value
    /// that it allows, where it refuses one that the element's own row lets through.
    Checked(usize, Row, Option<i64>, Option<i64>),
}

/// A unit: the bytes of its header, and its lines in parts.
#[derive(Clone, Copy)]
struct Unit {
    header: [u8; 2],
    parts: &'static [&'static [Line]],
}

/// The sets that a unit is read with.
#[derive(Drop)]
struct Kept {
    spses: BTreeMap<u8, Boxed<Sps>>,
    ppses: BTreeMap<u8, Pps>,
}

/// All lines of a unit.
fn lines_of(rt: &impl Abort, alloc: Global, unit: &Unit) -> Vec<Line> {
    let mut lines = Vec::new(alloc);
    for part in unit.parts {
        for line in *part {
            ok(rt, lines.push(*line));
        }
    }
    lines
}

/// Whether a value can be written so at all.
fn is_written(form: Form, value: i64) -> bool {
    match form {
        Form::U(num_bits) => num_bits < 32 && value >= 0 && value < 1 << num_bits,
        Form::Ue => value >= 0 && value < 4_294_967_295,
        Form::Se => value > -2_147_483_648 && value < 2_147_483_648,
    }
}

/// Writes an element.
fn write(rt: &impl Abort, writer: &mut BitWriter, form: Form, value: i64) {
    match form {
        Form::U(num_bits) => {
            if num_bits <= 32 {
                ok(
                    rt,
                    writer.write_bits(num_bits, ok(rt, u32::try_from(value))),
                );
            }
        }
        Form::Ue => {
            let value = ok(rt, u32::try_from(value));
            if value < u32::MAX {
                ok(rt, writer.write_ue(value));
            }
        }
        Form::Se => {
            let value = ok(rt, i32::try_from(value));
            if value > i32::MIN {
                ok(rt, writer.write_se(value));
            }
        }
    }
}

/// Writes lines as they are.
fn write_lines(rt: &impl Abort, writer: &mut BitWriter, lines: &[Line]) {
    for line in lines {
        match *line {
            Line::Bits(num_bits, value) => {
                if num_bits <= 32 {
                    ok(rt, writer.write_bits(num_bits, value));
                }
            }
            Line::Bounded(form, value, _, _, _) => write(rt, writer, form, value),
            Line::Checked(_, _, _, _) => {}
        }
    }
}

/// A unit of this header and these bits.
fn unit_of(rt: &impl Abort, alloc: Global, header: [u8; 2], writer: &mut BitWriter) -> Vec<u8>
    ensures { length result.items < 10000 }
{
    ok(rt, writer.write_trailing_bits());
    expect(rt, writer.is_whole());
    let mut stream = Vec::new(alloc);
    ok(
        rt,
        append_unit(alloc, &mut stream, header, writer.as_bytes()),
    );
    assert!(rt; stream.len() < 10000);
    stream
}

/// Why a unit isn't read.
fn refusal(alloc: Global, kept: &Kept, stream: &[u8]) -> Option<ParseError>
    requires { length stream.now < 10000 }
{
    let mut position = 0;
    match Nalu::<NaluHeader>::next(stream, &mut position) {
        Ok(unit) => match stream[3] {
            0x40 => read_vps(alloc, &unit).err(),
            0x42 => read_sps(alloc, &unit).err(),
            0x44 => read_pps(alloc, &unit, &kept.spses).err(),
            _ => {
                let mut header = SliceHeader::new(alloc);
                read_slice_header(alloc, &unit, &kept.spses, &kept.ppses, &mut header).err()
            }
        },
        Err(_) => Some(ParseError::WrongNaluType),
    }
}

/// A unit that is tried with other elements.
#[derive(Clone, Copy)]
struct Trial<'a> {
    kept: &'a Kept,
    header: [u8; 2],
    lines: &'a [Line],
}

impl Trial<'_> {
    /// What the lines before `end` are refused for, where the one at `at` has another value.
    fn refusal_at(
        &self,
        rt: &impl Abort,
        alloc: Global,
        (at, end): (usize, usize),
        form: Form,
        value: i64,
    ) -> Option<ParseError> {
        assert!(rt; at < end && end <= self.lines.len());
        let mut writer = BitWriter::new(alloc);
        write_lines(rt, &mut writer, &self.lines[..at]);
        write(rt, &mut writer, form, value);
        write_lines(rt, &mut writer, &self.lines[at + 1..end]);
        let stream = unit_of(rt, alloc, self.header, &mut writer);
        refusal(alloc, self.kept, &stream)
    }

    /// A value that can be written is refused with this row, or isn't.
    fn is_refused(
        &self,
        rt: &impl Abort,
        alloc: Global,
        place: (usize, usize),
        form: Form,
        row: Row,
        value: i64,
        refused: bool,
    ) {
        if is_written(form, value) {
            let answer = self.refusal_at(rt, alloc, place, form, value);
            let Row(table, row) = row;
            let is = answer == Some(ParseError::OutOfRange { table, row });
            assert_eq!(rt; is, refused, "row {row} of table {table} at {value}");
        }
    }

    /// Values at the bounds are let through, and those beyond are refused.
    fn has_bounds(
        &self,
        rt: &impl Abort,
        alloc: Global,
        place: (usize, usize),
        form: Form,
        row: Row,
        low: Option<i64>,
        high: Option<i64>,
    ) {
        if let Some(low) = low {
            self.is_refused(rt, alloc, place, form, row, low, false);
            self.is_refused(rt, alloc, place, form, row, low.saturating_sub(1), true);
        }
        if let Some(high) = high {
            self.is_refused(rt, alloc, place, form, row, high, false);
            self.is_refused(rt, alloc, place, form, row, high.saturating_add(1), true);
        }
    }

    /// The bounds of the line at a place.
    fn try_line(&self, rt: &impl Abort, alloc: Global, at: usize) {
        match self.lines.get(at).copied() {
            Some(Line::Bounded(form, _, row, low, high)) => {
                self.has_bounds(rt, alloc, (at, at + 1), form, row, Some(low), Some(high))
            }
            Some(Line::Checked(back, row, low, high)) => {
                assert!(rt; back <= at);
                let looked_at = at - back;
                match self.lines.get(looked_at).copied() {
                    Some(Line::Bounded(form, _, _, _, _)) => {
                        self.has_bounds(rt, alloc, (looked_at, at), form, row, low, high)
                    }
                    _ => {}
                }
            }
            _ => {}
        }
    }
}

/// Each bound of a unit, and the unit as it is.
fn try_unit(rt: &impl Abort, alloc: Global, kept: &Kept, unit: &Unit) {
    let lines = lines_of(rt, alloc, unit);
    let trial = Trial {
        kept,
        header: unit.header,
        lines: &lines,
    };
    for at in 0..lines.len() {
        trial.try_line(rt, alloc, at);
    }
    let stream = whole(rt, alloc, unit);
    expect_eq(rt, refusal(alloc, kept, &stream), None);
}

/// A unit as it is.
fn whole(rt: &impl Abort, alloc: Global, unit: &Unit) -> Vec<u8>
    ensures { length result.items < 10000 }
{
    let lines = lines_of(rt, alloc, unit);
    let mut writer = BitWriter::new(alloc);
    write_lines(rt, &mut writer, &lines);
    unit_of(rt, alloc, unit.header, &mut writer)
}

/// Sets that are kept: none, and the two of these files.
fn no_sets(alloc: Global) -> Kept {
    Kept {
        spses: BTreeMap::new(alloc),
        ppses: BTreeMap::new(alloc),
    }
}

fn both_sets(rt: &impl Abort, alloc: Global) -> Kept {
    let mut kept = no_sets(alloc);
    let mut position = 0;
    let stream = whole(rt, alloc, &sequence_set::SEQUENCE_SET);
    let unit = ok(rt, Nalu::<NaluHeader>::next(&stream, &mut position));
    let sps = ok(rt, read_sps(alloc, &unit));
    ok(rt, kept.spses.insert(0, sps));
    let stream = whole(rt, alloc, &picture_set::PICTURE_SET);
    let mut position = 0;
    let unit = ok(rt, Nalu::<NaluHeader>::next(&stream, &mut position));
    let pps = ok(rt, read_pps(alloc, &unit, &kept.spses));
    ok(rt, kept.ppses.insert(0, pps));
    kept
}

#[test]
fn a_video_set_has_bounds(rt: HostRuntime) {
    let alloc = rt.alloc();
    try_unit(&rt, alloc, &no_sets(alloc), &video_set::VIDEO_SET);
}

#[test]
fn a_sequence_set_has_bounds(rt: HostRuntime) {
    let alloc = rt.alloc();
    try_unit(&rt, alloc, &no_sets(alloc), &sequence_set::SEQUENCE_SET);
}

#[test]
fn a_picture_set_has_bounds(rt: HostRuntime) {
    let rt = &rt;
    let alloc = rt.alloc();
    let kept = both_sets(rt, alloc);
    try_unit(rt, alloc, &kept, &picture_set::PICTURE_SET);
}

#[test]
fn a_slice_header_has_bounds(rt: HostRuntime) {
    let rt = &rt;
    let alloc = rt.alloc();
    let kept = both_sets(rt, alloc);
    try_unit(rt, alloc, &kept, &slice::SLICE);
    try_unit(rt, alloc, &kept, &slice::NAMING_SLICE);
}
