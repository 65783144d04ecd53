//! The cause of a refusal in words.
use hevc_element_names::bounds_of;
use hevc_row_names::row_name;
use hevc_spec::Row as TableRow;
use std::fmt;

/// A cause, as the line of a refusal has it, a name and its numbers after blanks, and the number of
/// the unit.
#[derive(Clone, Copy)]
pub(crate) struct Cause<'a> {
    pub(crate) text: &'a str,
    pub(crate) unit: &'a str,
}

impl fmt::Display for Cause<'_> {
    fn fmt<W: fmt::Write>(&self, f: &mut fmt::Formatter<W>) -> fmt::Result {
        let text = self.text;
        let unit = self.unit;
        match text.split_once(" ") {
            Some(("OutOfRange", row)) => write!(f, "{}", Row { text: row, unit }),
            Some(("InvalidNaluType", number)) => {
                write!(
                    f,
                    "its nal_unit_type is {number}, which is unspecified (Table 7-1)"
                )
            }
            Some(("MissingPps", id)) => write!(
                f,
                "it names picture parameter set {id}, which no unit before it has (7.4.7.1)"
            ),
            _ => write!(f, "{}", plain_cause(text)),
        }
    }
}

/// A cause without numbers.
fn plain_cause(name: &str) -> &str {
    match name {
        "" => "hevc_trace tells the cause",
        "TruncatedNalu" => "it ends within its header: is the stream cut there?",
        "OutOfBits" => "it ends before its syntax does: is the stream cut there?",
        "TemporalIdZero" =>
            "nuh_temporal_id_plus1 is out of its range: 1..7 (7.3.1.2; table 0, row 1): it is 0",
        "NoIndependentSlice" => "its dependent slice segment follows no independent one (7.4.7.1)",
        "ChangedMidPicture" => {
            "its slice names a sequence parameter set of another format than its picture's (7.4.2.4.2)"
        }
        "PocOutOfRange" => "its picture order count has more than 32 bits (8.3.1)",
        "DpbFull" =>
            "the decoded picture buffer is full, so the stream breaks its own bounds (C.5.2.3)",
        other => other,
    }
}

/// The table and the row of an element that is out of its range, and the number of its unit.
#[derive(Clone, Copy)]
struct Row<'a> {
    text: &'a str,
    unit: &'a str,
}

impl fmt::Display for Row<'_> {
    fn fmt<W: fmt::Write>(&self, f: &mut fmt::Formatter<W>) -> fmt::Result {
        let (table, row) = numbers_of(self.text);
        let Some(name) = row_name(table, row) else {
            return write!(
                f,
                "an element is out of its range (table {table}, row {row})"
            );
        };
        let element = name.element;
        let clause = name.clause;
        if element.split_once(", ").is_some() {
            write!(f, "one of ")?;
        }
        let bounds = std::str::from_utf8(bounds_of(TableRow(table, row))).unwrap_or("");
        let mark = if bounds.is_empty() { "" } else { ": " };
        write!(
            f,
            "{element} is out of its range{mark}{bounds} ({clause}; table {table}, row {row})"
        )?;
        match remedy(table, row) {
            Some(remedy) => write!(f, ": {remedy}"),
            None => {
                let unit = self.unit;
                write!(f, "; `hevc_syntax unit {unit} {unit}` tells what was read")
            }
        }
    }
}

/// A table and a row, as two numbers with a blank between them.
fn numbers_of(text: &str) -> (u8, u8) {
    let (table, row) = text.split_once(" ").unwrap_or((text, ""));
    (
        table.parse::<u8>().unwrap_or(u8::MAX),
        row.parse::<u8>().unwrap_or(u8::MAX),
    )
}

/// What is known of a row's value, and what to do about it.
fn remedy(table: u8, row: u8) -> Option<&'static str> {
    match (table, row) {
        (0, _) => Some("it is 0"),
        (2, 27) => Some(
            "lossless x265 writes 0; `ffmpeg -i x.h265 -c copy -bsf:v hevc_metadata=level=6.2 y.h265` writes another level",
        ),
        _ => None,
    }
}
