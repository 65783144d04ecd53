//! How a line is written.

/// How a line is written: as words with blanks between them, or as an object of JSON.
#[derive(Clone, Copy, PartialEq, Eq)]
pub enum Style {
    Words,
    Json,
}
