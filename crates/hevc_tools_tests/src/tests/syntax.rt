//! Tests of the text of syntax elements.
mod program;
