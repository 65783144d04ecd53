//! What the bytes and bits of a stream mean: definitions alone, which other crates' contracts cite.
#![tactic(auto)]

/// A row of a syntax table: the table's number, and the row's.
#[derive(Clone, Copy, PartialEq, Eq)]
pub struct Row(pub u8, pub u8);
