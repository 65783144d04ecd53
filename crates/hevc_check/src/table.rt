//! By what a stream is checked.

/// By what a stream is checked: a table of what a picture can break.
#[derive(Clone, Copy, Debug, PartialEq, Eq)]
pub enum Table {
    /// Bounds by which the outputs are in order since nothing is output because the buffer is full, nor for a
    /// latency.
    Bounds,
    /// What the order of the outputs needs, where a latency is declared and the buffer may be
    /// filled.
    Order,
}
