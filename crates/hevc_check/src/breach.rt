//! What may not hold at a picture.

/// What may not hold at a picture of what is enough for output in order. They are looked for in this
/// order.
#[derive(Clone, Copy, Debug, PartialEq, Eq)]
pub enum Breach {
    /// Its format, or its limits, differ from those of the first picture of its sequence.
    Changed,
    /// A latency is declared, by sps_max_latency_increase_plus1.
    Latency,
    /// An earlier picture of its sequence has its order count.
    SameCount,
    /// As it is to be decoded the buffer is full.
    Full,
    /// Its NoOutputOfPriorPicsFlag is set, whether or not a picture waits for output.
    Discards,
    /// More pictures than sps_max_num_reorder_pics are decoded before it and output after it.
    Reorder,
}
