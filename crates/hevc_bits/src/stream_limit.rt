//! How long a stream may be.

/// No stream is given that has so many bytes: places in it in bits, and sums of a few of them, are
/// below 2^64.
pub const STREAM_LIMIT: usize = 1 << 60;
