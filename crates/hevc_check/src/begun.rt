//! A picture as it begins.
ghost use Rattle.std.specs.Prelude.{◌≡◌, ◌+◌, ◌&&◌, not, nat_le};

use hevc_driver::Head;

/// A picture as it begins.
#[derive(Clone, Copy)]
pub(crate) struct Begun {
    /// What its first slice tells of it.
    pub(crate) head: Head,
    /// It begins a coded video sequence.
    pub(crate) begins_sequence: bool,
    /// What stays stored as it is to be decoded.
    pub(crate) stored: Stored,
}

/// What stays stored as a picture is to be decoded, before any is output because the buffer is full
/// (C.5.2.2); nothing where it is skipped.
#[derive(Clone, Copy)]
pub(crate) struct Stored {
    /// How many pictures.
    pub(crate) num: usize,
    /// The highest order count such that those of them that are referred to, or are needed for
    /// output and aren't output before it, fill the buffer.
    pub(crate) filled: Option<i32>,
}

impl Begun {
    /// Whether pictures fill the buffer as it is to be decoded, within a sequence.
    pub(crate) fn is_full(&self) -> bool
        ensures { result ≡ (not self.now.head.skipped && not self.now.begins_sequence
            && nat_le (self.now.head.limits.buffering + 1) self.now.stored.num) }
    {
        !self.head.skipped
            && !self.begins_sequence
            && self.stored.num > self.head.limits.buffering as usize
    }
}
