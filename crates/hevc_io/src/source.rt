//! Where bytes come from.
ghost use Rattle.std.specs.Prelude.{ℕ, List};
ghost use Rattle.std.specs.declared.option.Option.{Option};
ghost use Rattle.std.specs.Io.{ReadsAtMost};
ghost use Rattle.std.specs.Io.KnownBytes.{ReadConsumes};
ghost use Rattle.hevc_fault_counts.specs.Faults.{HasCause};

use thiserror::Error;

/// A read failed. A source that answers so has counted a fault.
#[derive(Clone, Copy, Debug, PartialEq, Eq, Drop, Error)]
#[error("a read failed")]
pub struct Failed;

/// Something that hands over bytes.
pub trait Source {
    /// The bytes that are left, where the source exposes them.
    ghost left: { Self → Option (List ℕ) };

    /// How many reads failed so far. It never falls, and stays at 2^64 - 1.
    ghost faults: { Self → ℕ };

    /// Puts the next bytes at the front of `buf`, and answers their number, which is at most the
    /// length of `buf`; 0 says that none are left, unless `buf` is empty. A refusal takes no byte.
    ///
    /// `Failed` has a cause: a fault was counted, or no more can be.
    fn read(&mut self, buf: &mut [u8]) -> Result<usize, Failed>
        ensures bound { ReadsAtMost result buf.new }
        ensures bytes { ReadConsumes (left self.old) (left self.new) result buf.new }
        ensures cause { HasCause (faults self.old) (faults self.new) result };
}
