//! Where bytes go.
ghost use Rattle.std.specs.Prelude.{◌≡◌, ◌≤◌, ℕ, List, IsErrOf};
ghost use Rattle.std.specs.declared.option.Option.{Option};
ghost use Rattle.std.specs.Io.{WritesAtMost};
ghost use Rattle.std.specs.Io.KnownBytes.{WriteAppends};
ghost use Rattle.hevc_fault_counts.specs.Faults.{Rose};
ghost use Rattle.hevc_io.specs.Writes.{TakesSome};

use thiserror::Error;

/// Why a write was refused: it failed and the sink counted a fault, or there was no memory for the
/// bytes.
#[derive(Clone, Copy, Debug, PartialEq, Eq, Drop, Error)]
pub enum SinkError {
    #[error("a write failed")]
    Failed,
    #[error("no memory")]
    NoMemory,
}

/// Something that takes bytes.
pub trait Sink {
    /// The bytes that were written, where the sink exposes them.
    ghost written: { Self → Option (List ℕ) };

    /// How many writes failed so far. It never falls, and stays at 2^64 - 1.
    ghost faults: { Self → ℕ };

    /// Takes bytes from the front of a piece, at least one where the piece isn't empty, and answers
    /// how many. A refusal takes none.
    ///
    /// `Failed` has a cause: a fault was counted, or no more can be. `NoMemory` leaves the count.
    fn write(&mut self, bytes: &[u8]) -> Result<usize, SinkError>
        ensures bound { WritesAtMost result bytes.now }
        ensures some { TakesSome result bytes.now }
        ensures bytes { WriteAppends (written self.old) (written self.new) result bytes.now }
        ensures later { faults self.old ≤ faults self.new }
        ensures failed { IsErrOf result SinkError.Failed
            → Rose (faults self.old) (faults self.new) }
        ensures no_memory { IsErrOf result SinkError.NoMemory → faults self.new ≡ faults self.old };
}
