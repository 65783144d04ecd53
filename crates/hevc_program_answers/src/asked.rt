//! What is asked of an input.
ghost use Rattle.std.specs.Prelude.{◌≡◌, ◌≤◌, ℕ, List, length, IfOk};
ghost use Rattle.hevc_program_answers.specs.Answers.{IsAnswerUpTo};

use hevc_io::INPUT_LIMIT;
use std::alloc::{AllocError, Global};

/// What is written, and the exit status.
#[derive(Drop)]
pub struct Answer {
    pub bytes: Vec<u8>,
    pub status: u8,
}

/// What the words of a command line ask for.
pub trait Asked {
    /// It can be asked for.
    ghost CanAsk: { Self → Type 0 };

    /// The text for an input.
    ghost text: { Self → List ℕ → List ℕ };

    /// The exit status with it: 0, 1 or 7, and at most the highest.
    ghost status: { Self → List ℕ → ℕ };

    ghost highest: { ℕ };

    /// What is known of an input whose status is 0.
    ghost Holds: { Self → List ℕ → Type 0 };

    /// The answer to an input.
    ///
    /// Errors: no memory.
    fn answer(&self, alloc: Global, input: &[u8]) -> Result<Answer, AllocError>
        requires can { CanAsk self.now }
        requires short { length input.now ≤ INPUT_LIMIT }
        ensures bytes { IfOk result (λ answer. answer.bytes.items ≡ text self.now input.now) }
        ensures status { IfOk result (λ answer. answer.status ≡ status self.now input.now) }
        ensures statuses { IfOk result (λ answer. IsAnswerUpTo highest answer.status) }
        ensures holds { IfOk result (λ answer. answer.status ≡ 0 → Holds self.now input.now) };
}
