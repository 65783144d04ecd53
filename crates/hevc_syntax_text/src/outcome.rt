//! What taking a unit gives.
ghost use Rattle.std.specs.Prelude.{◌≡◌, None};

use crate::cause::Cause;
use crate::variables::Variables;

/// What taking a unit gives: why it isn't read, if it isn't, and its variables, if it has some.
#[derive(Clone, Copy)]
pub(crate) struct Outcome {
    pub(crate) cause: Option<Cause>,
    pub(crate) variables: Option<Variables>,
}

impl Outcome {
    /// Of a unit without variables.
    pub(crate) fn plain(cause: Option<Cause>) -> Outcome
        ensures cause { result.cause ≡ cause }
        ensures variables { result.variables ≡ None }
    {
        Outcome {
            cause,
            variables: None,
        }
    }
}
