//! Why a set or a slice's header is refused.
ghost use Rattle.std.specs.Prelude.{◌≡◌};
ghost use Rattle.hevc_stateless.specs.Refusals.{IsOfUnit, refusal_of};

use hevc_driver::DecodeError;
use hevc_kept_sets::ParseError;

/// The error of a call by that of a reader, of a unit that has the reader's type.
pub(crate) fn refusal(error: ParseError) -> DecodeError
    requires { IsOfUnit error }
    ensures { result ≡ refusal_of error }
{
    match error {
        ParseError::OutOfBits => DecodeError::OutOfBits,
        ParseError::OutOfRange { table, row } => DecodeError::OutOfRange { table, row },
        ParseError::MissingPps(id) => DecodeError::MissingPps(id),
        ParseError::NoMemory => DecodeError::NoMemory,
        ParseError::WrongNaluType | ParseError::MissingSps(_) => unreachable!(),
    }
}
