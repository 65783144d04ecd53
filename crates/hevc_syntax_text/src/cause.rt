//! Why a unit is refused.
ghost use Rattle.std.specs.Prelude.{◌≡◌, ◌≢◌, IfOk};
ghost use Rattle.hevc_syntax_text.specs.Causes.{error_cause};

use hevc_bits::UnitError;
use hevc_elements::ParseError;
use hevc_spec::Row;
use std::alloc::AllocError;

/// Why a unit is refused: its header is faulty (7.3.1.2), the payload ends within an element, the
/// element of a row (docs/TABLES.md) isn't allowed, or no sequence or picture parameter set of this
/// id is kept.
#[derive(Clone, Copy)]
pub enum Cause {
    Header(UnitError),
    OutOfBits,
    OutOfRange(Row),
    MissingSps(u8),
    MissingPps(u8),
}

/// The cause that an error of reading tells of.
///
/// Errors: it tells that there was no memory.
pub(crate) fn cause_of(error: ParseError) -> Result<Option<Cause>, AllocError>
    ensures told { IfOk result (λ cause. cause ≡ error_cause error) }
    ensures other { IfOk result (λ cause. error ≢ ParseError.NoMemory) }
{
    match error {
        ParseError::OutOfBits => Ok(Some(Cause::OutOfBits)),
        ParseError::OutOfRange { table, row } => Ok(Some(Cause::OutOfRange(Row(table, row)))),
        ParseError::MissingSps(id) => Ok(Some(Cause::MissingSps(id))),
        ParseError::MissingPps(id) => Ok(Some(Cause::MissingPps(id))),
        ParseError::WrongNaluType => Ok(None),
        ParseError::NoMemory => Err(AllocError),
    }
}
