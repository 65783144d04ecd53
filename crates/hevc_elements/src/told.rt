//! An element as it was read.
ghost use Rattle.std.specs.Prelude.{◌≡◌, ◌≤◌, ◌*◌, ◌+◌};
ghost use Rattle.hevc_spec.specs.Payload.{bits, IsAhead};
ghost use Rattle.hevc_spec.specs.Bits.{bits_at};
ghost use Rattle.hevc_bits.specs.Reading.{Finds};
ghost use Rattle.hevc_elements.specs.Telling.{element_told, form_of, IsShort, as_list};

use hevc_bits::{BitError, NaluReader};
use hevc_spec::Row;

/// How an element is written (7.2): u(n), ue(v) or se(v).
#[derive(Clone, Copy, PartialEq, Eq)]
pub enum Descriptor {
    U(u8),
    Ue,
    Se,
}

/// An element as it was read: the table and row that it belongs to (docs/TABLES.md), how it is
/// written, and its value.
#[derive(Clone, Copy, PartialEq, Eq)]
pub struct Told {
    pub row: Row,
    pub descriptor: Descriptor,
    pub value: i64,
}

/// What is there as an element of a row, if it has a value.
pub(crate) fn told_ahead(reader: &NaluReader<'_>, row: Row, descriptor: Descriptor) -> Option<Told>
    requires { IsShort descriptor }
    ensures { as_list result ≡ element_told row (form_of descriptor) (bits reader.now) }
{
    let mut ahead = reader.fork();
    let value = match descriptor {
        Descriptor::U(32) => i64::from(take_32(&mut ahead).ok()?),
        Descriptor::U(num_bits) => i64::from(ahead.read_bits(usize::from(num_bits)).ok()?),
        Descriptor::Ue => i64::from(ahead.read_ue().ok()?),
        Descriptor::Se => i64::from(ahead.read_se().ok()?),
    };
    Some(Told {
        row,
        descriptor,
        value,
    })
}

/// A number of 32 bits.
#[tactic(auto, using(crate::proofs::LongBits::long_bits))]
pub(crate) fn take_32(reader: &mut NaluReader<'_>) -> Result<u32, BitError>
    ensures read { Finds (λ n. n) result reader.old reader.new (bits_at 32 (bits reader.old)) }
    ensures moves { IsAhead reader.old reader.new }
{
    let mut ahead = reader.fork();
    let high = ahead.read_bits(16)?;
    let low = ahead.read_bits(16)?;
    *reader = ahead;
    Ok(65_536 * high + low)
}
