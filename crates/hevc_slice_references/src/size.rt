//! How many payload bits were read.
ghost use Rattle.std.specs.Prelude.{◌≡◌, ◌+◌, ◌-◌, ◌*◌, ◌<◌, ◌^◌, length};
ghost use Rattle.hevc_spec.specs.Payload.{bits_left};
ghost use Rattle.hevc_spec.specs.Payload.{bits, IsAhead};

use hevc_bits::NaluReader;

/// The payload bits between two places, less than 2^32.
pub fn bits_between(before: &NaluReader<'_>, after: &NaluReader<'_>) -> u32
    requires ahead { IsAhead before.now after.now }
    requires few { length (bits before.now) < 2 ^ 32 + length (bits after.now) }
    ensures { result ≡ length (bits before.now) - length (bits after.now) }
{
    (level(before) - level(after)) as u32
}

/// The bits that are left, and those of the 03 bytes that were dropped.
fn level(r: &NaluReader<'_>) -> u128
    ensures { result ≡ bits_left r.now + 8 * r.now.dropped }
{
    r.num_bits_left() as u128 + 8 * r.num_epb() as u128
}
