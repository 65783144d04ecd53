//! Units in a byte stream.
ghost use Rattle.std.specs.Prelude.{◌≡◌, ◌++◌, OnOk, OnErr};
ghost use Rattle.hevc_bit_writer.specs.WrittenUnits.{escaped, started};

use std::alloc::{AllocError, Global};

/// Adds a unit to a stream (7.3.1.1, B.2.1): a start code, the two bytes of its header, and its
/// payload, with 03 bytes that keep start codes out of it. After a refusal the stream is as before.
pub fn append_unit(
    alloc: Global,
    stream: &mut Vec<u8>,
    header: [u8; 2],
    payload: &[u8],
) -> Result<(), AllocError>
    ensures ok { OnOk result (stream.new.items
        ≡ stream.old.items ++ started (header ++ escaped payload.now)) }
    ensures err { OnErr result (stream.new.items ≡ stream.old.items) }
{
    let [first, second] = header;
    let mut unit = Vec::from_slice(alloc, &[0, 0, 1, first, second])?;
    push_escaped(&mut unit, payload)?;
    stream.extend_from_slice(&unit)
}

/// Adds payload bytes, with 03 bytes (7.4.2).
fn push_escaped(unit: &mut Vec<u8>, payload: &[u8]) -> Result<(), AllocError>
    ensures { OnOk result (unit.new.items ≡ unit.old.items ++ escaped payload.now) }
{
    let mut zeros = 0u8;
    for byte in payload {
        if zeros == 2 && *byte <= 3 {
            unit.push(3)?;
            zeros = 0;
        }
        unit.push(*byte)?;
        zeros = if *byte == 0 { (zeros + 1).min(2) } else { 0 };
    }
    Ok(())
}
