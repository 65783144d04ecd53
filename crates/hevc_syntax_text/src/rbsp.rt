//! The payload bytes of a unit (7.3.1.1).
ghost use Rattle.std.specs.Prelude.{◌≡◌, ◌++◌, ◌∷◌, ◌<◌, ◌≤◌, ℕ, List, IfOk};
ghost use Rattle.hevc_spec.specs.Payload.{payload_after, run_behind};

use std::alloc::{AllocError, Global};

/// The bytes after a unit's header without emulation prevention bytes.
///
/// Errors: no memory.
pub(crate) fn rbsp_of(alloc: Global, payload: &[u8]) -> Result<Vec<u8>, AllocError>
    ensures { IfOk result (λ rbsp. rbsp.items ≡ payload_after 0 payload.now) }
{
    let mut rbsp = Vec::new(alloc);
    let mut zeros = 0;
    for byte in payload {
        zeros = add_byte(&mut rbsp, zeros, *byte)?;
    }
    Ok(rbsp)
}

/// Adds a byte after a run of zeros, if it is a payload byte, and gives the run after it.
fn add_byte(rbsp: &mut Vec<u8>, zeros: u8, byte: u8) -> Result<u8, AllocError>
    ensures { IfOk result (λ run. (more : List ℕ)
        → rbsp.new.items ++ payload_after run more
        ≡ rbsp.old.items ++ payload_after zeros (byte ∷ more)) }
{
    if zeros == 2 && byte == 3 {
        return Ok(0);
    }
    rbsp.push(byte)?;
    Ok(run_behind(zeros, byte))
}

/// The run of zeros after a byte, up to 2.
fn run_behind(zeros: u8, byte: u8) -> u8
    ensures { result ≡ run_behind zeros byte }
{
    if byte != 0 {
        0
    } else if zeros == 0 {
        1
    } else {
        2
    }
}
