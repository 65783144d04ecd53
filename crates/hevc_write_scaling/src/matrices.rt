//! The matrices of a size (7.3.4, rows 1 to 4 of table 6).
ghost use Rattle.std.specs.Prelude.{◌≡◌, ◌<◌, ◌≤ℤ◌, ◌++◌, pos, negsuc, [], if◌then◌else◌, OnOk};
ghost use Rattle.std.specs.Int.{cast_signed};
ghost use Rattle.hevc_records.specs.Bounds.{Within};
ghost use Rattle.hevc_write_scaling.specs.Matrices as own;

use hevc_bit_writer::BitWriter;
use std::alloc::AllocError;

/// Rows 1, 3 and 4 of table 6, for the matrices of a size, of which every so many are there; their
/// first entries, less 8, are written where the size has numbers for them.
pub(crate) fn write_matrices<const N: usize>(
    w: &mut BitWriter,
    has_dc: bool,
    step: usize,
    dc_coef_minus8: &[i16; 6],
    lists: &[[u8; N]; 6],
) -> Result<(), AllocError>
    requires some { 0 < step }
    requires bounds { Within (negsuc 6) (pos 247) dc_coef_minus8.now }
    ensures { OnOk result (w.new
        ≡ w.old ++ own.matrices_bits has_dc step 0 dc_coef_minus8.now lists.now) }
{
    for i in 0..6 {
        write_matrix_if(w, i % step == 0, has_dc, dc_coef_minus8[i], &lists[i])?;
    }
    Ok(())
}

/// Rows 1, 3 and 4 of table 6, where the matrix is there.
fn write_matrix_if(
    w: &mut BitWriter,
    present: bool,
    has_dc: bool,
    dc_coef_minus8: i16,
    entries: &[u8],
) -> Result<(), AllocError>
    requires least { negsuc 6 ≤ℤ dc_coef_minus8 }
    requires most { dc_coef_minus8 ≤ℤ pos 247 }
    ensures { OnOk result (w.new ≡ w.old
        ++ (if present then own.matrix_bits has_dc dc_coef_minus8 entries.now else [])) }
{
    if present {
        write_matrix(w, has_dc, dc_coef_minus8, entries)?;
    }
    Ok(())
}

/// Rows 1, 3 and 4 of table 6.
fn write_matrix(
    w: &mut BitWriter,
    has_dc: bool,
    dc_coef_minus8: i16,
    entries: &[u8],
) -> Result<(), AllocError>
    requires least { negsuc 6 ≤ℤ dc_coef_minus8 }
    requires most { dc_coef_minus8 ≤ℤ pos 247 }
    ensures { OnOk result (w.new ≡ w.old ++ own.matrix_bits has_dc dc_coef_minus8 entries.now) }
{
    w.write_flag(true)?; // Row(6, 1): its own entries, without Row(6, 2)
    if has_dc {
        w.write_se(i32::from(dc_coef_minus8))?; // Row(6, 3)
    }
    let start = if has_dc {
        (dc_coef_minus8 + 8) as u8
    } else {
        8
    };
    write_coefs(w, start, entries)
}

/// Row 4 of table 6.
fn write_coefs(w: &mut BitWriter, start: u8, entries: &[u8]) -> Result<(), AllocError>
    ensures { OnOk result (w.new ≡ w.old ++ own.coef_bits start entries.now) }
{
    let mut next_coef = start;
    for i in 0..entries.len() {
        write_step(w, next_coef, entries[i])?; // Row(6, 4)
        next_coef = entries[i];
    }
    Ok(())
}

/// scaling_list_delta_coef, from one entry to the next.
fn write_step(w: &mut BitWriter, from: u8, to: u8) -> Result<(), AllocError>
    ensures { OnOk result (w.new ≡ w.old ++ own.signed_bits (own.step_modulo_256 from to)) }
{
    w.write_se(i32::from(to.wrapping_sub(from).cast_signed()))
}
