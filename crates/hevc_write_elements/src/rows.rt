//! The elements of tables, written. A number that its form has no bits for is written as some
//! other: no table gives it. A writer refuses only where an allocation fails; some first bits of an
//! element may then be written.
ghost use Rattle.std.specs.Prelude.{◌≤◌, pos, OnOk};
ghost use Rattle.hevc_write_elements.specs.Filling.{WritesBits, WritesFlag, WritesIf, WritesSe};
ghost use Rattle.hevc_write_elements.specs.Filling.{WritesUe, WritesZeros};

use hevc_bit_writer::BitWriter;
use std::alloc::AllocError;

/// Writes a flag, u(1).
pub fn flag(w: &mut BitWriter, flag: bool) -> Result<(), AllocError>
    ensures { OnOk result (WritesFlag flag w.old w.new) }
{
    w.write_flag(flag)
}

/// Writes a flag that is present only under a condition.
pub fn flag_if(w: &mut BitWriter, present: bool, value: bool) -> Result<(), AllocError>
    ensures { OnOk result (WritesIf present (WritesFlag value) w.old w.new) }
{
    if present { flag(w, value) } else { Ok(()) }
}

/// Writes a number of at most 32 bits, u(n): its low `num_bits` bits.
pub fn bits(w: &mut BitWriter, num_bits: u32, value: u32) -> Result<(), AllocError>
    requires { num_bits ≤ 32 }
    ensures { OnOk result (WritesBits num_bits value w.old w.new) }
{
    w.write_bits(num_bits, value)
}

/// Writes a number of at most 32 bits that is present only under a condition.
pub fn bits_if(
    w: &mut BitWriter,
    present: bool,
    num_bits: u32,
    value: u32,
) -> Result<(), AllocError>
    requires { num_bits ≤ 32 }
    ensures { OnOk result (WritesIf present (WritesBits num_bits value) w.old w.new) }
{
    if present {
        bits(w, num_bits, value)
    } else {
        Ok(())
    }
}

/// Writes a number of at most 8 bits, u(n).
pub fn bits_u8(w: &mut BitWriter, num_bits: u32, value: u8) -> Result<(), AllocError>
    requires { num_bits ≤ 32 }
    ensures { OnOk result (WritesBits num_bits value w.old w.new) }
{
    bits(w, num_bits, u32::from(value))
}

/// Writes a number of at most 8 bits that is present only under a condition.
pub fn bits_u8_if(
    w: &mut BitWriter,
    present: bool,
    num_bits: u32,
    value: u8,
) -> Result<(), AllocError>
    requires { num_bits ≤ 32 }
    ensures { OnOk result (WritesIf present (WritesBits num_bits value) w.old w.new) }
{
    bits_if(w, present, num_bits, u32::from(value))
}

/// Writes a number of at most 16 bits, u(n).
pub fn bits_u16(w: &mut BitWriter, num_bits: u32, value: u16) -> Result<(), AllocError>
    requires { num_bits ≤ 32 }
    ensures { OnOk result (WritesBits num_bits value w.old w.new) }
{
    bits(w, num_bits, u32::from(value))
}

/// Writes an Exp-Golomb number, ue(v).
pub fn ue(w: &mut BitWriter, value: u32) -> Result<(), AllocError>
    ensures { OnOk result (WritesUe value w.old w.new) }
{
    w.write_ue(value.min(4_294_967_294))
}

/// Writes an Exp-Golomb number that is present only under a condition.
pub fn ue_if(w: &mut BitWriter, present: bool, value: u32) -> Result<(), AllocError>
    ensures { OnOk result (WritesIf present (WritesUe value) w.old w.new) }
{
    if present { ue(w, value) } else { Ok(()) }
}

/// Writes an Exp-Golomb number of one byte, ue(v).
pub fn ue_u8(w: &mut BitWriter, value: u8) -> Result<(), AllocError>
    ensures { OnOk result (WritesUe value w.old w.new) }
{
    ue(w, u32::from(value))
}

/// Writes an Exp-Golomb number of one byte that is present only under a condition.
pub fn ue_u8_if(w: &mut BitWriter, present: bool, value: u8) -> Result<(), AllocError>
    ensures { OnOk result (WritesIf present (WritesUe value) w.old w.new) }
{
    ue_if(w, present, u32::from(value))
}

/// Writes an Exp-Golomb number of two bytes, ue(v).
pub fn ue_u16(w: &mut BitWriter, value: u16) -> Result<(), AllocError>
    ensures { OnOk result (WritesUe value w.old w.new) }
{
    ue(w, u32::from(value))
}

/// Writes a signed Exp-Golomb number, se(v).
pub fn se(w: &mut BitWriter, value: i32) -> Result<(), AllocError>
    ensures { OnOk result (WritesSe value w.old w.new) }
{
    w.write_se(value.max(-2_147_483_647))
}

/// Writes a signed Exp-Golomb number of one byte, se(v).
pub fn se_i8(w: &mut BitWriter, value: i8) -> Result<(), AllocError>
    ensures { OnOk result (WritesSe value w.old w.new) }
{
    w.write_se(i32::from(value))
}

/// Writes a signed Exp-Golomb number of one byte that is present only under a condition.
pub fn se_i8_if(w: &mut BitWriter, present: bool, value: i8) -> Result<(), AllocError>
    ensures { OnOk result (WritesIf present (WritesSe value) w.old w.new) }
{
    if present { se_i8(w, value) } else { Ok(()) }
}

/// Writes a signed Exp-Golomb number of two bytes, se(v).
pub fn se_i16(w: &mut BitWriter, value: i16) -> Result<(), AllocError>
    ensures { OnOk result (WritesSe value w.old w.new) }
{
    w.write_se(i32::from(value))
}

/// Writes so many zeros.
pub fn zeros(w: &mut BitWriter, num_bits: u32) -> Result<(), AllocError>
    ensures { OnOk result (WritesZeros num_bits w.old w.new) }
{
    for _ in 0..num_bits {
        w.write_flag(false)?;
    }
    Ok(())
}

/// Writes so many zeros that are present only under a condition.
pub fn zeros_if(w: &mut BitWriter, present: bool, num_bits: u32) -> Result<(), AllocError>
    ensures { OnOk result (WritesIf present (WritesZeros num_bits) w.old w.new) }
{
    if present { zeros(w, num_bits) } else { Ok(()) }
}
