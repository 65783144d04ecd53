//! A writer of bits.
ghost use Rattle.std.specs.Prelude.{◌≡◌, ◌≢◌, ◌↔◌, ◌+◌, ◌%◌, ◌^◌, ◌<◌, ◌≤◌, [], ◌∷◌, ◌++◌, length};
ghost use Rattle.std.specs.Prelude.{negsuc, IsTrue, OnOk, OnErr};
ghost use Rattle.hevc_spec.specs.Bits.{u, ue, se};
ghost use Rattle.hevc_spec.specs.Payload.{low_bits};
ghost use Rattle.hevc_bit_writer.specs.Writing.{GrewByFirst, code_number, packed, spelled};
ghost use Rattle.hevc_bit_writer.specs.Writing.{trailing_bits};

use std::alloc::{AllocError, Global};
use std::marker::Model;

/// Bits that are written one element after another (7.2), packed into bytes, the most significant
/// bit of each byte first. After a refusal some first bits of the element may be at the end.
#[derive(Drop)]
pub struct BitWriter {
    bytes: Vec<u8>,
    /// The number of the bits after the last whole byte, and how many they are.
    partial: u8,
    filled: u32,
}

impl Model for BitWriter {
    ghost use Rattle.std.specs.Prelude.{Bool, List, ◌++◌, ◌^◌, ◌<◌};
    ghost use Rattle.hevc_spec.specs.Payload.{bits_of, low_bits};

    ghost Value = { List Bool };

    ghost view = { λ w. bits_of w.bytes.items ++ low_bits w.filled w.partial };

    ghost invariant = { λ w. (w.filled < 8) × (w.partial < 2 ^ w.filled) };
}

impl BitWriter {
    /// A writer that has written nothing.
    pub fn new(alloc: Global) -> BitWriter
        ensures { result ≡ [] }
    {
        BitWriter {
            bytes: Vec::new(alloc),
            partial: 0,
            filled: 0,
        }
    }

    /// Whether the bits fill whole bytes.
    pub fn is_whole(&self) -> bool
        ensures { IsTrue result ↔ (length self.now % 8 ≡ 0) }
    {
        self.filled == 0
    }

    /// The bytes that were written, where they are whole.
    pub fn as_bytes(&self) -> &[u8]
        requires { length self.now % 8 ≡ 0 }
        ensures { result.now ≡ packed self.now }
    {
        let bytes = self.bytes.as_slice();
        bytes
    }

    /// Writes a flag, u(1).
    pub fn write_flag(&mut self, flag: bool) -> Result<(), AllocError>
        ensures ok { OnOk result (self.new ≡ self.old ++ flag ∷ []) }
        ensures err { OnErr result (self.new ≡ self.old) }
    {
        let bits = 2 * self.partial + flag as u8;
        if self.filled < 7 {
            self.partial = bits;
            self.filled += 1;
        } else {
            self.bytes.push(bits)?;
            self.partial = 0;
            self.filled = 0;
        }
        Ok(())
    }

    /// Writes u(n): the low `num_bits` bits of a value, at most 32.
    pub fn write_bits(&mut self, num_bits: u32, value: u32) -> Result<(), AllocError>
        requires { num_bits ≤ 32 }
        ensures ok { OnOk result (self.new ≡ self.old ++ spelled (u num_bits) value) }
        ensures err { OnErr result (GrewByFirst self.old self.new (spelled (u num_bits) value)) }
    {
        self.write_low_bits(num_bits, value as u64)
    }

    /// Writes ue(v) (9.2), of a value below 2^32 - 1.
    pub fn write_ue(&mut self, value: u32) -> Result<(), AllocError>
        requires { value + 1 < 2 ^ 32 }
        ensures ok { OnOk result (self.new ≡ self.old ++ spelled ue value) }
        ensures err { OnErr result (GrewByFirst self.old self.new (spelled ue value)) }
    {
        let shifted = value as u64 + 1;
        self.write_low_bits(2 * shifted.ilog2() + 1, shifted)
    }

    /// Writes se(v) (9.2, table 9-3), of a value above -2^31.
    pub fn write_se(&mut self, value: i32) -> Result<(), AllocError>
        requires { value ≢ negsuc 2147483647 }
        ensures ok { OnOk result (self.new ≡ self.old ++ spelled se (code_number value)) }
        ensures err { OnErr result
            (GrewByFirst self.old self.new (spelled se (code_number value))) }
    {
        let twice = 2 * value.unsigned_abs();
        self.write_ue(if value > 0 { twice - 1 } else { twice })
    }

    /// Writes rbsp_trailing_bits (7.3.2.11), or byte_alignment (7.3.2.12): a one, and zeros up to
    /// the end of its byte.
    pub fn write_trailing_bits(&mut self) -> Result<(), AllocError>
        ensures ok { OnOk result (self.new ≡ self.old ++ trailing_bits (length self.old)) }
        ensures err { OnErr result
            (GrewByFirst self.old self.new (trailing_bits (length self.old))) }
    {
        let zeros = 7 - self.filled;
        self.write_low_bits(zeros + 1, 1 << zeros)
    }

    /// Writes the low bits of a value, so many.
    fn write_low_bits(&mut self, count: u32, value: u64) -> Result<(), AllocError>
        requires { count ≤ 64 }
        ensures ok { OnOk result (self.new ≡ self.old ++ low_bits count value) }
        ensures err { OnErr result (GrewByFirst self.old self.new (low_bits count value)) }
    {
        for place in (0..count).rev() {
            self.write_flag((value >> place) & 1 == 1)?;
        }
        Ok(())
    }
}
