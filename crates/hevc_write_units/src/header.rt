//! The bytes of a unit's header (7.3.1.2).
ghost use Rattle.hevc_write_units.specs.Added.{AreHeaderBytes};

use hevc_bits::NaluHeader;

/// The two bytes of a header, with a 0 for the bit that isn't looked at (`forbidden_zero_bit`).
pub fn header_bytes(header: &NaluHeader) -> [u8; 2]
    ensures { AreHeaderBytes header.now result }
{
    let nalu_type = header.nalu_type() as u8;
    let layer_id = header.layer_id();
    let temporal_id_plus1 = header.temporal_id_plus1();
    [
        2 * nalu_type + layer_id / 32,
        layer_id % 32 * 8 + temporal_id_plus1,
    ]
}
