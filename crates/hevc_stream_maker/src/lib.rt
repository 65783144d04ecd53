//! Streams of any number of pictures, made to be decoded.
#![tactic(auto)]

ghost use Rattle.std.specs.Prelude.{◌≡◌, ◌≤◌, ◌++◌, OnOk, IfOk};
ghost use Rattle.hevc_bit_writer.specs.WrittenUnits.{started};
ghost use Rattle.hevc_stream_maker.specs.Made.{made, picture_unit};

mod group;
mod laws;
mod slice;

use hevc_bit_writer::{BitWriter, append_unit};
pub use laws::{made_streams_are_short, made_units_are_found};
use slice::write_slice;
use std::alloc::{AllocError, Global};

/// The units of the sequence set, the picture set and the first picture.
const BEGINNING: [u8; 46] = [
    0x00, 0x00, 0x01, 0x42, 0x01, 0x01, 0x01, 0x60, 0x00, 0x00, 0x03, 0x00, 0x90, 0x00, 0x00, 0x03,
    0x00, 0x00, 0x03, 0x00, 0x3c, 0xa0, 0x88, 0x45, 0x96, 0x20, 0x9a, 0xbc, 0x20, 0x80, 0x00, 0x00,
    0x01, 0x44, 0x01, 0xc0, 0x71, 0x80, 0x12, 0x00, 0x00, 0x01, 0x26, 0x01, 0xaf, 0x80,
];

/// A stream of so many pictures: an IDR picture, and groups of eight P pictures that are coded in
/// another order than they are output in.
pub fn make_stream(alloc: Global, pictures: u32) -> Result<Vec<u8>, AllocError>
    requires { 1 ≤ pictures }
    ensures { IfOk result (λ stream. stream.items ≡ made pictures) }
{
    let mut stream = Vec::from_slice(alloc, &BEGINNING)?;
    for number in 0..pictures - 1 {
        append_picture(alloc, &mut stream, number)?;
    }
    Ok(stream)
}

/// Adds the unit of the picture of this number after the first one.
fn append_picture(alloc: Global, stream: &mut Vec<u8>, number: u32) -> Result<(), AllocError>
    ensures { OnOk result
        (stream.new.items ≡ stream.old.items ++ started (picture_unit number)) }
{
    let mut payload = BitWriter::new(alloc);
    write_slice(&mut payload, number)?;
    append_unit(alloc, stream, [0x02, 0x01], payload.as_bytes())
}
