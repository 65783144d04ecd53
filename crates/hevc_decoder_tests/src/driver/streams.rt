//! Slices of small pictures, and calls with room made before.
ghost use Rattle.std.specs.Prelude.{◌≡◌};
ghost use Rattle.hevc_walk_units.specs.Units.{at_first, NoPicture};
ghost use Rattle.hevc_driver.specs.Standings.{standing, current_of};
ghost use Rattle.hevc_driver.specs.Sound.{IsSound};

use hevc_bits::{Nalu, NaluHeader};
use hevc_driver::{DecodeError, Driver, Options, StatelessH265DecoderBackend};
use hevc_picture_slice::{Pps, Slice, SliceHeader};
use hevc_sequence_set::Sps;
use std::alloc::Global;

/// A slice of an IDR picture after its start code.
pub(crate) const IDR: &[u8] = &[0, 0, 1, 38, 1, 175, 128];

/// The first slice of a picture, in the first unit of the stream.
pub(crate) fn slice(alloc: Global, stream: &[u8]) -> Option<Slice<'_>> {
    let mut position = 0;
    match Nalu::<NaluHeader>::next(stream, &mut position) {
        Ok(nalu) => {
            let mut header = SliceHeader::new(alloc);
            header.first_slice_segment_in_pic_flag = true;
            header.pic_output_flag = true;
            Some(Slice::new(header, nalu))
        }
        Err(_) => None,
    }
}

/// A stream of one format begins.
pub(crate) fn start<B: StatelessH265DecoderBackend>(
    driver: &mut Driver<B>,
    sps: &Sps,
) -> Result<(), DecodeError>
    requires none { current_of driver.old.standing.set driver.old.standing.current ≡ NoPicture }
    requires sound { IsSound (B.log driver.old.backend)
        (B.handed driver.old.backend) driver.old.standing }
    ensures sound { IsSound (B.log driver.new.backend)
        (B.handed driver.new.backend) driver.new.standing }
{
    driver.reserve()?;
    driver.open_sequence(sps)
}

/// Gives a slice and its sequence set, with a picture set that goes with them where there is one.
pub(crate) fn give<B: StatelessH265DecoderBackend>(
    driver: &mut Driver<B>,
    timestamp: u64,
    slice: &mut Slice<'_>,
    sps: &Sps,
) -> Result<(), DecodeError>
    requires sound { IsSound (B.log driver.old.backend)
        (B.handed driver.old.backend) driver.old.standing }
    ensures sound { IsSound (B.log driver.new.backend)
        (B.handed driver.new.backend) driver.new.standing }
{
    let pps = Pps::new();
    if pps.pic_parameter_set_id != slice.header.pic_parameter_set_id
        || sps.seq_parameter_set_id != pps.seq_parameter_set_id
    {
        return Err(DecodeError::MissingPps(slice.header.pic_parameter_set_id));
    }
    driver.reserve()?;
    driver.take_slice(timestamp, Options::new(), slice, sps, &pps)
}

/// The stream ends.
pub(crate) fn close<B: StatelessH265DecoderBackend>(
    driver: &mut Driver<B>,
) -> Result<(), DecodeError>
    requires sound { IsSound (B.log driver.old.backend)
        (B.handed driver.old.backend) driver.old.standing }
    ensures sound { IsSound (B.log driver.new.backend)
        (B.handed driver.new.backend) driver.new.standing }
{
    driver.reserve()?;
    driver.close()
}
