//! The structs of Linux's stateless decoders.
ghost use Rattle.std.specs.Prelude.{◌≡◌};
ghost use Rattle.std.specs.Borrow.{full_share, sem};
ghost use Rattle.std.specs.Ptr.{lies_at};
ghost use Rattle.hevc_pull.specs.contracts.decoder.PullDecoder.{the_row};
ghost use Rattle.hevc_pull.specs.Controls.{FillsPicture, FillsSlice, TellsLatestEntryPoints};
ghost use Rattle.hevc_pull.specs.Controls.{WantsControls};
ghost use Rattle.fezhalum.specs.Handles.{Becomes};

use crate::Fezhalum;
use hevc_pull::{PullDecoder, entry_points, picture_controls, slice_controls, want_controls};
use hevc_queue::PictureControls;
use hevc_v4l2::SliceControls;

fn want_controls_in(decoder: &mut PullDecoder) -> u32
    ensures { WantsControls decoder.old decoder.new result }
{
    want_controls(decoder)
}

/// From here on, the structs of Linux's stateless decoders are filled with each picture that
/// begins. Answers the status.
#[unsafe(no_mangle)]
pub unsafe extern "C" fn fezhalum_want_controls(decoder: *mut Fezhalum) -> u32
    ghost x: { the_row.Denot }
    requires* { sem 𝓛 (lies_at the_row full_share decoder x) }
    ensures* { sem 𝓛 (Becomes the_row decoder (λ now. WantsControls x now result)) }
{
    want_controls_in(&mut *(decoder as *mut PullDecoder))
}

fn picture_controls_in(decoder: &mut PullDecoder, structs: &mut PictureControls) -> u32
    ensures { FillsPicture decoder.old decoder.new structs.old structs.new result }
{
    picture_controls(decoder, structs)
}

/// The structs of the latest picture that began. Answers the status.
#[unsafe(no_mangle)]
pub unsafe extern "C" fn fezhalum_picture_controls(
    decoder: *mut Fezhalum,
    structs: &mut PictureControls,
) -> u32
    ghost x: { the_row.Denot }
    requires* { sem 𝓛 (lies_at the_row full_share decoder x) }
    ensures* { sem 𝓛 (Becomes the_row decoder
        (λ now. FillsPicture x now structs.old structs.new result)) }
{
    picture_controls_in(&mut *(decoder as *mut PullDecoder), structs)
}

fn slice_controls_in(decoder: &mut PullDecoder, structs: &mut SliceControls) -> u32
    ensures { FillsSlice decoder.old decoder.new structs.old structs.new result }
{
    slice_controls(decoder, structs)
}

/// The struct of the latest slice segment of that picture. Answers the status.
#[unsafe(no_mangle)]
pub unsafe extern "C" fn fezhalum_slice_controls(
    decoder: *mut Fezhalum,
    structs: &mut SliceControls,
) -> u32
    ghost x: { the_row.Denot }
    requires* { sem 𝓛 (lies_at the_row full_share decoder x) }
    ensures* { sem 𝓛 (Becomes the_row decoder
        (λ now. FillsSlice x now structs.old structs.new result)) }
{
    slice_controls_in(&mut *(decoder as *mut PullDecoder), structs)
}

fn entry_points_in(decoder: &mut PullDecoder, offsets: &mut [u32], count: &mut usize) -> u32
    ensures { TellsLatestEntryPoints decoder.old decoder.new offsets.old offsets.new
        count.old count.new result }
{
    entry_points(decoder, offsets, count)
}

/// The entry points of that slice segment, and how many there are. Answers the status.
#[unsafe(no_mangle)]
pub unsafe extern "C" fn fezhalum_entry_points(
    decoder: *mut Fezhalum,
    offsets: &mut [u32],
    count: &mut usize,
) -> u32
    ghost x: { the_row.Denot }
    requires* { sem 𝓛 (lies_at the_row full_share decoder x) }
    ensures* { sem 𝓛 (Becomes the_row decoder (λ now. TellsLatestEntryPoints x now
        offsets.old offsets.new count.old count.new result)) }
{
    entry_points_in(&mut *(decoder as *mut PullDecoder), offsets, count)
}
