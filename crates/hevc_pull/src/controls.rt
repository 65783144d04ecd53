//! The structs of Linux's stateless decoders.
ghost use Rattle.std.specs.Prelude.{◌≡◌};
ghost use Rattle.hevc_queue.specs.Controls.{latest_offsets_minus1, latest_picture_controls};
ghost use Rattle.hevc_queue.specs.Controls.{latest_slice_controls};
ghost use Rattle.hevc_queue.specs.Queue.{given_wanted};
ghost use Rattle.hevc_pull.specs.Views.{view_in};
ghost use Rattle.hevc_pull.specs.Controls.{Fills, TellsEntryPoints, WantsControls};
ghost use Rattle.hevc_pull.specs.Controls.{status_of_control};

use crate::decoder::PullDecoder;
use crate::status::{NO_CONTROLS, NO_MEMORY};
use hevc_queue::PictureControls;
use hevc_v4l2::{ControlError, SliceControls, write_entry_points};

/// From here on, structs are filled with each picture that begins, and each slice segment of it.
/// The answer is a status.
pub fn want_controls(decoder: &mut PullDecoder) -> u32
    ensures { WantsControls decoder.old decoder.new result }
{
    match decoder.want_controls() {
        Ok(()) => 0,
        Err(_) => NO_MEMORY,
    }
}

/// The structs of the latest picture that began. The answer is a status; the structs stay where it
/// isn't 0.
pub fn picture_controls(decoder: &PullDecoder, structs: &mut PictureControls) -> u32
    ensures { Fills (latest_picture_controls (given_wanted (view_in decoder.now).backend))
        structs.old structs.new result }
{
    match decoder.picture_controls() {
        Some(Ok(filled)) => {
            *structs = filled;
            0
        }
        Some(Err(error)) => status_of_control(error),
        None => NO_CONTROLS,
    }
}

/// The struct of its latest slice segment. The answer is a status; the struct stays where it isn't
/// 0.
pub fn slice_controls(decoder: &PullDecoder, structs: &mut SliceControls) -> u32
    ensures { Fills (latest_slice_controls (given_wanted (view_in decoder.now).backend))
        structs.old structs.new result }
{
    match decoder.slice_controls() {
        Some(Ok(filled)) => {
            *structs = filled;
            0
        }
        Some(Err(error)) => status_of_control(error),
        None => NO_CONTROLS,
    }
}

/// Writes the entry points of that slice segment, and how many there are. The answer is a status;
/// no entry point is written where it isn't 0.
pub fn entry_points(decoder: &PullDecoder, offsets: &mut [u32], count: &mut usize) -> u32
    ensures { TellsEntryPoints
        (latest_offsets_minus1 (given_wanted (view_in decoder.now).backend))
        offsets.old offsets.new count.old count.new result }
{
    let Some(offsets_minus1) = decoder.offsets_minus1() else {
        return NO_CONTROLS;
    };
    *count = offsets_minus1.len();
    match write_entry_points(offsets_minus1, offsets) {
        Ok(()) => 0,
        Err(error) => status_of_control(error),
    }
}

/// The status of what a struct can't hold.
fn status_of_control(error: ControlError) -> u32
    ensures { result ≡ status_of_control error }
{
    match error {
        ControlError::TileColumns => 20,
        ControlError::TileRows => 21,
        ControlError::UnitSize => 22,
        ControlError::ShortTermSize => 23,
        ControlError::ChromaDenominator => 24,
        ControlError::LumaOffset => 25,
        ControlError::ChromaOffset => 26,
        ControlError::CurrentPicture => 27,
        ControlError::NoRoom => 28,
        ControlError::EntryPoint => 29,
    }
}
