//! A picture with the extensions of its sets: `VAPictureParameterBufferHEVCExtension`.
ghost use Rattle.std.specs.Prelude.{◌≡◌, IfOk};
ghost use Rattle.std.specs.Result.{result_err};
ghost use Rattle.hevc_dpb.specs.Views.{stored_entries};
ghost use Rattle.hevc_picture_slice.specs.Pps.{plain_pps};
ghost use Rattle.hevc_refs.specs.Sets.{plain_set};
ghost use Rattle.hevc_sequence_set.specs.Sps.{plain_sps};
ghost use Rattle.hevc_va.specs.Extension.{buffer_of_picture_extension, picture_extension_error};

use crate::error::VaError;
use crate::picture::{VaPictureParameterBufferHevc, picture_buffer};
use crate::range::{VaPictureParameterBufferHevcRext, range_extension_buffer};
use crate::screen_content::{VaPictureParameterBufferHevcScc, screen_content_buffer};
use crate::surfaces::VaSurfaces;
use hevc_dpb::Dpb;
use hevc_picture_slice::{Pps, Slice};
use hevc_pictures::PictureData;
use hevc_refs::RefPicSet;
use hevc_sequence_set::Sps;

/// `VAPictureParameterBufferHEVCExtension`: what a picture of a profile of the range or the screen
/// content coding extensions is begun with.
#[repr(C)]
#[derive(Clone, Copy)]
pub struct VaPictureParameterBufferHevcExtension {
    /// What a picture of any profile has.
    pub base: VaPictureParameterBufferHevc,
    /// The range extensions of its sets.
    pub rext: VaPictureParameterBufferHevcRext,
    /// The screen content coding extensions of its sets.
    pub scc: VaPictureParameterBufferHevcScc,
}

const _: () = prove!(size_of::<VaPictureParameterBufferHevcExtension>() == 1408);

/// A picture as VA-API takes it in the profiles of the extensions.
///
/// Errors: that of `picture_buffer`, else that of `range_extension_buffer`, else that of
/// `screen_content_buffer`.
pub fn picture_extension_buffer(
    picture: &PictureData,
    slice: &Slice<'_>,
    sps: &Sps,
    pps: &Pps,
    dpb: &Dpb<u64>,
    rps: &RefPicSet,
    surfaces: VaSurfaces<'_>,
) -> Result<VaPictureParameterBufferHevcExtension, VaError>
    ensures filled { IfOk result (λ buffer. buffer
        ≡ buffer_of_picture_extension picture.now slice.now (plain_sps sps.now) (plain_pps pps.now)
        (stored_entries dpb.now) (plain_set rps.now)
        surfaces.entry.current surfaces.entry.stored.now) }
    ensures refused { result_err result
        ≡ picture_extension_error (plain_sps sps.now) (plain_pps pps.now) (stored_entries dpb.now)
        surfaces.entry.stored.now }
{
    let base = picture_buffer(picture, slice, sps, pps, dpb, rps, surfaces)?;
    let rext = range_extension_buffer(sps, pps)?;
    let scc = screen_content_buffer(sps, pps)?;
    Ok(VaPictureParameterBufferHevcExtension { base, rext, scc })
}
