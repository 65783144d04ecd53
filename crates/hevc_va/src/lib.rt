//! What VA-API takes of a picture: its sets, the pictures that it refers to and its slices, as the
//! structs of `va/va_dec_hevc.h`.
#![tactic(auto)]

mod arrays;
mod error;
mod extension;
mod lists;
mod offsets;
mod picture;
mod range;
mod references;
mod scaling;
mod screen_content;
mod slice;
mod surfaces;

pub use error::VaError;
pub use extension::{VaPictureParameterBufferHevcExtension, picture_extension_buffer};
pub use picture::{VaPictureParameterBufferHevc, picture_buffer};
pub use range::{VaPictureParameterBufferHevcRext, range_extension_buffer};
pub use scaling::{VaIqMatrixBufferHevc, scaling_buffer};
pub use screen_content::{VaPictureParameterBufferHevcScc, screen_content_buffer};
pub use slice::{
    VaSliceParameterBufferHevc, VaSliceParameterBufferHevcExtension,
    VaSliceParameterBufferHevcRext, slice_buffer, slice_extension_buffer,
};
pub use surfaces::{VaPictureHevc, VaSurface, VaSurfaces};
