//! Slice segments.
ghost use Rattle.std.specs.Prelude.{◌≡◌, ◌↔◌, false, IsErr, OnOk, OnErr};
ghost use Rattle.hevc_records.specs.SliceHeader.{completed_header};
ghost use Rattle.hevc_picture_slice.specs.SliceHeader.{plain_slice_header};

use crate::slice_header::SliceHeader;
use hevc_bits::{Nalu, NaluHeader};
use thiserror::Error;

/// A slice segment isn't a dependent one, so it has a whole header of its own.
#[derive(Clone, Copy, Debug, PartialEq, Eq, Drop, Error)]
#[error("the slice segment is not a dependent one")]
pub struct NotDependent;

/// A slice segment: its header, and the unit that it was read from.
#[derive(Drop)]
pub struct Slice<'a> {
    /// The header.
    pub header: SliceHeader,
    /// The unit.
    pub nalu: Nalu<'a, NaluHeader>,
}

impl<'a> Slice<'a> {
    /// The slice segment of a header and its unit.
    pub fn new(header: SliceHeader, nalu: Nalu<'a, NaluHeader>) -> Slice<'a>
        ensures header { result.header ≡ header }
        ensures nalu { result.nalu ≡ nalu.entry }
    {
        Slice { header, nalu }
    }

    /// The header.
    pub fn header(&self) -> &SliceHeader
        ensures { result.now ≡ self.now.header }
    {
        &self.header
    }

    /// The unit.
    pub fn nalu(&self) -> &Nalu<'a, NaluHeader>
        ensures { result.now ≡ self.now.nalu }
    {
        &self.nalu
    }

    /// Completes the header of a dependent slice segment by that of the independent one before it
    /// (7.4.7.1). What is before the slice type stays, and so do the entry points, the bit size of
    /// the header and the number of its emulation prevention bytes; all else is taken from
    /// `header`.
    ///
    /// Errors: the segment isn't a dependent one; it then stays as it was, and `header` is dropped.
    pub fn replace_header(&mut self, header: SliceHeader) -> Result<(), NotDependent>
        ensures refused { IsErr result ↔ (self.old.header.dependent_slice_segment_flag ≡ false) }
        ensures completed { OnOk result
            (plain_slice_header self.new.header
            ≡ completed_header (plain_slice_header self.old.header) (plain_slice_header header)) }
        ensures same_unit { OnOk result (self.new.nalu ≡ self.old.nalu) }
        ensures unchanged { OnErr result (self.new ≡ self.old) }
    {
        if !self.header.dependent_slice_segment_flag {
            return Err(NotDependent);
        }
        self.header.complete(&header);
        Ok(())
    }
}
