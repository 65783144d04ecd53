//! The headers of dependent slice segments (7.4.7.1).
ghost use Rattle.std.specs.Prelude.{◌≡◌, true, false, ◌==◌, ◌&&◌, nat_le, Option, Some, None};
ghost use Rattle.std.specs.Prelude.{option_map, if◌then◌else◌};
ghost use Rattle.hevc_sequence_set.specs.declared.sps.Sps.{Sps};
ghost use Rattle.hevc_picture_slice.specs.declared.pps.Pps.{Pps};
ghost use Rattle.hevc_walk.specs.DependentSlices.{KeptHeader, whole_slice, kept_header};
ghost use Rattle.hevc_options.specs.declared.Options.{Options};
ghost use Rattle.hevc_picture_slice.specs.SliceHeader.{plain_slice_header};
ghost use Rattle.hevc_driver.specs.Headers.{OnTrue, latest_behind, latest_of, shared_header};
ghost use Rattle.hevc_driver.specs.Headers.{whole_header};
ghost use Rattle.hevc_driver.specs.Slices.{slice_of, kept_of, StaysUnlessWhole};

use hevc_picture_slice::{Slice, SliceHeader};
use hevc_sequence_set::Sps;
use std::alloc::Global;

/// Whether a dependent slice segment belongs to an independent one of this header: they name one
/// picture set, and CurrRpsIdx is at most the number of the sequence set's short-term sets.
fn completes(kept: &SliceHeader, header: &SliceHeader, sps: &Sps) -> bool
    ensures { result
        ≡ (kept.now.pic_parameter_set_id == header.now.pic_parameter_set_id
        && nat_le kept.now.curr_rps_idx sps.now.num_short_term_ref_pic_sets) }
{
    kept.pic_parameter_set_id == header.pic_parameter_set_id
        && kept.curr_rps_idx <= sps.num_short_term_ref_pic_sets
}

/// Completes the header of a dependent slice segment by that of the latest independent one. Whether
/// the segment has its whole header then; one that has it already stays.
#[tactic(auto, unfolding(crate::specs::Slices::slice_of, crate::specs::Slices::kept_of))]
pub fn complete_header(kept: &Option<SliceHeader>, slice: &mut Slice<'_>, sps: &Sps) -> bool
    ensures whole { (o : Options) (pps : Pps) →
        whole_slice (option_map kept_of kept.now) (slice_of o slice.old sps.now pps)
        ≡ (if result then Some (slice_of o slice.new sps.now pps) else None) }
    ensures stays { StaysUnlessWhole result slice.old slice.new }
    ensures kept { (o : Options) (pps : Pps) (latest : Option KeptHeader) →
        kept_header latest (slice_of o slice.new sps.now pps)
        ≡ kept_header latest (slice_of o slice.old sps.now pps) }
    ensures header { OnTrue result
        (whole_header (latest_of kept.now) (plain_slice_header slice.old.header)
        ≡ Some (plain_slice_header slice.new.header)) }
    ensures dependent { result ≡ false → slice.old.header.dependent_slice_segment_flag ≡ true }
    ensures unit { slice.new.nalu ≡ slice.old.nalu }
    ensures id { slice.new.header.pic_parameter_set_id ≡ slice.old.header.pic_parameter_set_id }
{
    if !slice.header().dependent_slice_segment_flag {
        return true;
    }
    let Some(header) = kept else {
        return false;
    };
    if !completes(header, slice.header(), sps) {
        return false;
    }
    slice.header.complete(header);
    true
}

/// Keeps the header of an independent slice segment for the dependent ones after it.
#[tactic(auto, unfolding(crate::specs::Slices::slice_of, crate::specs::Slices::kept_of))]
pub fn keep_header(alloc: Global, kept: &mut Option<SliceHeader>, slice: &Slice<'_>)
    ensures kept { (o : Options) (sps : Sps) (pps : Pps) → option_map kept_of kept.new
        ≡ kept_header (option_map kept_of kept.old) (slice_of o slice.now sps pps) }
    ensures latest { latest_of kept.new
        ≡ latest_behind (latest_of kept.old) (plain_slice_header slice.now.header) }
{
    if slice.header().dependent_slice_segment_flag {
        return;
    }
    match kept {
        Some(header) => put(header, slice.header()),
        None => {
            let mut header = SliceHeader::new(alloc);
            put(&mut header, slice.header());
            *kept = Some(header);
        }
    }
}

/// Puts a header in the place of a kept one, but for what dependent segments have of their own.
#[tactic(auto, unfolding(crate::specs::Slices::kept_of))]
fn put(kept: &mut SliceHeader, header: &SliceHeader)
    ensures kept { kept_of kept.new ≡ kept_of header.now }
    ensures shared { shared_header (plain_slice_header kept.new)
        ≡ shared_header (plain_slice_header header.now) }
{
    kept.pic_parameter_set_id = header.pic_parameter_set_id;
    kept.complete(header);
}
