//! Sizes that a struct tells are those of what is read.
ghost use Rattle.std.specs.Prelude.{◌≡◌, ◌+◌, ℕ, Bool, List, length, false};
ghost use Rattle.hevc_spec.specs.Rows.{when};
ghost use Rattle.hevc_spec.specs.Table.{gives, read};
ghost use Rattle.hevc_spec.specs.UnitTypes.{is_idr};
ghost use Rattle.hevc_records.specs.Sps.{PlainSps};
ghost use Rattle.hevc_records.specs.SliceHeader.{PlainSliceSegmentHeader};
ghost use Rattle.hevc_tables.specs.SliceHeaderTable.{long_term};
ghost use Rattle.hevc_v4l2.specs.LongTerm.{long_term_size};
ghost use Rattle.hevc_v4l2.specs.Places.{HasPlaces};

/// Where rows 14 to 20 of table 14, those of long-term pictures (7.3.6.1), are read in the header
/// of a slice segment that isn't of an IDR picture, they take as many bits as
/// `long_term_ref_pic_set_size` tells of the header that they give: none where they are absent.
#[tactic(auto, using(crate::proofs::LongTermCosts::long_term_cost))]
pub fn long_term_size_is_what_is_read()
    ensures { (nal_unit_type : ℕ) (sps : PlainSps) (before h : PlainSliceSegmentHeader)
        (bits rest : List Bool) → HasPlaces before → is_idr nal_unit_type ≡ false
        → read (when sps.long_term_ref_pics_present_flag before (long_term sps before)) bits
        ≡ gives h rest
        → length bits ≡ long_term_size nal_unit_type sps h + length rest }
{}
