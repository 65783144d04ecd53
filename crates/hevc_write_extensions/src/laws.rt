//! What is written decides whether a record has lines at all.
ghost use Rattle.std.specs.Prelude.{ℕ, Bool};
ghost use Rattle.hevc_records.specs.Sps.{PlainSps};
ghost use Rattle.hevc_tables.specs.PpsRangeExtensionTable.{pps_range_extension};
ghost use Rattle.hevc_tables.specs.PpsSccExtensionTable.{pps_scc_extension};
ghost use Rattle.hevc_tables.specs.SpsRangeExtensionTable.{sps_range_extension};
ghost use Rattle.hevc_tables.specs.SpsSccExtensionTable.{SampleFormat, sps_scc_extension};
ghost use Rattle.hevc_write_elements.specs.Deciding.{ReadsBack, WritesFormed};

/// What is written for an extension that has lines which are allowed are lines of it, with the
/// chosen values.
#[tactic(auto, using(hevc_write_elements::proofs::Deciding::deciding))]
pub fn written_extensions_are_formed()
    ensures sps_range { WritesFormed sps_range_extension }
    ensures sps_scc { (f : SampleFormat) → WritesFormed (sps_scc_extension f) }
    ensures pps_range { (sps : PlainSps) (transform_skip : Bool)
        → WritesFormed (pps_range_extension sps transform_skip) }
    ensures pps_scc { (f : SampleFormat) (most : ℕ) → WritesFormed (pps_scc_extension f most) }
{}

/// What is written for an extension that any bits are read as is read as it. So one that isn't read
/// back is one that no bits are read as.
#[tactic(auto, using(hevc_write_elements::proofs::Deciding::deciding))]
pub fn written_extensions_are_read_back()
    ensures sps_range { ReadsBack sps_range_extension }
    ensures sps_scc { (f : SampleFormat) → ReadsBack (sps_scc_extension f) }
    ensures pps_range { (sps : PlainSps) (transform_skip : Bool)
        → ReadsBack (pps_range_extension sps transform_skip) }
    ensures pps_scc { (f : SampleFormat) (most : ℕ) → ReadsBack (pps_scc_extension f most) }
{}
