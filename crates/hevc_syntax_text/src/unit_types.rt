//! The names of unit types (Table 7-1).
ghost use Rattle.std.specs.Prelude.{◌≡◌};
ghost use Rattle.hevc_bits.specs.NaluType.{nalu_type_number};
ghost use Rattle.hevc_syntax_text.specs.UnitLines.{type_name};

use hevc_bits::NaluType;

/// The name of a type.
#[tactic(auto, unfolding(crate::specs::UnitLines::type_name))]
pub(crate) fn type_name(nalu_type: NaluType) -> &'static [u8]
    ensures { result.now ≡ type_name (nalu_type_number nalu_type) }
{
    match nalu_type {
        NaluType::TrailN => b"TRAIL_N",
        NaluType::TrailR => b"TRAIL_R",
        NaluType::TsaN => b"TSA_N",
        NaluType::TsaR => b"TSA_R",
        NaluType::StsaN => b"STSA_N",
        NaluType::StsaR => b"STSA_R",
        NaluType::RadlN => b"RADL_N",
        NaluType::RadlR => b"RADL_R",
        NaluType::RaslN => b"RASL_N",
        NaluType::RaslR => b"RASL_R",
        NaluType::RsvVclN10 => b"RSV_VCL_N10",
        NaluType::RsvVclR11 => b"RSV_VCL_R11",
        NaluType::RsvVclN12 => b"RSV_VCL_N12",
        NaluType::RsvVclR13 => b"RSV_VCL_R13",
        NaluType::RsvVclN14 => b"RSV_VCL_N14",
        NaluType::RsvVclR15 => b"RSV_VCL_R15",
        NaluType::BlaWLp => b"BLA_W_LP",
        NaluType::BlaWRadl => b"BLA_W_RADL",
        NaluType::BlaNLp => b"BLA_N_LP",
        NaluType::IdrWRadl => b"IDR_W_RADL",
        NaluType::IdrNLp => b"IDR_N_LP",
        NaluType::CraNut => b"CRA_NUT",
        NaluType::RsvIrapVcl22 => b"RSV_IRAP_VCL22",
        NaluType::RsvIrapVcl23 => b"RSV_IRAP_VCL23",
        NaluType::RsvVcl24 => b"RSV_VCL24",
        NaluType::RsvVcl25 => b"RSV_VCL25",
        NaluType::RsvVcl26 => b"RSV_VCL26",
        NaluType::RsvVcl27 => b"RSV_VCL27",
        NaluType::RsvVcl28 => b"RSV_VCL28",
        NaluType::RsvVcl29 => b"RSV_VCL29",
        NaluType::RsvVcl30 => b"RSV_VCL30",
        NaluType::RsvVcl31 => b"RSV_VCL31",
        NaluType::VpsNut => b"VPS_NUT",
        NaluType::SpsNut => b"SPS_NUT",
        NaluType::PpsNut => b"PPS_NUT",
        NaluType::AudNut => b"AUD_NUT",
        NaluType::EosNut => b"EOS_NUT",
        NaluType::EobNut => b"EOB_NUT",
        NaluType::FdNut => b"FD_NUT",
        NaluType::PrefixSeiNut => b"PREFIX_SEI_NUT",
        NaluType::SuffixSeiNut => b"SUFFIX_SEI_NUT",
        NaluType::RsvNvcl41 => b"RSV_NVCL41",
        NaluType::RsvNvcl42 => b"RSV_NVCL42",
        NaluType::RsvNvcl43 => b"RSV_NVCL43",
        NaluType::RsvNvcl44 => b"RSV_NVCL44",
        NaluType::RsvNvcl45 => b"RSV_NVCL45",
        NaluType::RsvNvcl46 => b"RSV_NVCL46",
        NaluType::RsvNvcl47 => b"RSV_NVCL47",
    }
}
