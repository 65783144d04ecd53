//! The types of units (table 7-1).

ghost use Rattle.std.specs.Prelude.{◌≡◌, ◌≤◌, ◌↔◌};

/// The type of a unit, `nal_unit_type` 0 to 47 (table 7-1). H.265 leaves 48 to 63 unspecified.
#[derive(Clone, Copy, Default, PartialEq, Eq, PartialOrd, Ord)]
pub enum NaluType {
    #[default]
    /// A trailing picture's slice, not used for reference in its temporal layer.
    TrailN = 0,
    /// A trailing picture's slice.
    TrailR = 1,
    /// A temporal sub-layer access picture's slice, not used for reference in its layer.
    TsaN = 2,
    /// A temporal sub-layer access picture's slice.
    TsaR = 3,
    /// A step-wise temporal sub-layer access picture's slice, not used for reference in its layer.
    StsaN = 4,
    /// A step-wise temporal sub-layer access picture's slice.
    StsaR = 5,
    /// A random access decodable leading picture's slice, not used for reference in its layer.
    RadlN = 6,
    /// A random access decodable leading picture's slice.
    RadlR = 7,
    /// A random access skipped leading picture's slice, not used for reference in its layer.
    RaslN = 8,
    /// A random access skipped leading picture's slice.
    RaslR = 9,
    /// Reserved.
    RsvVclN10 = 10,
    /// Reserved.
    RsvVclR11 = 11,
    /// Reserved.
    RsvVclN12 = 12,
    /// Reserved.
    RsvVclR13 = 13,
    /// Reserved.
    RsvVclN14 = 14,
    /// Reserved.
    RsvVclR15 = 15,
    /// A broken link access picture's slice, with leading pictures.
    BlaWLp = 16,
    /// A broken link access picture's slice, with RADL pictures alone.
    BlaWRadl = 17,
    /// A broken link access picture's slice, without leading pictures.
    BlaNLp = 18,
    /// An instantaneous decoding refresh picture's slice, with RADL pictures.
    IdrWRadl = 19,
    /// An instantaneous decoding refresh picture's slice, without leading pictures.
    IdrNLp = 20,
    /// A clean random access picture's slice.
    CraNut = 21,
    /// Reserved.
    RsvIrapVcl22 = 22,
    /// Reserved.
    RsvIrapVcl23 = 23,
    /// Reserved.
    RsvVcl24 = 24,
    /// Reserved.
    RsvVcl25 = 25,
    /// Reserved.
    RsvVcl26 = 26,
    /// Reserved.
    RsvVcl27 = 27,
    /// Reserved.
    RsvVcl28 = 28,
    /// Reserved.
    RsvVcl29 = 29,
    /// Reserved.
    RsvVcl30 = 30,
    /// Reserved.
    RsvVcl31 = 31,
    /// A video parameter set.
    VpsNut = 32,
    /// A sequence parameter set.
    SpsNut = 33,
    /// A picture parameter set.
    PpsNut = 34,
    /// An access unit delimiter.
    AudNut = 35,
    /// An end of sequence.
    EosNut = 36,
    /// An end of bitstream.
    EobNut = 37,
    /// Filler data.
    FdNut = 38,
    /// A supplemental enhancement information message before its picture.
    PrefixSeiNut = 39,
    /// A supplemental enhancement information message after its picture.
    SuffixSeiNut = 40,
    /// Reserved.
    RsvNvcl41 = 41,
    /// Reserved.
    RsvNvcl42 = 42,
    /// Reserved.
    RsvNvcl43 = 43,
    /// Reserved.
    RsvNvcl44 = 44,
    /// Reserved.
    RsvNvcl45 = 45,
    /// Reserved.
    RsvNvcl46 = 46,
    /// Reserved.
    RsvNvcl47 = 47,
}

impl NaluType {
    ghost use Rattle.hevc_bits.specs.NaluType.{nalu_type_number};
    ghost use Rattle.hevc_spec.specs.UnitTypes.{is_idr, is_irap, is_bla, is_cra, is_radl, is_rasl};
    ghost use Rattle.hevc_spec.specs.UnitTypes.{is_slnr, is_slice};

    /// The type of this number, and `None` exactly above 47.
    pub fn n(value: u32) -> Option<NaluType>
        ensures named { (variant : NaluType)
            → (result ≡ Some variant) ↔ (nalu_type_number variant ≡ value) }
        ensures none { (result ≡ None) ↔ (48 ≤ value) }
    {
        match value {
            0 => Some(NaluType::TrailN),
            1 => Some(NaluType::TrailR),
            2 => Some(NaluType::TsaN),
            3 => Some(NaluType::TsaR),
            4 => Some(NaluType::StsaN),
            5 => Some(NaluType::StsaR),
            6 => Some(NaluType::RadlN),
            7 => Some(NaluType::RadlR),
            8 => Some(NaluType::RaslN),
            9 => Some(NaluType::RaslR),
            10 => Some(NaluType::RsvVclN10),
            11 => Some(NaluType::RsvVclR11),
            12 => Some(NaluType::RsvVclN12),
            13 => Some(NaluType::RsvVclR13),
            14 => Some(NaluType::RsvVclN14),
            15 => Some(NaluType::RsvVclR15),
            16 => Some(NaluType::BlaWLp),
            17 => Some(NaluType::BlaWRadl),
            18 => Some(NaluType::BlaNLp),
            19 => Some(NaluType::IdrWRadl),
            20 => Some(NaluType::IdrNLp),
            21 => Some(NaluType::CraNut),
            22 => Some(NaluType::RsvIrapVcl22),
            23 => Some(NaluType::RsvIrapVcl23),
            24 => Some(NaluType::RsvVcl24),
            25 => Some(NaluType::RsvVcl25),
            26 => Some(NaluType::RsvVcl26),
            27 => Some(NaluType::RsvVcl27),
            28 => Some(NaluType::RsvVcl28),
            29 => Some(NaluType::RsvVcl29),
            30 => Some(NaluType::RsvVcl30),
            31 => Some(NaluType::RsvVcl31),
            32 => Some(NaluType::VpsNut),
            33 => Some(NaluType::SpsNut),
            34 => Some(NaluType::PpsNut),
            35 => Some(NaluType::AudNut),
            36 => Some(NaluType::EosNut),
            37 => Some(NaluType::EobNut),
            38 => Some(NaluType::FdNut),
            39 => Some(NaluType::PrefixSeiNut),
            40 => Some(NaluType::SuffixSeiNut),
            41 => Some(NaluType::RsvNvcl41),
            42 => Some(NaluType::RsvNvcl42),
            43 => Some(NaluType::RsvNvcl43),
            44 => Some(NaluType::RsvNvcl44),
            45 => Some(NaluType::RsvNvcl45),
            46 => Some(NaluType::RsvNvcl46),
            47 => Some(NaluType::RsvNvcl47),
            _ => None,
        }
    }

    /// Whether it is a slice of an instantaneous decoding refresh picture: types 19 and 20.
    pub fn is_idr(&self) -> bool
        ensures { result ≡ is_idr (nalu_type_number self.now) }
    {
        matches!(self, NaluType::IdrWRadl | NaluType::IdrNLp)
    }

    /// Whether it is a slice of an intra random access point picture: types 16 to 23.
    pub fn is_irap(&self) -> bool
        ensures { result ≡ is_irap (nalu_type_number self.now) }
    {
        matches!(
            self,
            NaluType::BlaWLp
                | NaluType::BlaWRadl
                | NaluType::BlaNLp
                | NaluType::IdrWRadl
                | NaluType::IdrNLp
                | NaluType::CraNut
                | NaluType::RsvIrapVcl22
                | NaluType::RsvIrapVcl23
        )
    }

    /// Whether it is a slice of a broken link access picture: types 16 to 18.
    pub fn is_bla(&self) -> bool
        ensures { result ≡ is_bla (nalu_type_number self.now) }
    {
        matches!(
            self,
            NaluType::BlaWLp | NaluType::BlaWRadl | NaluType::BlaNLp
        )
    }

    /// Whether it is a slice of a clean random access picture: type 21.
    pub fn is_cra(&self) -> bool
        ensures { result ≡ is_cra (nalu_type_number self.now) }
    {
        matches!(self, NaluType::CraNut)
    }

    /// Whether it is a slice of a random access decodable leading picture: types 6 and 7.
    pub fn is_radl(&self) -> bool
        ensures { result ≡ is_radl (nalu_type_number self.now) }
    {
        matches!(self, NaluType::RadlN | NaluType::RadlR)
    }

    /// Whether it is a slice of a random access skipped leading picture: types 8 and 9.
    pub fn is_rasl(&self) -> bool
        ensures { result ≡ is_rasl (nalu_type_number self.now) }
    {
        matches!(self, NaluType::RaslN | NaluType::RaslR)
    }

    /// Whether it is a slice of a sub-layer non-reference picture: the even types up to 14.
    pub fn is_slnr(&self) -> bool
        ensures { result ≡ is_slnr (nalu_type_number self.now) }
    {
        matches!(
            self,
            NaluType::TrailN
                | NaluType::TsaN
                | NaluType::StsaN
                | NaluType::RadlN
                | NaluType::RaslN
                | NaluType::RsvVclN10
                | NaluType::RsvVclN12
                | NaluType::RsvVclN14
        )
    }

    /// Whether it is a slice segment whose type isn't reserved: types 0 to 9 and 16 to 21.
    pub fn is_slice(&self) -> bool
        ensures { result ≡ is_slice (nalu_type_number self.now) }
    {
        matches!(
            self,
            NaluType::TrailN
                | NaluType::TrailR
                | NaluType::TsaN
                | NaluType::TsaR
                | NaluType::StsaN
                | NaluType::StsaR
                | NaluType::RadlN
                | NaluType::RadlR
                | NaluType::RaslN
                | NaluType::RaslR
                | NaluType::BlaWLp
                | NaluType::BlaWRadl
                | NaluType::BlaNLp
                | NaluType::IdrWRadl
                | NaluType::IdrNLp
                | NaluType::CraNut
        )
    }
}
