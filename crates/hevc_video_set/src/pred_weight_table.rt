//! Weights of predictions.
ghost use Rattle.std.specs.Prelude.{◌≡◌, pos, negsuc, ◌≤◌, ◌≤ℤ◌, ◌+ℤ◌};
ghost use Rattle.hevc_records.specs.Bounds.{Within};

/// The weights and offsets of weighted prediction in a slice (H.265 7.3.6.3, 7.4.7.3).
#[derive(Clone, Copy, PartialEq, Eq)]
pub struct PredWeightTable {
    /// The logarithm of the denominator of luma weights: 0 to 7.
    pub luma_log2_weight_denom: u8,
    /// What the logarithm of the denominator of chroma weights adds to that of luma:
    /// `-luma_log2_weight_denom` to 127.
    pub delta_chroma_log2_weight_denom: i8,
    /// The logarithm of the denominator of chroma weights: `luma_log2_weight_denom +
    /// delta_chroma_log2_weight_denom`, 0 without chroma.
    pub chroma_log2_weight_denom: u8,
    /// For each entry of list 0, whether luma is weighted.
    pub luma_weight_l0_flag: [bool; 15],
    /// For each entry of list 0, whether chroma is weighted.
    pub chroma_weight_l0_flag: [bool; 15],
    /// For each entry of list 0, what its luma weight adds to 1: -128 to 127 over the denominator
    /// of luma weights.
    pub delta_luma_weight_l0: [i8; 15],
    /// For each entry of list 0, the offset of luma: -8192 to 8191.
    pub luma_offset_l0: [i16; 15],
    /// For each entry of list 0, what its Cb and Cr weights add to 1: -128 to 127 over the
    /// denominator of chroma weights.
    pub delta_chroma_weight_l0: [[i8; 2]; 15],
    /// For each entry of list 0, the differences that give the offsets of Cb and Cr: -32768 to
    /// 32767.
    pub delta_chroma_offset_l0: [[i16; 2]; 15],
    /// For each entry of list 1, whether luma is weighted.
    pub luma_weight_l1_flag: [bool; 15],
    /// For each entry of list 1, whether chroma is weighted.
    pub chroma_weight_l1_flag: [bool; 15],
    /// For each entry of list 1, what its luma weight adds to 1: -128 to 127 over the denominator
    /// of luma weights.
    pub delta_luma_weight_l1: [i8; 15],
    /// For each entry of list 1, the offset of luma: -8192 to 8191.
    pub luma_offset_l1: [i16; 15],
    /// For each entry of list 1, what its Cb and Cr weights add to 1: -128 to 127 over the
    /// denominator of chroma weights.
    pub delta_chroma_weight_l1: [[i8; 2]; 15],
    /// For each entry of list 1, the differences that give the offsets of Cb and Cr: -32768 to
    /// 32767.
    pub delta_chroma_offset_l1: [[i16; 2]; 15],
    pub ghost luma_denominator: { luma_log2_weight_denom ≤ 7 },
    pub ghost chroma_denominator: { pos 0 ≤ℤ (pos luma_log2_weight_denom +ℤ delta_chroma_log2_weight_denom) },
    pub ghost offsets_l0: { Within (negsuc 8191) (pos 8191) luma_offset_l0 },
    pub ghost offsets_l1: { Within (negsuc 8191) (pos 8191) luma_offset_l1 },
}

impl PredWeightTable {
    ghost use Rattle.hevc_records.specs.PredWeightTable.{default_pred_weight_table};
    ghost use Rattle.hevc_video_set.specs.PredWeightTable.{plain_pred_weight_table};

    /// All numbers 0, all flags not set.
    pub fn new() -> PredWeightTable
        ensures { plain_pred_weight_table result ≡ default_pred_weight_table }
    {
        PredWeightTable {
            luma_log2_weight_denom: 0,
            delta_chroma_log2_weight_denom: 0,
            chroma_log2_weight_denom: 0,
            luma_weight_l0_flag: [false; 15],
            chroma_weight_l0_flag: [false; 15],
            delta_luma_weight_l0: [0; 15],
            luma_offset_l0: [0; 15],
            delta_chroma_weight_l0: [[0; 2]; 15],
            delta_chroma_offset_l0: [[0; 2]; 15],
            luma_weight_l1_flag: [false; 15],
            chroma_weight_l1_flag: [false; 15],
            delta_luma_weight_l1: [0; 15],
            luma_offset_l1: [0; 15],
            delta_chroma_weight_l1: [[0; 2]; 15],
            delta_chroma_offset_l1: [[0; 2]; 15],
        }
    }

    /// The logarithm of the denominator of luma weights.
    pub fn luma_log2_weight_denom(&self) -> u8
        ensures { result ≡ self.now.luma_log2_weight_denom }
    {
        self.luma_log2_weight_denom
    }

    /// What the logarithm of the denominator of chroma weights adds to that of luma.
    pub fn delta_chroma_log2_weight_denom(&self) -> i8
        ensures { result ≡ self.now.delta_chroma_log2_weight_denom }
    {
        self.delta_chroma_log2_weight_denom
    }

    /// The logarithm of the denominator of chroma weights.
    pub fn chroma_log2_weight_denom(&self) -> u8
        ensures { result ≡ self.now.chroma_log2_weight_denom }
    {
        self.chroma_log2_weight_denom
    }

    /// For each entry of list 0, whether luma is weighted.
    pub fn luma_weight_l0_flag(&self) -> [bool; 15]
        ensures { result ≡ self.now.luma_weight_l0_flag }
    {
        self.luma_weight_l0_flag
    }

    /// For each entry of list 0, whether chroma is weighted.
    pub fn chroma_weight_l0_flag(&self) -> [bool; 15]
        ensures { result ≡ self.now.chroma_weight_l0_flag }
    {
        self.chroma_weight_l0_flag
    }

    /// For each entry of list 0, what its luma weight adds to 1.
    pub fn delta_luma_weight_l0(&self) -> [i8; 15]
        ensures { result ≡ self.now.delta_luma_weight_l0 }
    {
        self.delta_luma_weight_l0
    }

    /// For each entry of list 0, the offset of luma.
    pub fn luma_offset_l0(&self) -> [i16; 15]
        ensures { result ≡ self.now.luma_offset_l0 }
    {
        self.luma_offset_l0
    }

    /// For each entry of list 0, what its Cb and Cr weights add to 1.
    pub fn delta_chroma_weight_l0(&self) -> [[i8; 2]; 15]
        ensures { result ≡ self.now.delta_chroma_weight_l0 }
    {
        self.delta_chroma_weight_l0
    }

    /// For each entry of list 0, the differences that give the offsets of Cb and Cr.
    pub fn delta_chroma_offset_l0(&self) -> [[i16; 2]; 15]
        ensures { result ≡ self.now.delta_chroma_offset_l0 }
    {
        self.delta_chroma_offset_l0
    }

    /// For each entry of list 1, whether luma is weighted.
    pub fn luma_weight_l1_flag(&self) -> [bool; 15]
        ensures { result ≡ self.now.luma_weight_l1_flag }
    {
        self.luma_weight_l1_flag
    }

    /// For each entry of list 1, whether chroma is weighted.
    pub fn chroma_weight_l1_flag(&self) -> [bool; 15]
        ensures { result ≡ self.now.chroma_weight_l1_flag }
    {
        self.chroma_weight_l1_flag
    }

    /// For each entry of list 1, what its luma weight adds to 1.
    pub fn delta_luma_weight_l1(&self) -> [i8; 15]
        ensures { result ≡ self.now.delta_luma_weight_l1 }
    {
        self.delta_luma_weight_l1
    }

    /// For each entry of list 1, the offset of luma.
    pub fn luma_offset_l1(&self) -> [i16; 15]
        ensures { result ≡ self.now.luma_offset_l1 }
    {
        self.luma_offset_l1
    }

    /// For each entry of list 1, what its Cb and Cr weights add to 1.
    pub fn delta_chroma_weight_l1(&self) -> [[i8; 2]; 15]
        ensures { result ≡ self.now.delta_chroma_weight_l1 }
    {
        self.delta_chroma_weight_l1
    }

    /// For each entry of list 1, the differences that give the offsets of Cb and Cr.
    pub fn delta_chroma_offset_l1(&self) -> [[i16; 2]; 15]
        ensures { result ≡ self.now.delta_chroma_offset_l1 }
    {
        self.delta_chroma_offset_l1
    }
}
