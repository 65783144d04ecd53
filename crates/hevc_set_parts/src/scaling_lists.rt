//! Scaling lists.
ghost use Rattle.std.specs.Prelude.{◌≡◌, pos, negsuc};
ghost use Rattle.hevc_records.specs.Bounds.{Within};

/// The scaling lists of a sequence or picture parameter set (H.265 7.3.4, 7.4.5).
///
/// Each array has a list for each of six matrices: intra Y, Cb and Cr, then inter Y, Cb and Cr. The
/// entries are in the order of the up-right diagonal scan. Of the 32x32 matrices the syntax has
/// those of Y alone, at 0 and 3.
#[derive(Clone, Copy, PartialEq, Eq)]
pub struct ScalingLists {
    /// The first entry of each 16x16 matrix less 8: -7 to 247.
    pub scaling_list_dc_coef_minus8_16x16: [i16; 6],
    /// The first entry of each 32x32 matrix less 8: -7 to 247.
    pub scaling_list_dc_coef_minus8_32x32: [i16; 6],
    /// The entries of each 4x4 matrix.
    pub scaling_list_4x4: [[u8; 16]; 6],
    /// The entries of each 8x8 matrix.
    pub scaling_list_8x8: [[u8; 64]; 6],
    /// The entries of each 16x16 matrix, one for each 2x2 block.
    pub scaling_list_16x16: [[u8; 64]; 6],
    /// The entries of each 32x32 matrix, one for each 4x4 block.
    pub scaling_list_32x32: [[u8; 64]; 6],
    pub ghost dc_16x16: { Within (negsuc 6) (pos 247) scaling_list_dc_coef_minus8_16x16 },
    pub ghost dc_32x32: { Within (negsuc 6) (pos 247) scaling_list_dc_coef_minus8_32x32 },
}

impl ScalingLists {
    ghost use Rattle.hevc_records.specs.ScalingLists.{zero_scaling_lists};
    ghost use Rattle.hevc_set_parts.specs.ScalingLists.{plain_scaling_lists};

    /// All entries 0.
    pub fn new() -> ScalingLists
        ensures { plain_scaling_lists result ≡ zero_scaling_lists }
    {
        ScalingLists {
            scaling_list_dc_coef_minus8_16x16: [0; 6],
            scaling_list_dc_coef_minus8_32x32: [0; 6],
            scaling_list_4x4: [[0; 16]; 6],
            scaling_list_8x8: [[0; 64]; 6],
            scaling_list_16x16: [[0; 64]; 6],
            scaling_list_32x32: [[0; 64]; 6],
        }
    }

    /// The first entry of each 16x16 matrix less 8.
    pub fn scaling_list_dc_coef_minus8_16x16(&self) -> [i16; 6]
        ensures { result ≡ self.now.scaling_list_dc_coef_minus8_16x16 }
    {
        self.scaling_list_dc_coef_minus8_16x16
    }

    /// The first entry of each 32x32 matrix less 8.
    pub fn scaling_list_dc_coef_minus8_32x32(&self) -> [i16; 6]
        ensures { result ≡ self.now.scaling_list_dc_coef_minus8_32x32 }
    {
        self.scaling_list_dc_coef_minus8_32x32
    }

    /// The entries of each 4x4 matrix.
    pub fn scaling_list_4x4(&self) -> [[u8; 16]; 6]
        ensures { result ≡ self.now.scaling_list_4x4 }
    {
        self.scaling_list_4x4
    }

    /// The entries of each 8x8 matrix.
    pub fn scaling_list_8x8(&self) -> [[u8; 64]; 6]
        ensures { result ≡ self.now.scaling_list_8x8 }
    {
        self.scaling_list_8x8
    }

    /// The entries of each 16x16 matrix, one for each 2x2 block.
    pub fn scaling_list_16x16(&self) -> [[u8; 64]; 6]
        ensures { result ≡ self.now.scaling_list_16x16 }
    {
        self.scaling_list_16x16
    }

    /// The entries of each 32x32 matrix, one for each 4x4 block.
    pub fn scaling_list_32x32(&self) -> [[u8; 64]; 6]
        ensures { result ≡ self.now.scaling_list_32x32 }
    {
        self.scaling_list_32x32
    }
}
