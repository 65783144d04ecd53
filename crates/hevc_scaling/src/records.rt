//! What is read of matrices.
ghost use Rattle.std.specs.Prelude.{pos, negsuc, ◌≤ℤ◌};
ghost use Rattle.hevc_records.specs.Bounds.{Within};

/// The entries of a matrix as they are read, and the number that the next difference is added to.
#[derive(Clone, Copy)]
pub(crate) struct Coefs<const N: usize> {
    pub next_coef: u8,
    pub entries: [u8; N],
}

/// The matrices of a size, by matrixId.
#[derive(Clone, Copy)]
pub(crate) struct Matrices<const N: usize> {
    /// Each is -7 to 247.
    pub dc_coef_minus8: [i16; 6],
    pub entries: [[u8; N]; 6],
    pub ghost dc: { Within (negsuc 6) (pos 247) dc_coef_minus8 },
}
