//! The sizes of matrices (7.4.5).
ghost use Rattle.std.specs.Prelude.{◌≡◌, ◌≤◌, ◌/◌};
ghost use Rattle.hevc_tables.specs.ScalingListTable.{has_dc_coef as has_dc_coef_in_size};
ghost use Rattle.hevc_tables.specs.ScalingListTable.{has_matrix as has_matrix_in_size};
ghost use Rattle.hevc_tables.specs.ScalingListTable.{matrix_step as matrix_step_of_size};
ghost use Rattle.hevc_tables.specs.ScalingListTable.{ref_matrix as ref_matrix_in_size};
ghost use Rattle.hevc_scaling.specs.Projections.{plain_size};

/// The size of a matrix, in the order of sizeId.
#[derive(Clone, Copy)]
pub(crate) enum Size {
    S4x4,
    S8x8,
    S16x16,
    S32x32,
}

/// Whether the first entry of a matrix has a number of its own.
pub(crate) fn has_dc_coef(size: Size) -> bool
    ensures { result ≡ has_dc_coef_in_size (plain_size size) }
{
    match size {
        Size::S4x4 | Size::S8x8 => false,
        Size::S16x16 | Size::S32x32 => true,
    }
}

/// From one matrixId to the next.
fn matrix_step(size: Size) -> u8
    ensures { result ≡ matrix_step_of_size (plain_size size) }
{
    match size {
        Size::S4x4 | Size::S8x8 | Size::S16x16 => 1,
        Size::S32x32 => 3,
    }
}

/// Whether the syntax has a matrix of this matrixId.
pub(crate) fn has_matrix(size: Size, matrix_id: u8) -> bool
    ensures { result ≡ has_matrix_in_size (plain_size size) matrix_id }
{
    matrix_id % matrix_step(size) == 0
}

/// How many matrices are before one, which is its greatest `scaling_list_pred_matrix_id_delta`.
pub(crate) fn max_delta(size: Size, matrix_id: u8) -> u8
    ensures { result ≡ matrix_id / matrix_step_of_size (plain_size size) }
{
    matrix_id / matrix_step(size)
}

/// The matrix that a `scaling_list_pred_matrix_id_delta` names (7-42).
pub(crate) fn ref_matrix(size: Size, matrix_id: u8, delta: u8) -> u8
    requires { delta ≤ matrix_id / matrix_step_of_size (plain_size size) }
    ensures value { result ≡ ref_matrix_in_size (plain_size size) matrix_id delta }
    ensures earlier { result ≤ matrix_id }
{
    matrix_id - delta * matrix_step(size)
}
