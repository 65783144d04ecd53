//! The matrices of a size (7.3.4, table 6).
ghost use Rattle.std.specs.Prelude.{pos, negsuc, ◌≤ℤ◌};
ghost use Rattle.std.specs.Prelude.{◌≡◌, ◌<◌};
ghost use Rattle.hevc_elements.specs.Words.{Reads, Fills};
ghost use Rattle.hevc_tables.specs.ScalingListTable as table;
ghost use Rattle.hevc_scaling.specs.Projections.{plain_size, plain_matrices};

use crate::coded::read_coded;
use crate::records::Matrices;
use crate::size::{Size, has_matrix, max_delta, ref_matrix};
use hevc_elements::rows::{flag, ue_u8};
use hevc_elements::{ElementReader, ParseError};
use hevc_spec::Row;

/// Reads the matrices of a size, whose default lists are these, by table 6.
#[tactic(auto, using(hevc_elements::proofs::Loops::loops), unfolding(hevc_tables::specs::ScalingListTable::matrices))]
pub(crate) fn read_matrices<const N: usize>(
    r: &mut ElementReader<'_>,
    size: Size,
    defaults: &[[u8; N]; 6],
) -> Result<Matrices<N>, ParseError>
    requires { N ≡ table.coef_num (plain_size size) }
    ensures read { Reads plain_matrices (table.matrices (plain_size size) defaults.now) result r.old
        r.new }
{
    let mut all = Matrices {
        dc_coef_minus8: [0; 6],
        entries: [[0; N]; 6],
    };
    for matrix_id in 0..6 {
        read_next(r, size, defaults, matrix_id, &mut all)?;
    }
    Ok(all)
}

/// The matrix of this matrixId, where the size has it.
#[tactic(auto, unfolding(hevc_tables::specs::ScalingListTable::next_matrix, hevc_spec::specs::Rows::when))]
fn read_next<const N: usize>(
    r: &mut ElementReader<'_>,
    size: Size,
    defaults: &[[u8; N]; 6],
    matrix_id: u8,
    all: &mut Matrices<N>,
) -> Result<(), ParseError>
    requires count { N ≡ table.coef_num (plain_size size) }
    requires there { matrix_id < 6 }
    ensures { Fills plain_matrices
        (table.next_matrix
        (plain_size size) defaults.now matrix_id) result all.old all.new r.old r.new }
{
    if has_matrix(size, matrix_id) {
        read_matrix(r, size, defaults, matrix_id, all)?;
    }
    Ok(())
}

/// Rows 1 to 4 of table 6, for one matrix.
#[tactic(auto, unfolding(hevc_tables::specs::ScalingListTable::matrix, hevc_spec::specs::Rows::either))]
fn read_matrix<const N: usize>(
    r: &mut ElementReader<'_>,
    size: Size,
    defaults: &[[u8; N]; 6],
    matrix_id: u8,
    all: &mut Matrices<N>,
) -> Result<(), ParseError>
    requires count { N ≡ table.coef_num (plain_size size) }
    requires there { matrix_id < 6 }
    ensures { Fills plain_matrices
        (table.matrix (plain_size size) defaults.now matrix_id) result all.old all.new r.old r.new }
{
    if flag(r, Row(6, 1))? {
        read_coded(r, size, matrix_id, all)
    } else {
        read_predicted(r, size, defaults, matrix_id, all)
    }
}

/// Row 2 of table 6, for one matrix.
#[tactic(auto, unfolding(hevc_tables::specs::ScalingListTable::predicted_matrix))]
fn read_predicted<const N: usize>(
    r: &mut ElementReader<'_>,
    size: Size,
    defaults: &[[u8; N]; 6],
    matrix_id: u8,
    all: &mut Matrices<N>,
) -> Result<(), ParseError>
    requires { matrix_id < 6 }
    ensures { Fills plain_matrices
        (table.predicted_matrix
        (plain_size size) defaults.now matrix_id) result all.old all.new r.old r.new }
{
    let delta = ue_u8(r, Row(6, 2), 0, max_delta(size, matrix_id))?;
    if delta == 0 {
        put_default(defaults, matrix_id, all);
    } else {
        put_copy(ref_matrix(size, matrix_id, delta), matrix_id, all);
    }
    Ok(())
}

/// Puts the default matrix at its matrixId.
fn put_default<const N: usize>(defaults: &[[u8; N]; 6], matrix_id: u8, all: &mut Matrices<N>)
    requires { matrix_id < 6 }
    ensures { plain_matrices all.new
        ≡ table.with_default defaults.now matrix_id (plain_matrices all.old) }
{
    put_matrix(8, &defaults[usize::from(matrix_id)], matrix_id, all);
}

/// Puts the same as an earlier matrix at its matrixId.
#[tactic(auto, using(crate::proofs::Places::places))]
fn put_copy<const N: usize>(ref_matrix_id: u8, matrix_id: u8, all: &mut Matrices<N>)
    requires earlier { ref_matrix_id < 6 }
    requires there { matrix_id < 6 }
    ensures { plain_matrices all.new
        ≡ table.with_copy ref_matrix_id matrix_id (plain_matrices all.old) }
{
    let entries = all.entries[usize::from(ref_matrix_id)];
    put_matrix(
        all.dc_coef_minus8[usize::from(ref_matrix_id)],
        &entries,
        matrix_id,
        all,
    );
}

/// Puts a matrix at its matrixId.
#[tactic(auto, using(crate::proofs::Places::places), unfolding(hevc_tables::specs::ScalingListTable::with_matrix))]
pub(crate) fn put_matrix<const N: usize>(
    dc_coef_minus8: i16,
    entries: &[u8; N],
    matrix_id: u8,
    all: &mut Matrices<N>,
)
    requires least { negsuc 6 ≤ℤ dc_coef_minus8 }
    requires most { dc_coef_minus8 ≤ℤ pos 247 }
    requires there { matrix_id < 6 }
    ensures { plain_matrices all.new
        ≡ table.with_matrix (plain_matrices all.old) matrix_id dc_coef_minus8 entries.now }
{
    all.dc_coef_minus8[usize::from(matrix_id)] = dc_coef_minus8;
    all.entries[usize::from(matrix_id)] = *entries;
}
