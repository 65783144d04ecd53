//! A matrix whose entries are coded (7.3.4, rows 3 and 4 of table 6).
ghost use Rattle.std.specs.Prelude.{pos, negsuc, ◌≤ℤ◌};
ghost use Rattle.hevc_spec.specs.Rows.{row, se_row};
ghost use Rattle.std.specs.Prelude.{◌≡◌, ◌<◌, IfOk};
ghost use Rattle.hevc_elements.specs.Words.{when, Reads, Fills};
ghost use Rattle.hevc_tables.specs.ScalingListTable as table;
ghost use Rattle.hevc_scaling.specs.Projections.{plain_size, plain_coefs, plain_matrices};

use crate::matrices::put_matrix;
use crate::records::{Coefs, Matrices};
use crate::size::{Size, has_dc_coef};
use hevc_elements::rows::{se, se_i8};
use hevc_elements::{ElementReader, ParseError};
use hevc_spec::Row;

/// Rows 3 and 4 of table 6: a matrix whose entries are coded.
#[tactic(auto, unfolding(hevc_tables::specs::ScalingListTable::coded_matrix))]
pub(crate) fn read_coded<const N: usize>(
    r: &mut ElementReader<'_>,
    size: Size,
    matrix_id: u8,
    all: &mut Matrices<N>,
) -> Result<(), ParseError>
    requires count { N ≡ table.coef_num (plain_size size) }
    requires there { matrix_id < 6 }
    ensures { Fills plain_matrices
        (table.coded_matrix (plain_size size) matrix_id) result all.old all.new r.old r.new }
{
    let dc_coef_minus8 = read_dc_if(r, has_dc_coef(size))?;
    let coefs = read_coefs(r, (dc_coef_minus8 + 8) as u8)?;
    put_matrix(dc_coef_minus8, &coefs.entries, matrix_id, all);
    Ok(())
}

/// Row 3 of table 6, where it is present.
#[tactic(auto, unfolding(hevc_spec::specs::Rows::when))]
fn read_dc_if(r: &mut ElementReader<'_>, present: bool) -> Result<i16, ParseError>
    ensures read { Reads (λ n. n) (when present (pos 0) (se_row (row 6 3) (negsuc 6) (pos 247)))
        result r.old r.new }
    ensures bounds { IfOk result (λ n. (negsuc 6 ≤ℤ n) × (n ≤ℤ pos 247)) }
{
    if present {
        Ok(se(r, Row(6, 3), -7, 247)? as i16)
    } else {
        Ok(0)
    }
}

/// Row 4 of table 6, for `N` entries that are summed up from `start`.
#[tactic(auto, using(hevc_elements::proofs::Loops::loops), unfolding(hevc_tables::specs::ScalingListTable::coefs))]
fn read_coefs<const N: usize>(r: &mut ElementReader<'_>, start: u8) -> Result<Coefs<N>, ParseError>
    ensures read { Reads plain_coefs (table.coefs N start) result r.old r.new }
{
    let mut coefs = Coefs {
        next_coef: start,
        entries: [0; N],
    };
    for i in 0..N {
        read_entry(r, i, &mut coefs)?;
    }
    Ok(coefs)
}

/// Row 4 of table 6, for one entry.
#[tactic(auto, unfolding(hevc_tables::specs::ScalingListTable::next_entry))]
fn read_entry<const N: usize>(
    r: &mut ElementReader<'_>,
    i: usize,
    coefs: &mut Coefs<N>,
) -> Result<(), ParseError>
    requires { i < N }
    ensures { Fills plain_coefs (table.next_entry i) result coefs.old coefs.new r.old r.new }
{
    let delta = se_i8(r, Row(6, 4), -128, 127)?;
    coefs.next_coef = sum(coefs.next_coef, delta);
    coefs.entries[i] = coefs.next_coef;
    Ok(())
}

/// A number and a difference, modulo 256.
#[tactic(auto, using(crate::proofs::Modulo::wrapped))]
fn sum(next_coef: u8, delta: i8) -> u8
    ensures { result ≡ table.sum_modulo_256 next_coef delta }
{
    next_coef.wrapping_add(delta.cast_unsigned())
}
