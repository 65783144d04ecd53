//! The sizes of tile columns or rows (6.5.1), each in coding tree blocks and less 1.
ghost use Rattle.std.specs.Prelude.{◌≡◌, ◌+◌, ◌<◌, ◌≤◌, IfOk, OnOk, replicate};
ghost use Rattle.hevc_elements.specs.Words.{left, Reads, Fills};
ghost use Rattle.hevc_tables.specs.PpsTable as table;
ghost use Rattle.hevc_pps.specs.Projections.{plain_parts};
ghost use Rattle.hevc_pps.specs.Tiling.{blocks_of, AreParts};

use hevc_elements::rows::ue;
use hevc_elements::{ElementReader, ParseError};
use hevc_spec::Row;

/// The sizes of some parts of a length, and how many blocks they leave.
#[derive(Clone, Copy)]
pub(crate) struct Parts<const N: usize> {
    pub sizes: [u32; N],
    pub left: u32,
}

/// The sizes of `count` parts of a length that is spread evenly over them (6-3, 6-4).
#[tactic(auto, using(crate::proofs::EvenSizes::even))]
pub(crate) fn even_sizes<const N: usize>(length: u32, count: u32) -> [u32; N]
    requires short { length ≤ 16888 }
    requires parts { (1 ≤ count) × (count ≤ length) }
    requires places { (count ≤ N) × (N ≤ 22) }
    ensures sizes { result ≡ table.even_sizes N length count }
    ensures all { blocks_of count result ≡ length }
{
    let mut sizes = [0; N];
    for i in 0..count {
        sizes[i as usize] = even_size(length, count, i);
    }
    sizes
}

/// The size of part `i` of `count` parts.
#[tactic(auto, using(crate::proofs::EvenSizes::grows))]
fn even_size(length: u32, count: u32, i: u32) -> u32
    requires short { length ≤ 16888 }
    requires parts { (1 ≤ count) × (count ≤ length) }
    requires there { i < count }
    ensures { result ≡ table.even_size length count i }
{
    (i + 1) * length / count - i * length / count - 1
}

/// Row 17 or 18 of table 11: the sizes of the parts before the last one are told, and the last one
/// takes what is left.
#[tactic(auto, using(crate::proofs::ToldSizes::told), unfolding(hevc_tables::specs::PpsTable::told_sizes))]
pub(crate) fn read_told_sizes<const N: usize>(
    r: &mut ElementReader<'_>,
    row: Row,
    length: u32,
    last: usize,
) -> Result<[u32; N], ParseError>
    requires length { (1 ≤ length) × (length ≤ 16888) }
    requires places { (last < N) × (N ≤ 22) }
    ensures read { Reads (λ sizes. sizes) (table.told_sizes row N length last) result r.old r.new }
    ensures all { IfOk result (λ sizes. blocks_of (last + 1) sizes ≡ length) }
{
    let parts: Parts<N> = read_told_parts(r, row, length, last)?;
    let mut sizes = parts.sizes;
    sizes[last] = parts.left - 1;
    Ok(sizes)
}

/// The parts before the last one.
#[tactic(auto, using(hevc_elements::proofs::Loops::loops), unfolding(hevc_tables::specs::PpsTable::told_parts))]
fn read_told_parts<const N: usize>(
    r: &mut ElementReader<'_>,
    row: Row,
    length: u32,
    last: usize,
) -> Result<Parts<N>, ParseError>
    requires length { (1 ≤ length) × (length ≤ 16888) }
    requires places { (last < N) × (N ≤ 22) }
    ensures read { Reads plain_parts (table.told_parts row N length last) result r.old r.new }
    ensures parts { IfOk result (λ parts. AreParts length last (plain_parts parts)) }
{
    let mut parts = Parts {
        sizes: [0; N],
        left: length,
    };
    for i in 0..last {
        read_told_size(r, row, i, &mut parts)?;
    }
    Ok(parts)
}

/// Part `i`, which leaves a block for the next.
#[tactic(auto, using(crate::proofs::ToldSizes::told), unfolding(hevc_tables::specs::PpsTable::told_size))]
fn read_told_size<const N: usize>(
    r: &mut ElementReader<'_>,
    row: Row,
    i: usize,
    parts: &mut Parts<N>,
) -> Result<(), ParseError>
    requires some { (1 ≤ parts.old.left) × (parts.old.left ≤ 16888) }
    requires there { i < N }
    ensures fills { Fills plain_parts
        (table.told_size row i) result parts.old parts.new r.old r.new }
    ensures leaves { OnOk result ((1 ≤ parts.new.left) × (parts.new.left ≤ parts.old.left)) }
    ensures same { OnOk result
        (blocks_of (i + 1) parts.new.sizes + parts.new.left
        ≡ blocks_of i parts.old.sizes + parts.old.left) }
{
    let least = if parts.left == 1 { 1 } else { 0 };
    let size = ue(r, row, least, parts.left.saturating_sub(2))?;
    parts.sizes[i] = size;
    parts.left -= size + 1;
    Ok(())
}
