//! The up-right diagonal scan, by which scaling lists are coded (6.5.3), and raster order, in which
//! controls have them.
ghost use Rattle.std.specs.Prelude.{◌≡◌, map, slice_index, IsPermutation};
ghost use Rattle.std.specs.List.{range_with_len};
ghost use Rattle.hevc_events.specs.Scan.{up_right_diagonal, scan_places_4x4, scan_places_8x8};

/// Where each entry of a 4x4 block, row by row, is on the scan.
pub const SCAN_PLACES_4X4: [u8; 16] = [0, 2, 5, 9, 1, 4, 8, 12, 3, 7, 11, 14, 6, 10, 13, 15];

/// Where each entry of an 8x8 block, row by row, is on the scan.
pub const SCAN_PLACES_8X8: [u8; 64] = [
    0, 2, 5, 9, 14, 20, 27, 35, 1, 4, 8, 13, 19, 26, 34, 42, 3, 7, 12, 18, 25, 33, 41, 48, 6, 11,
    17, 24, 32, 40, 47, 53, 10, 16, 23, 31, 39, 46, 52, 57, 15, 22, 30, 38, 45, 51, 56, 60, 21, 29,
    37, 44, 50, 55, 59, 62, 28, 36, 43, 49, 54, 58, 61, 63,
];

/// The two tables are permutations, and at the places that they tell the scan comes by the block's
/// entries row by row.
pub fn scans_are_permutations()
    ensures permutation_4x4 { IsPermutation (range_with_len 0 16) scan_places_4x4 }
    ensures permutation_8x8 { IsPermutation (range_with_len 0 64) scan_places_8x8 }
    ensures scan_4x4 { map (slice_index (up_right_diagonal 4)) scan_places_4x4
        ≡ range_with_len 0 16 }
    ensures scan_8x8 { map (slice_index (up_right_diagonal 8)) scan_places_8x8
        ≡ range_with_len 0 64 }
{}
