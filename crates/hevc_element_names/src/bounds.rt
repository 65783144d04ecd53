//! The bounds of the rows of the tables. `docs/pages.py` makes this file from docs/TABLES.md.

/// The place of each row's bounds in the text, and at last its length.
pub static BOUND_SPANS: [u16; 302] = [
    0, 4, 4, 4, 4, 8, 8, 8, 8, 8, 13, 51, 51, 113, 167, 172, 179, 179, 179, 179, 179, 179, 186,
    194, 194, 194, 194, 194, 194, 194, 194, 194, 194, 194, 194, 194, 194, 194, 194, 194, 194, 194,
    194, 194, 194, 194, 194, 194, 194, 194, 194, 194, 194, 264, 264, 264, 264, 284, 284, 284, 284,
    284, 284, 284, 284, 284, 284, 284, 284, 291, 291, 296, 296, 296, 296, 296, 296, 296, 300, 300,
    300, 305, 309, 309, 317, 325, 325, 325, 480, 484, 488, 493, 493, 498, 536, 542, 546, 550, 554,
    558, 687, 691, 695, 695, 695, 695, 695, 695, 699, 703, 703, 708, 708, 708, 713, 713, 713, 713,
    713, 713, 713, 714, 715, 715, 715, 715, 715, 715, 738, 745, 754, 754, 764, 764, 772, 772, 841,
    847, 873, 881, 881, 889, 889, 889, 889, 889, 889, 889, 889, 889, 889, 889, 889, 893, 897, 897,
    897, 897, 897, 897, 897, 897, 897, 897, 897, 904, 904, 909, 914, 914, 914, 919, 944, 944, 1030,
    1030, 1030, 1030, 1035, 1040, 1040, 1040, 1040, 1045, 1050, 1073, 1073, 1116, 1123, 1130, 1130,
    1147, 1164, 1164, 1226, 1261, 1261, 1261, 1261, 1266, 1271, 1271, 1271, 1271, 1290, 1290, 1290,
    1291, 1292, 1292, 1292, 1292, 1292, 1313, 1313, 1313, 1317, 1324, 1349, 1374, 1374, 1374, 1380,
    1386, 1392, 1392, 1418, 1418, 1452, 1486, 1486, 1486, 1486, 1491, 1491, 1512, 1512, 1516, 1516,
    1516, 1516, 1530, 1530, 1538, 1551, 1576, 1584, 1584, 1584, 1584, 1597, 1597, 1597, 1597, 1597,
    1602, 1607, 1607, 1607, 1607, 1607, 1711, 1711, 1717, 1717, 1724, 1795, 1802, 1849, 1856, 1903,
    1910, 1910, 1910, 1910, 1915, 1920, 1920, 1924, 1929, 1929, 1935, 1935, 1935, 1935, 1957, 1957,
    1979, 1983, 2011, 2011, 2011, 2020, 2029, 2038, 2049, 2049, 2049, 2058, 2067, 2076, 2087,
];

/// The bounds, or the conditions.
pub static BOUNDS: [u8; 2087] = *b"\
    1..7\
    0..6\
    0..15\
    0..vps_max_dec_pic_buffering_minus1[i]\
    vps_max_dec_pic_buffering_minus1[i] is not below that of i - 1\
    vps_max_num_reorder_pics[i] is not below that of i - 1\
    0..62\
    0..1023\
    0..1024\
    0..65535\
    30, 60, 63, 90, 93, 120, 123, 150, 153, 156, 180, 183, 186 (Table A.8)\
    as general_level_idc\
    0..2047\
    0..31\
    0..6\
    0..15\
    0..3\
    1..16888\
    1..16888\
    SubWidthC * (left + right) is below the width, and SubHeightC * (top + bottom) below the height; both factors are 1 where separate_colour_plane_flag is set\
    0..6\
    0..6\
    0..12\
    0..16\
    0..sps_max_dec_pic_buffering_minus1[i]\
    0..255\
    0..3\
    0..6\
    0..3\
    0..3\
    log2_min_luma_transform_block_size_minus2 + 2 + log2_diff_max_min_luma_transform_block_size is at most CtbLog2SizeY and at most 5\
    0..4\
    0..4\
    0..2\
    0..2\
    0..64\
    0..32\
    0\
    0\
    0..m, at s = 3 0..m / 3\
    -7..247\
    -128..127\
    0..idx - 1\
    0..32767\
    the set has at most 16 members, and each difference is one of 32 bits\
    0..buf\
    0..buf - num_negative_pics\
    0..32767\
    0..32767\
    0..5\
    0..5\
    0..4095\
    0..16\
    0..15\
    0..64\
    0..128 - palette_max_size\
    0..palette_max_size + delta_palette_max_predictor_size - 1, nothing where the sum is 0\
    0..63\
    0..15\
    0..14\
    0..14\
    -(26 + QpBdOffsetY)..25\
    0..log2_diff_max_min_luma_coding_block_size\
    -12..12\
    -12..12\
    0..Min(W - 1, 19)\
    0..Min(H - 1, 21)\
    0..R - 2, nothing where R is 1; R is W less the columns before\
    the same with H and the rows before\
    -6..6\
    -6..6\
    0..CtbLog2SizeY - 2\
    0\
    0\
    0..MaxTbLog2SizeY - 2\
    0..5\
    -12..12\
    0..Max(0, BitDepthY - 10)\
    0..Max(0, BitDepthC - 10)\
    -7..17\
    -7..17\
    -9..15\
    0..PaletteMaxPredictorSize\
    that of the sequence parameter set\
    that of the sequence parameter set\
    0..63\
    0..PicSizeInCtbsY - 1\
    0..2\
    0 where N is 0\
    0..N - 1\
    0..Min(16, K)\
    0..16 - num_long_term_sps\
    0..K - 1\
    0..2^(32 - L)\
    0..14\
    0..14\
    0..num_ref_idx_l0_active_minus1 where collocated_from_l0_flag is 1, else 0..num_ref_idx_l1_active_minus1\
    0..255\
    -87..77\
    SliceQpY (7-54) is from -QpBdOffsetY of the picture parameter set to 51\
    -12..12\
    its sum with pps_cb_qp_offset is from -12 to 12\
    -12..12\
    its sum with pps_cr_qp_offset is from -12 to 12\
    -12..12\
    -6..6\
    -6..6\
    0..E\
    0..31\
    0..256\
    0..NumPicTotalCurr - 1\
    0..NumPicTotalCurr - 1\
    0..7\
    -luma_log2_weight_denom..127\
    -128..127\
    -Y..Y - 1\
    -128..127\
    -4C..4C - 1\
    -128..127\
    -Y..Y - 1\
    -128..127\
    -4C..4C - 1\
    ";
