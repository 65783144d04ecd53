//! What follows from a sequence parameter set: the size of the buffer, the cropping window, and the
//! derived values.
ghost use Rattle.std.specs.Prelude.{◌≡◌, ◌≤◌};
ghost use Rattle.hevc_records.specs.SpsSizes.{max_dpb_size_of, window_left, window_top};
ghost use Rattle.hevc_records.specs.SpsSizes.{window_width, window_height, sub_width_c};
ghost use Rattle.hevc_records.specs.SpsSizes.{sub_height_c};

use crate::point::Point;
use crate::rect::Rect;
use crate::sps::Sps;

impl Sps {
    ghost use Rattle.hevc_sequence_set.specs.Sps.{plain_sps};

    /// The most pictures that a decoded picture buffer holds at the size, the level and the profile
    /// of the set (MaxDpbSize, A.4.2): 6 to 16.
    pub fn max_dpb_size(&self) -> usize
        ensures by_size { result ≡ max_dpb_size_of (plain_sps self.now) }
        ensures cap { result ≤ 16 }
    {
        let size = self.pic_size_in_samples_y;
        let largest = self.profile_tier_level.max_luma_ps();
        let at_largest = self.profile_tier_level.max_dpb_pic_buf();
        let pictures = if size <= largest / 4 {
            (4 * at_largest).min(16)
        } else if size <= largest / 2 {
            (2 * at_largest).min(16)
        } else if size <= 3 * largest / 4 {
            (4 * at_largest / 3).min(16)
        } else {
            at_largest
        };
        pictures as usize
    }

    /// The width of a picture in luma samples, before cropping.
    pub fn width(&self) -> u16
        ensures { result ≡ self.now.pic_width_in_luma_samples }
    {
        self.pic_width_in_luma_samples
    }

    /// The height of a picture in luma samples, before cropping.
    pub fn height(&self) -> u16
        ensures { result ≡ self.now.pic_height_in_luma_samples }
    {
        self.pic_height_in_luma_samples
    }

    /// The conformance cropping window in luma samples (7.4.3.2.1): `min` is its upper left corner,
    /// `max` its width and height. Where nothing is cropped on the left and at the top, `max` is
    /// its lower right corner too.
    pub fn visible_rectangle(&self) -> Rect<u32>
        ensures left { result.min.x ≡ window_left (plain_sps self.now) }
        ensures top { result.min.y ≡ window_top (plain_sps self.now) }
        ensures width { result.max.x ≡ window_width (plain_sps self.now) }
        ensures height { result.max.y ≡ window_height (plain_sps self.now) }
    {
        Rect {
            min: Point {
                x: self.window_left(),
                y: self.window_top(),
            },
            max: Point {
                x: self.window_width(),
                y: self.window_height(),
            },
        }
    }

    /// Where the window begins, across.
    #[tactic(auto, unfolding(hevc_records::specs::SpsSizes::leaves_some))]
    fn window_left(&self) -> u32
        ensures { result ≡ window_left (plain_sps self.now) }
    {
        if self.conformance_window_flag {
            self.sub_width_c() * self.conf_win_left_offset
        } else {
            0
        }
    }

    /// Where the window begins, down.
    #[tactic(auto, unfolding(hevc_records::specs::SpsSizes::leaves_some))]
    fn window_top(&self) -> u32
        ensures { result ≡ window_top (plain_sps self.now) }
    {
        if self.conformance_window_flag {
            self.sub_height_c() * self.conf_win_top_offset
        } else {
            0
        }
    }

    /// The width of the window.
    #[tactic(auto, unfolding(hevc_records::specs::SpsSizes::leaves_some))]
    fn window_width(&self) -> u32
        ensures { result ≡ window_width (plain_sps self.now) }
    {
        let width = u32::from(self.pic_width_in_luma_samples);
        if self.conformance_window_flag {
            width - self.sub_width_c() * (self.conf_win_left_offset + self.conf_win_right_offset)
        } else {
            width
        }
    }

    /// The height of the window.
    #[tactic(auto, unfolding(hevc_records::specs::SpsSizes::leaves_some))]
    fn window_height(&self) -> u32
        ensures { result ≡ window_height (plain_sps self.now) }
    {
        let height = u32::from(self.pic_height_in_luma_samples);
        if self.conformance_window_flag {
            height - self.sub_height_c() * (self.conf_win_top_offset + self.conf_win_bottom_offset)
        } else {
            height
        }
    }

    /// SubWidthC (Table 6-1): the luma samples for a chroma sample across.
    fn sub_width_c(&self) -> u32
        ensures { result ≡ sub_width_c self.now.chroma_array_type }
    {
        match self.chroma_array_type {
            1 | 2 => 2,
            _ => 1,
        }
    }

    /// SubHeightC (Table 6-1): the luma samples for a chroma sample down.
    fn sub_height_c(&self) -> u32
        ensures { result ≡ sub_height_c self.now.chroma_array_type }
    {
        match self.chroma_array_type {
            1 => 2,
            _ => 1,
        }
    }

    /// The chroma format by which blocks are coded.
    pub fn chroma_array_type(&self) -> u8
        ensures { result ≡ self.now.chroma_array_type }
    {
        self.chroma_array_type
    }

    /// The logarithm of the smallest size of a luma coding block.
    pub fn min_cb_log2_size_y(&self) -> u32
        ensures { result ≡ self.now.min_cb_log2_size_y }
    {
        self.min_cb_log2_size_y
    }

    /// The logarithm of the size of a luma coding tree block.
    pub fn ctb_log2_size_y(&self) -> u32
        ensures { result ≡ self.now.ctb_log2_size_y }
    {
        self.ctb_log2_size_y
    }

    /// The size of a luma coding tree block in samples.
    pub fn ctb_size_y(&self) -> u32
        ensures { result ≡ self.now.ctb_size_y }
    {
        self.ctb_size_y
    }

    /// The width of a picture in coding tree blocks, the last column included where it is cut.
    pub fn pic_width_in_ctbs_y(&self) -> u32
        ensures { result ≡ self.now.pic_width_in_ctbs_y }
    {
        self.pic_width_in_ctbs_y
    }

    /// The height of a picture in coding tree blocks, the last row included where it is cut.
    pub fn pic_height_in_ctbs_y(&self) -> u32
        ensures { result ≡ self.now.pic_height_in_ctbs_y }
    {
        self.pic_height_in_ctbs_y
    }

    /// The number of coding tree blocks in a picture.
    pub fn pic_size_in_ctbs_y(&self) -> u32
        ensures { result ≡ self.now.pic_size_in_ctbs_y }
    {
        self.pic_size_in_ctbs_y
    }

    /// The number of luma samples in a picture.
    pub fn pic_size_in_samples_y(&self) -> u32
        ensures { result ≡ self.now.pic_size_in_samples_y }
    {
        self.pic_size_in_samples_y
    }

    /// The logarithm of the largest size of a luma transform block.
    pub fn max_tb_log2_size_y(&self) -> u32
        ensures { result ≡ self.now.max_tb_log2_size_y }
    {
        self.max_tb_log2_size_y
    }

    /// Half the range of luma offsets in weighted prediction.
    pub fn wp_offset_half_range_y(&self) -> u32
        ensures { result ≡ self.now.wp_offset_half_range_y }
    {
        self.wp_offset_half_range_y
    }

    /// Half the range of chroma offsets in weighted prediction.
    pub fn wp_offset_half_range_c(&self) -> u32
        ensures { result ≡ self.now.wp_offset_half_range_c }
    {
        self.wp_offset_half_range_c
    }
}
