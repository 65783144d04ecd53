//! Short-term reference picture sets.
ghost use Rattle.std.specs.Prelude.{◌≡◌, ◌+◌, ◌≤◌};
ghost use Rattle.hevc_records.specs.ShortTermRefPicSet.{Fall, Rise};

/// A candidate short-term reference picture set (H.265 7.3.7, 7.4.8).
///
/// Its members are named by the differences of their order counts to that of the current picture.
#[derive(Clone, Copy, PartialEq, Eq)]
pub struct ShortTermRefPicSet {
    /// Whether the set is predicted from an earlier one.
    pub inter_ref_pic_set_prediction_flag: bool,
    /// How far back the set that predicts this one is, less 1: 0 to 63.
    pub delta_idx_minus1: u8,
    /// Whether the shift of a predicted set is negative.
    pub delta_rps_sign: bool,
    /// The size of the shift of a predicted set, less 1: 0 to 32767.
    pub abs_delta_rps_minus1: u16,
    /// The number of members before the current picture: 0 to 16, in a predicted set derived.
    pub num_negative_pics: u8,
    /// The number of members after the current picture: 0 to 16, in a predicted set derived.
    pub num_positive_pics: u8,
    /// The differences of the members before the current picture, nearest first.
    pub delta_poc_s0: [i32; 16],
    /// For each member of `delta_poc_s0`, whether the current picture may refer to it.
    pub used_by_curr_pic_s0: [bool; 16],
    /// The differences of the members after the current picture, nearest first.
    pub delta_poc_s1: [i32; 16],
    /// For each member of `delta_poc_s1`, whether the current picture may refer to it.
    pub used_by_curr_pic_s1: [bool; 16],
    /// The number of members: 0 to 16.
    pub num_delta_pocs: u32,
    pub ghost at_most_16: { num_negative_pics + num_positive_pics ≤ 16 },
    pub ghost sum: { num_delta_pocs ≡ num_negative_pics + num_positive_pics },
    pub ghost negatives: { Fall num_negative_pics delta_poc_s0 },
    pub ghost positives: { Rise num_positive_pics delta_poc_s1 },
}

impl ShortTermRefPicSet {
    ghost use Rattle.hevc_records.specs.ShortTermRefPicSet.{default_short_term_ref_pic_set};
    ghost use Rattle.hevc_set_parts.specs.ShortTermRefPicSet.{plain_short_term_ref_pic_set};

    /// The empty set.
    pub fn new() -> ShortTermRefPicSet
        ensures { plain_short_term_ref_pic_set result ≡ default_short_term_ref_pic_set }
    {
        ShortTermRefPicSet {
            inter_ref_pic_set_prediction_flag: false,
            delta_idx_minus1: 0,
            delta_rps_sign: false,
            abs_delta_rps_minus1: 0,
            num_negative_pics: 0,
            num_positive_pics: 0,
            delta_poc_s0: [0; 16],
            used_by_curr_pic_s0: [false; 16],
            delta_poc_s1: [0; 16],
            used_by_curr_pic_s1: [false; 16],
            num_delta_pocs: 0,
        }
    }

    /// Whether the set is predicted from an earlier one.
    pub fn inter_ref_pic_set_prediction_flag(&self) -> bool
        ensures { result ≡ self.now.inter_ref_pic_set_prediction_flag }
    {
        self.inter_ref_pic_set_prediction_flag
    }

    /// How far back the set that predicts this one is, less 1.
    pub fn delta_idx_minus1(&self) -> u8
        ensures { result ≡ self.now.delta_idx_minus1 }
    {
        self.delta_idx_minus1
    }

    /// Whether the shift of a predicted set is negative.
    pub fn delta_rps_sign(&self) -> bool
        ensures { result ≡ self.now.delta_rps_sign }
    {
        self.delta_rps_sign
    }

    /// The size of the shift of a predicted set, less 1.
    pub fn abs_delta_rps_minus1(&self) -> u16
        ensures { result ≡ self.now.abs_delta_rps_minus1 }
    {
        self.abs_delta_rps_minus1
    }

    /// The number of members before the current picture.
    pub fn num_negative_pics(&self) -> u8
        ensures { result ≡ self.now.num_negative_pics }
    {
        self.num_negative_pics
    }

    /// The number of members after the current picture.
    pub fn num_positive_pics(&self) -> u8
        ensures { result ≡ self.now.num_positive_pics }
    {
        self.num_positive_pics
    }

    /// The differences of the members before the current picture, nearest first.
    pub fn delta_poc_s0(&self) -> [i32; 16]
        ensures { result ≡ self.now.delta_poc_s0 }
    {
        self.delta_poc_s0
    }

    /// For each member of `delta_poc_s0`, whether the current picture may refer to it.
    pub fn used_by_curr_pic_s0(&self) -> [bool; 16]
        ensures { result ≡ self.now.used_by_curr_pic_s0 }
    {
        self.used_by_curr_pic_s0
    }

    /// The differences of the members after the current picture, nearest first.
    pub fn delta_poc_s1(&self) -> [i32; 16]
        ensures { result ≡ self.now.delta_poc_s1 }
    {
        self.delta_poc_s1
    }

    /// For each member of `delta_poc_s1`, whether the current picture may refer to it.
    pub fn used_by_curr_pic_s1(&self) -> [bool; 16]
        ensures { result ≡ self.now.used_by_curr_pic_s1 }
    {
        self.used_by_curr_pic_s1
    }

    /// The number of members.
    pub fn num_delta_pocs(&self) -> u32
        ensures { result ≡ self.now.num_delta_pocs }
    {
        self.num_delta_pocs
    }
}
