//! Profiles.
ghost use Rattle.std.specs.Prelude.{◌≡◌, ◌↔◌};

/// A profile: the tools that a stream may use (H.265 A.3, G.11, H.11, I.11).
///
/// Its number is `general_profile_idc`. Profiles are ordered by number.
#[derive(Clone, Copy, Default, PartialEq, Eq, PartialOrd, Ord)]
pub enum Profile {
    /// Main (A.3.2).
    #[default]
    Main = 1,
    /// Main 10 (A.3.3).
    Main10 = 2,
    /// Main Still Picture (A.3.4).
    MainStill = 3,
    /// Format range extensions (A.3.5).
    RangeExtensions = 4,
    /// High throughput (A.3.6).
    HighThroughput = 5,
    /// Multiview Main (G.11).
    MultiviewMain = 6,
    /// Scalable Main (H.11).
    ScalableMain = 7,
    /// 3D Main (I.11).
    ThreeDMain = 8,
    /// Screen content coding extensions (A.3.7).
    ScreenContentCoding = 9,
    /// Scalable format range extensions (H.11).
    ScalableRangeExtensions = 10,
    /// High throughput screen content coding extensions (A.3.8).
    HighThroughputScreenContentCoding = 11,
}

impl Profile {
    ghost use Rattle.hevc_set_parts.specs.Profile.{profile_number};

    /// The profile of this number, `None` for other numbers.
    pub fn n(value: u8) -> Option<Profile>
        ensures { (profile : Profile) → (result ≡ Some profile) ↔ (profile_number profile ≡ value) }
    {
        match value {
            1 => Some(Profile::Main),
            2 => Some(Profile::Main10),
            3 => Some(Profile::MainStill),
            4 => Some(Profile::RangeExtensions),
            5 => Some(Profile::HighThroughput),
            6 => Some(Profile::MultiviewMain),
            7 => Some(Profile::ScalableMain),
            8 => Some(Profile::ThreeDMain),
            9 => Some(Profile::ScreenContentCoding),
            10 => Some(Profile::ScalableRangeExtensions),
            11 => Some(Profile::HighThroughputScreenContentCoding),
            _ => None,
        }
    }

    /// The number of the profile.
    pub fn number(self) -> u8
        ensures { result ≡ profile_number self }
    {
        self as u8
    }
}
