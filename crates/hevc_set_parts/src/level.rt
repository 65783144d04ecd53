//! Levels.
ghost use Rattle.std.specs.Prelude.{◌≡◌, ◌↔◌};

/// A level: bounds on the size and rate of a stream (H.265 A.4).
///
/// Its number, `general_level_idc`, is thirty times the level. Levels are ordered by number.
#[derive(Clone, Copy, Default, PartialEq, Eq, PartialOrd, Ord)]
pub enum Level {
    /// Level 1.
    #[default]
    L1 = 30,
    /// Level 2.
    L2 = 60,
    /// Level 2.1.
    L2_1 = 63,
    /// Level 3.
    L3 = 90,
    /// Level 3.1.
    L3_1 = 93,
    /// Level 4.
    L4 = 120,
    /// Level 4.1.
    L4_1 = 123,
    /// Level 5.
    L5 = 150,
    /// Level 5.1.
    L5_1 = 153,
    /// Level 5.2.
    L5_2 = 156,
    /// Level 6.
    L6 = 180,
    /// Level 6.1.
    L6_1 = 183,
    /// Level 6.2.
    L6_2 = 186,
}

impl Level {
    ghost use Rattle.hevc_set_parts.specs.Level.{level_number};

    /// The level of this number, `None` for other numbers.
    pub fn n(value: u8) -> Option<Level>
        ensures { (level : Level) → (result ≡ Some level) ↔ (level_number level ≡ value) }
    {
        match value {
            30 => Some(Level::L1),
            60 => Some(Level::L2),
            63 => Some(Level::L2_1),
            90 => Some(Level::L3),
            93 => Some(Level::L3_1),
            120 => Some(Level::L4),
            123 => Some(Level::L4_1),
            150 => Some(Level::L5),
            153 => Some(Level::L5_1),
            156 => Some(Level::L5_2),
            180 => Some(Level::L6),
            183 => Some(Level::L6_1),
            186 => Some(Level::L6_2),
            _ => None,
        }
    }

    /// The number of the level.
    pub fn number(self) -> u8
        ensures { result ≡ level_number self }
    {
        self as u8
    }
}
