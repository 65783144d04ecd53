//! Slice types.
ghost use Rattle.std.specs.Prelude.{◌≡◌, ◌↔◌, IsTrue};

/// The coding type of a slice: how many reference lists it has (H.265 7.4.7.1, Table 7-7).
///
/// Its number is `slice_type`.
#[derive(Clone, Copy, Default, PartialEq, Eq)]
pub enum SliceType {
    /// Two reference lists.
    B = 0,
    /// One reference list.
    #[default]
    P = 1,
    /// No reference list.
    I = 2,
}

impl SliceType {
    ghost use Rattle.hevc_set_parts.specs.SliceType.{slice_type_number};

    /// The type of this number, `None` for other numbers.
    pub fn n(value: u32) -> Option<SliceType>
        ensures { (slice_type : SliceType)
            → (result ≡ Some slice_type) ↔ (slice_type_number slice_type ≡ value) }
    {
        match value {
            0 => Some(SliceType::B),
            1 => Some(SliceType::P),
            2 => Some(SliceType::I),
            _ => None,
        }
    }

    /// The number of the type.
    pub fn number(self) -> u32
        ensures { result ≡ slice_type_number self }
    {
        self as u32
    }

    /// Whether the slice is a P slice.
    pub fn is_p(&self) -> bool
        ensures { IsTrue result ↔ (self.now ≡ SliceType.P) }
    {
        *self == SliceType::P
    }

    /// Whether the slice is a B slice.
    pub fn is_b(&self) -> bool
        ensures { IsTrue result ↔ (self.now ≡ SliceType.B) }
    {
        *self == SliceType::B
    }

    /// Whether the slice is an I slice.
    pub fn is_i(&self) -> bool
        ensures { IsTrue result ↔ (self.now ≡ SliceType.I) }
    {
        *self == SliceType::I
    }
}
