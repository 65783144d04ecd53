//! Which elements the profile of a sub-layer has.
ghost use Rattle.std.specs.Prelude.{◌≡◌, ◌<◌, ◌||◌};
ghost use Rattle.hevc_element_names.specs.Names.{constraint, profile_element, range_constraint};
ghost use Rattle.hevc_element_names.specs.Seen.{is_14bit, is_inbld, is_range, no_layer, own_layer};
ghost use Rattle.hevc_element_names.specs.Seen.{with_element, with_profile};

/// Which elements the profile of a sub-layer has (7.3.3), by the profiles to which it conforms:
/// those of the range extensions' profiles, and of these `max_14bit_constraint_flag`, those of Main
/// 10, and `inbld_flag`.
#[derive(Clone, Copy)]
pub(crate) struct Layer {
    pub(crate) has_range: bool,
    pub(crate) has_14bit: bool,
    pub(crate) is_main_10: bool,
    pub(crate) has_inbld: bool,
}

impl Layer {
    /// It conforms to no profile yet.
    pub(crate) fn new() -> Layer
        ensures { own_layer result ≡ no_layer }
    {
        Layer {
            has_range: false,
            has_14bit: false,
            is_main_10: false,
            has_inbld: false,
        }
    }

    /// It conforms to one more profile.
    fn with_profile(self, number: u64) -> Layer
        ensures { own_layer result ≡ with_profile number (own_layer self) }
    {
        Layer {
            has_range: either(self.has_range, is_range(number)),
            has_14bit: either(self.has_14bit, is_14bit(number)),
            is_main_10: either(self.is_main_10, number == 2),
            has_inbld: either(self.has_inbld, is_inbld(number)),
        }
    }

    /// After the element at a place of its profile.
    pub(crate) fn with_element(self, at: u64, value: u32) -> Layer
        ensures { own_layer result ≡ with_element at value (own_layer self) }
    {
        if at == 0 {
            Layer::new()
        } else if at == 2 {
            self.with_profile(u64::from(value))
        } else if at >= 3 && at < 35 && value == 1 {
            self.with_profile(at - 3)
        } else {
            self
        }
    }

    /// The element at a place of its profile.
    pub(crate) fn profile_element(self, at: u64) -> u64
        requires { at < 83 }
        ensures value { result ≡ profile_element (own_layer self) at }
        ensures small { result < 40 }
    {
        if at < 3 {
            at
        } else if at < 35 {
            3
        } else if at < 39 {
            at - 31
        } else {
            self.constraint(at)
        }
    }

    /// The element at a place from 39 on: 43 constraints, and one bit.
    fn constraint(self, at: u64) -> u64
        requires { at < 83 }
        ensures value { result ≡ constraint (own_layer self) at }
        ensures small { result < 40 }
    {
        if at == 82 {
            if self.has_inbld { 23 } else { 24 }
        } else if self.has_range {
            self.range_constraint(at)
        } else if self.is_main_10 {
            if at < 46 {
                20
            } else if at == 46 {
                15
            } else {
                21
            }
        } else {
            22
        }
    }

    /// The same of the range extensions' profiles.
    fn range_constraint(self, at: u64) -> u64
        ensures value { result ≡ range_constraint (own_layer self) at }
        ensures small { at < 83 → result < 40 }
    {
        if at < 48 {
            at.saturating_sub(31)
        } else if self.has_14bit {
            if at == 48 { 17 } else { 18 }
        } else {
            19
        }
    }
}

/// Whether one of two holds.
fn either(first: bool, second: bool) -> bool
    ensures { result ≡ (first || second) }
{
    first || second
}

/// Whether this is one of the range extensions' profiles.
fn is_range(number: u64) -> bool
    ensures { result ≡ is_range number }
{
    number >= 4 && number <= 11
}

/// Whether this profile has `max_14bit_constraint_flag`.
fn is_14bit(number: u64) -> bool
    ensures { result ≡ is_14bit number }
{
    matches!(number, 5 | 9 | 10 | 11)
}

/// Whether this profile has `inbld_flag`.
fn is_inbld(number: u64) -> bool
    ensures { result ≡ is_inbld number }
{
    matches!(number, 1 | 2 | 3 | 4 | 5 | 9 | 11)
}
