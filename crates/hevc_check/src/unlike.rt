//! Why the walk ends before the stream does.
ghost use Rattle.std.specs.Prelude.{◌≡◌};

use std::alloc::{AllocError, AllocFailed};

/// Why the walk ends before the stream does.
#[derive(Clone, Copy, Debug, PartialEq, Eq)]
pub(crate) enum Unlike {
    /// A unit is refused, or a picture finds the buffer full as it is to be stored.
    Refused,
    /// There is no memory.
    NoMemory,
}

impl From<AllocError> for Unlike {
    ghost use Rattle.hevc_check.specs.declared.unlike.Unlike.TheVariants.{NoMemory};

    ghost from_gives = { λ _ e. e ≡ NoMemory };

    fn from(_error: AllocError) -> Unlike {
        Unlike::NoMemory
    }
}

impl<T: Drop> From<AllocFailed<T>> for Unlike {
    ghost use Rattle.hevc_check.specs.declared.unlike.Unlike.TheVariants.{NoMemory};

    ghost from_gives = { λ _ e. e ≡ NoMemory };

    fn from(_error: AllocFailed<T>) -> Unlike {
        Unlike::NoMemory
    }
}

impl From<hevc_dpb::DpbFull> for Unlike {
    ghost use Rattle.hevc_check.specs.declared.unlike.Unlike.TheVariants.{Refused};

    ghost from_gives = { λ _ e. e ≡ Refused };

    fn from(_error: hevc_dpb::DpbFull) -> Unlike {
        Unlike::Refused
    }
}

impl From<hevc_pictures::PocOutOfRange> for Unlike {
    ghost use Rattle.hevc_check.specs.declared.unlike.Unlike.TheVariants.{Refused};

    ghost from_gives = { λ _ e. e ≡ Refused };

    fn from(_error: hevc_pictures::PocOutOfRange) -> Unlike {
        Unlike::Refused
    }
}
