//! Why a program gives up.
ghost use Rattle.std.specs.Prelude.{◌≡◌};
ghost use Rattle.hevc_io.specs.Stops.{status_of};

use crate::input::InputError;
use crate::sink::SinkError;
use std::alloc::AllocError;

/// Why a program's answer on its input isn't written whole: the source failed, the sink failed,
/// there was no memory, or the input is longer than may be.
#[derive(Clone, Copy, Debug, PartialEq, Eq)]
pub enum Stop {
    Read,
    Write,
    NoMemory,
    TooLong,
}

impl Stop {
    /// The status of a program that gives up: 3 where the source failed, 4 where the sink failed, 5
    /// where there was no memory, 6 where the input is too long.
    pub fn status(self) -> u8
        ensures { result ≡ status_of self }
    {
        match self {
            Stop::Read => 3,
            Stop::Write => 4,
            Stop::NoMemory => 5,
            Stop::TooLong => 6,
        }
    }
}

impl From<InputError> for Stop {
    ghost use Rattle.hevc_io.specs.Stops.{stop_of_input};

    ghost from_gives = { λ error stop. stop ≡ stop_of_input error };

    fn from(error: InputError) -> Stop {
        match error {
            InputError::Failed => Stop::Read,
            InputError::TooLong => Stop::TooLong,
            InputError::NoMemory => Stop::NoMemory,
        }
    }
}

impl From<SinkError> for Stop {
    ghost use Rattle.hevc_io.specs.Stops.{stop_of_output};

    ghost from_gives = { λ error stop. stop ≡ stop_of_output error };

    fn from(error: SinkError) -> Stop {
        match error {
            SinkError::Failed => Stop::Write,
            SinkError::NoMemory => Stop::NoMemory,
        }
    }
}

impl From<AllocError> for Stop {
    ghost use Rattle.hevc_io.specs.declared.stop.Stop.TheVariants.{NoMemory};

    ghost from_gives = { λ _ stop. stop ≡ NoMemory };

    fn from(_error: AllocError) -> Stop {
        Stop::NoMemory
    }
}
