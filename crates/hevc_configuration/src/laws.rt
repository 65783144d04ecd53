//! A law on records and their bytes.
ghost use Rattle.std.specs.Prelude.{ℕ, List, ◌++◌};
ghost use Rattle.hevc_configuration.specs.Configuration.{PlainConfiguration, configuration_rows};
ghost use Rattle.hevc_configuration.specs.Held.{IsHeld};
ghost use Rattle.hevc_configuration.specs.Rows.{AreRows, bytes_of_rows};

/// What is written of a record is in its rows, whatever follows: so it is read as that record.
pub fn written_rows_are_found()
    ensures { (c : PlainConfiguration) (rest : List ℕ) → IsHeld c
        → AreRows (configuration_rows c) (bytes_of_rows (configuration_rows c) ++ rest) }
{}
