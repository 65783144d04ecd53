//! Tests of the checker of declared bounds.
mod checks;
mod orders;
mod program;

use hevc_check::{Breach, CheckError, Checked};

/// The answer where nothing is broken.
fn yes(sequences: u64, pictures: u64) -> Result<Checked, CheckError> {
    Ok(Checked::Yes {
        sequences,
        pictures,
    })
}

/// The answer where the picture of this number breaks this.
fn no(number: u64, unit: u64, breach: Breach) -> Result<Checked, CheckError> {
    Ok(Checked::No {
        number,
        unit,
        breach,
    })
}
