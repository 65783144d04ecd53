//! Whether an H.265 byte stream keeps bounds that are enough for its pictures to be output whole and in
//! order (7.4.3.2.1, C.5.2), and if not, at which picture one of them doesn't hold.
#![tactic(auto)]

mod answer;
mod beginning;
mod begun;
mod breach;
mod check;
mod filled;
mod late;
mod lines;
mod pictures;
mod program;
mod sequence;
mod table;
mod units;
mod unlike;
mod words;

pub use breach::Breach;
pub use check::{CheckError, Checked, check_order, check_stream};
pub use program::run_check;
