//! The extensions of parameter sets, written (7.3.2).
#![tactic(auto)]

mod bit_depth;
mod laws;
mod pps_range_extension;
mod pps_scc_extension;
mod sps_range_extension;
mod sps_scc_extension;

pub use laws::{written_extensions_are_formed, written_extensions_are_read_back};
pub use pps_range_extension::write_pps_range_extension;
pub use pps_scc_extension::write_pps_scc_extension;
pub use sps_range_extension::write_sps_range_extension;
pub use sps_scc_extension::write_sps_scc_extension;
