//! A decoder that calls nobody: it is given units, and what came of them is taken one by one. Its
//! calls as C sees them, with plain structs and statuses; and the units of a stream, their
//! parameter sets and slice segment headers as plain structs.
#![tactic(auto)]

mod calls;
mod controls;
mod counted;
mod decoder;
mod extent;
mod fields;
mod laws;
mod pulled;
mod reads;
mod seeking;
mod status;
mod tells;
mod units;

pub use calls::{DecodeCall, accept_format, decode, flush, next_event, seek};
pub use controls::{entry_points, picture_controls, slice_controls, want_controls};
pub use counted::Counted;
pub use decoder::{NotAwaited, PullDecoder};
pub use fields::{
    PpsFields, ProfileFields, SliceFields, SpsFields, VpsFields, VuiFields, pps_fields,
    profile_fields, slice_fields, sps_fields, vps_fields, vui_fields,
};
pub use laws::{all_ends_are_told, told_ends_are_so};
pub use pulled::Pulled;
pub use reads::{UnitRead, read_unit};
pub use status::{FORMAT_NOT_AWAITED, MISSING_SPS, NO_CONTROLS, TOO_LONG};
pub use tells::tell_unit;
pub use units::{UnitCall, next_unit};
