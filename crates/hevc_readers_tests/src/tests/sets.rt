//! Worked sets and parts of sets, a module a reader.
mod picture_set;
mod profile;
mod scaling;
mod sequence_set;
mod short_term;
mod timing;
mod usability;
mod video_set;
