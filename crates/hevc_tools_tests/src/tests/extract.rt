//! Tests of the extractor of sub-layers and layers.
mod decoded;
mod extraction;
mod program;
