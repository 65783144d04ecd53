//! The decoder for C: the structs of Linux's stateless decoders, sets and headers that are read alone, and a stream that is decoded by its
//! calls.
mod calls;
mod controls;
mod reads;
mod v4l2;

use hevc_driver::Options;
use hevc_pull::PullDecoder;
use std::alloc::Global;
use std::process::Abort;

/// A decoder at the beginning of a stream.
fn pull_decoder(alloc: Global) -> PullDecoder {
    PullDecoder::new(alloc, Options::new())
}

/// Fails, by its name, where something isn't so.
fn check(rt: &impl Abort, is_so: bool, name: &str) {
    assert!(rt; is_so, "{name}");
}

/// Fails, by its name, with the first of these that isn't so.
fn check_all(rt: &impl Abort, facts: &[(bool, &str)]) {
    for (is_so, name) in facts {
        check(rt, *is_so, name);
    }
}
