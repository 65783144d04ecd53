//! What reading by a syntax table means: laws on the definitions of `hevc_spec`, which the
//! contracts of readers rest on.
#![tactic(auto)]
