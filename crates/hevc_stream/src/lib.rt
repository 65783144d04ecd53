//! What a stream means for its pictures, after the parameter sets that are kept: definitions alone.
#![tactic(auto)]
