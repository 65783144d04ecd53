//! Counts of faults, as backends, sources and sinks keep them: definitions alone.
#![tactic(auto)]
