//! The walk of `hevc_walk` once more, unit by unit, as a decoder goes: the form that proofs about a
//! decoder take.
#![tactic(auto)]
