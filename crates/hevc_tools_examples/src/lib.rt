//! Answers of the tools that are right, and ones that each break a part of what the tools promise.
#![tactic(auto)]

pub mod added;
pub mod begun;
pub mod extracts;
pub mod rewritten;
pub mod runs;
pub mod verdicts;
