//! Sequence sets and slice headers, as the walk over pictures has them: definitions alone.
#![tactic(auto)]
