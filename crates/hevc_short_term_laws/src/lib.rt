//! Short-term reference picture sets (7.4.8) as lists of differences in order: of members that are
//! written out, and of a predicted set.
#![tactic(auto)]
