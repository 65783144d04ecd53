//! The syntax tables (7.3, Annex E) as values, a module a table.
//!
//! This crate holds definitions alone (specs/), and what lists in them are made of: contracts of
//! the crates above cite them.
#![tactic(auto)]

mod member_flags;
mod short_term_member;

pub use member_flags::MemberFlags;
pub use short_term_member::ShortTermMember;
