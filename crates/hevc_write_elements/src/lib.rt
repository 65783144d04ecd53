//! Writing by syntax tables: the elements of tables, written, and the words of writers' contracts
//! (specs/Filling) with the choices for what no record keeps (specs/Choices).
#![tactic(auto)]

pub mod rows;
