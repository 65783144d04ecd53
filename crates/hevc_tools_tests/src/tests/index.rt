//! Tests of the points of streams and of splicing.
mod decoded;
mod points;
mod program;
mod splicing;
