//! Worked headers, their parts, and sets that are kept.
mod parser;
mod parts;
mod references;
mod slice_header;
