//! Tests of backends and of the decoder, unit by unit and over whole streams, up to the report, and of the decoder for C.
#![tactic(auto)]

#[cfg(test)]
mod backend;
#[cfg(test)]
mod decoder;
#[cfg(test)]
mod driver;
#[cfg(test)]
mod expect;
#[cfg(test)]
mod for_c;
#[cfg(test)]
mod report;
#[cfg(test)]
mod stateless;
