//! Tests of the tools above the decoder, over streams in memory: the extractor up to the decoder's report, the splicer up to what is
//! decoded, the checker of declared bounds, and the text of syntax elements.
#![tactic(auto)]

#[cfg(test)]
mod tests;
