//! The worked cases of yEnc: spellings, keyword lines and whole bodies, the kernels below them, and the decoder of a block in
//! pieces of every size.
#![tactic(auto)]

#[cfg(test)]
mod block_fixtures;
#[cfg(test)]
mod blocks;
#[cfg(test)]
mod bodies;
#[cfg(test)]
mod decoding;
#[cfg(test)]
mod draws;
#[cfg(test)]
mod in_place;
#[cfg(test)]
mod landings;
#[cfg(test)]
mod long_lines;
#[cfg(test)]
mod reading;
#[cfg(test)]
mod spellings;
#[cfg(test)]
mod sums;
#[cfg(test)]
mod texts;
