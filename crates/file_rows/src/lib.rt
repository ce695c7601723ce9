//! The worked cases of the files of a fetch, over a store in memory.
#![tactic(auto)]

#[cfg(test)]
mod files;
#[cfg(test)]
mod fixtures;
