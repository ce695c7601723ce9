//! The worked cases of stores: in memory, and in a real folder.
#![tactic(auto)]

#[cfg(test)]
mod calls;
#[cfg(test)]
mod disk;
#[cfg(test)]
mod folder;
#[cfg(test)]
mod memory;
