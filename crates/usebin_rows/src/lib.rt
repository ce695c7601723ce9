//! The worked cases of the commands that need no server: tests of the top call, over objects in memory.
#![tactic(auto)]

#[cfg(test)]
mod check;
#[cfg(test)]
mod decode;
#[cfg(test)]
mod encode;
#[cfg(test)]
mod fixtures;
