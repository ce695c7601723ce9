//! The worked cases of the command line's words.
#![tactic(auto)]

#[cfg(test)]
mod command_lines;
#[cfg(test)]
mod fixtures;
#[cfg(test)]
mod indexes;
#[cfg(test)]
mod posts;
