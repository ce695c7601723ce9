//! The worked cases of PAR 2.0 texts, and of files that are checked by them.
#![tactic(auto)]

#[cfg(test)]
mod damage;
#[cfg(test)]
mod pieces;
#[cfg(test)]
mod sets;
#[cfg(test)]
mod texts;
