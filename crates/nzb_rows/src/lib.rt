//! The worked cases of NZB texts, read and written.
#![tactic(auto)]

#[cfg(test)]
mod texts;
