//! The worked cases of the names under which files are written, and of the words of `fetch`.
#![tactic(auto)]

#[cfg(test)]
mod fetches;
#[cfg(test)]
mod out_names;
