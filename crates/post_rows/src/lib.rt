//! The worked cases of posted files: plans, articles, sessions and indexes, and the news servers in memory that take them.
#![tactic(auto)]

#[cfg(test)]
mod articles;
#[cfg(test)]
mod fixtures;
#[cfg(test)]
mod links;
#[cfg(test)]
mod plans;
#[cfg(test)]
mod sessions;
#[cfg(test)]
mod spool_fixtures;
#[cfg(test)]
mod spools;
