//! The worked cases of articles that are asked for by their message-ids on news servers in memory: BODY and STAT.
#![tactic(auto)]

#[cfg(test)]
mod bodies;
#[cfg(test)]
mod bounds;
#[cfg(test)]
mod fixtures;
