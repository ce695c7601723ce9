//! The worked cases of the commands that need a server: tests of the top call, over links in memory.
#![tactic(auto)]

#[cfg(test)]
mod fixtures;
#[cfg(test)]
mod index;
#[cfg(test)]
mod index_faults;
#[cfg(test)]
mod index_fixtures;
#[cfg(test)]
mod post;
#[cfg(test)]
mod post_faults;
#[cfg(test)]
mod post_fixtures;
#[cfg(test)]
mod post_logins;
