//! The worked cases of overviews: counts in subjects, dates and lines, and the index of a newsgroup, over links in memory.
#![tactic(auto)]

#[cfg(test)]
mod counts;
#[cfg(test)]
mod dates;
#[cfg(test)]
mod endings;
#[cfg(test)]
mod file_fixtures;
#[cfg(test)]
mod grouping;
#[cfg(test)]
mod grouping_fixtures;
#[cfg(test)]
mod index_fixtures;
#[cfg(test)]
mod lines;
#[cfg(test)]
mod sessions;
