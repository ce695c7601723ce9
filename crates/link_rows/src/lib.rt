//! The worked cases of one link of a fetch: replies of every kind, cut by chance into pieces, beside what is known to come of them.
#![tactic(auto)]

#[cfg(test)]
mod chance;
#[cfg(test)]
mod hearing;
#[cfg(test)]
mod lost;
#[cfg(test)]
mod replies;
