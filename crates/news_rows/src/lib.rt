//! The worked cases of NNTP and of articles: blocks, commands and status lines, heads, and dialogs over links in memory.
#![tactic(auto)]

#[cfg(test)]
mod blocks;
#[cfg(test)]
mod dialog_fixtures;
#[cfg(test)]
mod dialogs;
#[cfg(test)]
mod heads;
#[cfg(test)]
mod logins;
#[cfg(test)]
mod readings;
#[cfg(test)]
mod replies;
#[cfg(test)]
mod rules;
