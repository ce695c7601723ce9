//! The worked cases of the machines: which segment each link asks for, and the ranges of a file's parts, each also by calls at
//! random beside a plain program.
#![tactic(auto)]

#[cfg(test)]
mod chance;
#[cfg(test)]
mod fixtures;
#[cfg(test)]
mod parts;
#[cfg(test)]
mod plain;
#[cfg(test)]
mod random;
#[cfg(test)]
mod trial;
#[cfg(test)]
mod worked;
