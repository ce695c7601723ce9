//! The worked cases of the real objects: files, streams and links over TCP, tried on the system.
#![tactic(auto)]

#[cfg(test)]
mod fixtures;
#[cfg(test)]
mod sockets;
#[cfg(test)]
mod system;
#[cfg(test)]
mod turns;
