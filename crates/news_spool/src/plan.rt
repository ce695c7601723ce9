// What news servers in memory are to do.
use lists::{Bytes, List};

/// The servers of a spool, and how links to them go.
#[derive(Drop)]
pub struct SpoolPlan {
    /// The servers, all of which have the same articles.
    pub servers: List<SpoolServer>,
    /// The links that end or fall quiet. Of several entries for one link the first counts.
    pub links: List<SpoolLink>,
    /// The most bytes that each receive gives, over all links in turn, and again from the first behind the last. A receive
    /// is quiet where it is 0. An empty list sets no bound.
    pub pieces: List<u32>,
    /// The date of each article in an overview.
    pub date: Bytes,
}

/// A news server in memory.
#[derive(Drop)]
pub struct SpoolServer {
    /// Its address.
    pub address: Bytes,
    /// The numbers of the articles that BODY and STAT find missing on it.
    pub absent: List<u64>,
    /// The name and the password of the login that it asks for, if it does.
    pub login: Option<(Bytes, Bytes)>,
}

/// When a link ends or falls quiet.
#[derive(Clone, Copy, Debug, Drop, PartialEq, Eq)]
pub struct SpoolLink {
    /// The number of the link, from 0 in the order in which they are opened.
    pub link: u32,
    /// After how many bytes it gives its end.
    pub ends_after: Option<u64>,
    /// After how many bytes it stays quiet.
    pub quiet_after: Option<u64>,
}
