// Runs of the top call over links, and what is asserted of them.
use io_memory::{MemInput, ScriptLinks};
use io_traits::{Input, LinkEvent, Links};
use lists::Bytes;
use news_spool::Spool;
use row_fixtures::{Ran, are_events, sink_failing};
use std::process::Abort;
use usebin_cli::{NoStore, usebin};

/// A run, and the links that it was handed.
#[derive(Drop)]
pub(crate) struct Talk<L> {
    pub(crate) ran: Ran,
    pub(crate) links: L,
}

/// Runs the top call over links, at the moment 1,000,000,000. The writes of these numbers fail.
pub(crate) fn run_linked<I: Input + Drop, L: Links, R: Abort + AllocGlobal>(
    rt: &R,
    words: &[String],
    mut input: I,
    mut links: L,
    failing: &[u64],
    failing_errors: &[u64],
) -> Talk<L> {
    let alloc = rt.alloc();
    let mut out = sink_failing(alloc, failing).expect(rt, "a sink");
    let mut err = sink_failing(alloc, failing_errors).expect(rt, "a sink");
    let status = usebin(
        alloc,
        words,
        &mut input,
        &mut NoStore::new(),
        &mut links,
        &mut out,
        &mut err,
        1_000_000_000,
    );
    let ran = Ran { status, out, err };
    Talk { ran, links }
}

/// Asserts that a run answered this status and wrote these texts.
pub(crate) fn ended<L: Drop, R: Abort>(rt: &R, talk: Talk<L>, status: u8, out: &[u8], err: &str) {
    let _links = ended_with(rt, talk, status, out, err);
}

/// The same, and gives its links back.
pub(crate) fn ended_with<L: Drop, R: Abort>(
    rt: &R,
    talk: Talk<L>,
    status: u8,
    out: &[u8],
    err: &str,
) -> L {
    let Talk { ran, links } = talk;
    assert!(rt; ran.ended(status, out, err.as_bytes()), "{err}");
    links
}

/// Asserts that a run was done, and gives its links back.
pub(crate) fn done<L: Drop, R: Abort>(rt: &R, talk: Talk<L>) -> L {
    let Talk { ran, links } = talk;
    assert!(rt; ran.status == 0);
    links
}

/// What tells its events.
pub(crate) trait Told {
    fn told(&self) -> &[LinkEvent];
}

impl Told for ScriptLinks {
    fn told(&self) -> &[LinkEvent] {
        self.events()
    }
}

impl Told for Spool {
    fn told(&self) -> &[LinkEvent] {
        self.events()
    }
}

/// Asserts that this is all that happened on links. Each event is the first letter of its kind and its bytes: opened, sent,
/// heard, quiet and ended.
pub(crate) fn happened<L: Told + Drop, R: Abort>(rt: &R, links: L, wanted: &[(u8, &[u8])]) {
    assert!(rt; are_events(links.told(), wanted));
}

/// Asserts that this is all that happened behind so many events.
pub(crate) fn happened_behind<L: Told + Drop, R: Abort>(
    rt: &R,
    before: usize,
    links: L,
    wanted: &[(u8, &[u8])],
) {
    let events = links.told();
    let (_, behind) = events.split_at(before.min(events.len()));
    assert!(rt; are_events(behind, wanted));
}

/// Asserts that a server in memory has so many articles.
pub(crate) fn holds<R: Abort>(rt: &R, spool: Spool, articles: usize) {
    let _spool = holding(rt, spool, articles);
}

/// The same, and gives the server back.
pub(crate) fn holding<R: Abort>(rt: &R, spool: Spool, articles: usize) -> Spool {
    assert!(rt; spool.articles() == articles);
    spool
}

/// The words of a command line, and these behind them.
pub(crate) fn words_of<R: Abort + AllocGlobal>(
    rt: &R,
    words: &[&str],
    more: &[&str],
) -> Vec<String> {
    let mut list = row_fixtures::words_of(rt.alloc(), words).expect(rt, "words");
    for word in more {
        let word = String::from_str(rt.alloc(), word).expect(rt, "a word");
        list.push(word).expect(rt, "words");
    }
    list
}

/// A list of these bytes.
pub(crate) fn bytes_of<R: Abort + AllocGlobal>(rt: &R, text: &[u8]) -> Bytes {
    row_fixtures::bytes_of(rt.alloc(), text).expect(rt, "bytes")
}

/// An input of these files. The calls of these numbers fail.
pub(crate) fn files_of<R: Abort + AllocGlobal>(
    rt: &R,
    files: &[(&str, &[u8])],
    failing: &[u64],
) -> MemInput {
    row_fixtures::files_of(rt.alloc(), files, failing).expect(rt, "files")
}

/// Links of which the first gives these pieces, and then ends. No second one can be opened.
pub(crate) fn links_of<R: Abort + AllocGlobal>(rt: &R, pieces: &[&[u8]]) -> ScriptLinks {
    row_fixtures::links_of(rt.alloc(), pieces, &[]).expect(rt, "links")
}

/// Links of which the first gives these pieces, and then is quiet. No second one can be opened.
pub(crate) fn quiet_links_of<R: Abort + AllocGlobal>(rt: &R, pieces: &[&[u8]]) -> ScriptLinks {
    row_fixtures::quiet_links_of(rt.alloc(), pieces, &[]).expect(rt, "links")
}
