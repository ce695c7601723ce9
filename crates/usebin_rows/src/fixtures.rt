// Runs of the top call without a server, and what is asserted of them.
use io_memory::MemInput;
use io_traits::Input;
use lists::Bytes;
use row_fixtures::{Ran, files_of, sink_failing, words_of};
use std::process::Abort;
use usebin_cli::{NoLinks, NoStore, usebin};

/// Runs the top call.
pub(crate) fn run<I: Input + Drop, R: Abort + AllocGlobal>(
    rt: &R,
    words: &[&str],
    input: I,
) -> Ran {
    run_failing(rt, words, input, &[], &[])
}

/// The same where the writes of these numbers to the output, and to the sink for errors, fail.
pub(crate) fn run_failing<I: Input + Drop, R: Abort + AllocGlobal>(
    rt: &R,
    words: &[&str],
    mut input: I,
    failing: &[u64],
    failing_errors: &[u64],
) -> Ran {
    let alloc = rt.alloc();
    let words = words_of(alloc, words).expect(rt, "words");
    let mut out = sink_failing(alloc, failing).expect(rt, "a sink");
    let mut err = sink_failing(alloc, failing_errors).expect(rt, "a sink");
    let status = usebin(
        alloc,
        &words,
        &mut input,
        &mut NoStore::new(),
        &mut NoLinks::new(),
        &mut out,
        &mut err,
        0,
    );
    Ran { status, out, err }
}

/// Asserts that a run answered this status and wrote these texts.
pub(crate) fn ended<R: Abort>(rt: &R, ran: Ran, status: u8, out: &[u8], err: &str) {
    assert!(rt; ran.ended(status, out, err.as_bytes()), "{err}");
}

/// An input of one file.
pub(crate) fn input_of<R: Abort + AllocGlobal>(rt: &R, name: &str, content: &[u8]) -> MemInput {
    files_of(rt.alloc(), &[(name, content)], &[]).expect(rt, "a file")
}

/// A text that has a line so many times between its front and its back.
pub(crate) fn repeated<R: Abort + AllocGlobal>(
    rt: &R,
    front: &[u8],
    line: &[u8],
    count: u32,
    back: &[u8],
) -> Bytes {
    row_fixtures::repeated(rt.alloc(), front, line, count, back).expect(rt, "a text")
}
