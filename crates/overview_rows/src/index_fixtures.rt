// Indexings of a newsgroup over links in memory, and what is asserted of them.
use crate::file_fixtures::{FileSaid, has_files};
use io_memory::{ScriptLinks, Turn};
use io_traits::LinkEvent;
use lists::{Bytes, List, Memory};
use nntp_lines::GroupName;
use overview_index::{IndexError, Indexed, run_index};
use std::alloc::Global;
use std::process::Abort;

fn script_of(alloc: Global, quiet: u32, pieces: &[&[u8]]) -> Result<List<Turn>, Memory> {
    let mut script = List::new(alloc);
    for _ in 0..quiet {
        script.push(Turn::Quiet)?;
    }
    for piece in pieces {
        let mut bytes = Bytes::new(alloc);
        bytes.extend(piece)?;
        script.push(Turn::Give(bytes))?;
    }
    script.push(Turn::End)?;
    Ok(script)
}

/// Links of which the first gives these pieces after so many quiet receives, and then ends. The call of this number fails, if
/// it isn't 0.
pub(crate) fn links_of(
    alloc: Global,
    quiet: u32,
    pieces: &[&[u8]],
    failing: u64,
) -> Result<ScriptLinks, Memory> {
    let mut scripts = List::new(alloc);
    scripts.push(script_of(alloc, quiet, pieces)?)?;
    let mut chosen = List::new(alloc);
    chosen.push(failing)?;
    ScriptLinks::new(alloc, scripts, chosen)
}

/// What an index comes to: how many files it has, how many lines were skipped, and some of the files.
pub(crate) type Outcome<'a> = Result<(usize, u64, &'a [FileSaid<'a>]), IndexError>;

/// The pieces that a link gives before it ends, the numbers that are asked for, what the index comes to, and all bytes that go
/// out.
pub(crate) type Session<'a> = (&'a [&'a [u8]], (u64, u64), Outcome<'a>, &'a [u8]);

fn came(answered: &Result<Indexed, IndexError>, wanted: &Outcome<'_>) -> bool {
    match answered {
        Ok(indexed) => match wanted {
            Ok((count, skipped, files)) => {
                indexed.skipped == *skipped && has_files(&indexed.index, *count, files)
            }
            Err(_) => false,
        },
        Err(why) => match wanted {
            Ok(_) => false,
            Err(cause) => *why == *cause,
        },
    }
}

fn bytes_sent(alloc: Global, links: &ScriptLinks) -> Result<Bytes, Memory> {
    let mut sent = Bytes::new(alloc);
    for event in links.events() {
        match event {
            LinkEvent::Sent { bytes, .. } => sent.extend(bytes.as_slice())?,
            _ => {}
        }
    }
    Ok(sent)
}

/// Asserts what an index of the newsgroup `a.b` comes to over these links, and which bytes go out. It bears fewer quiet
/// receives after each other than `patience`.
pub(crate) fn comes<R: Abort + AllocGlobal>(
    rt: &R,
    mut links: ScriptLinks,
    patience: u32,
    range: (u64, u64),
    wanted: &Outcome<'_>,
    bytes: &[u8],
) {
    let (first, last) = range;
    assert!(rt; 1 <= first && first <= last && last <= 99_999 && patience > 0);
    let group = GroupName::new(b"a.b").expect(rt, "a name");
    let answered = run_index(
        rt.alloc(),
        &mut links,
        b"host:119",
        &group,
        first,
        last,
        patience,
        None,
    );
    assert!(rt; came(&answered, wanted));
    let sent = bytes_sent(rt.alloc(), &links).expect(rt, "bytes");
    assert_eq!(rt; sent.as_slice(), bytes);
}

/// Asserts what comes of sessions over links that don't fail.
pub(crate) fn come<R: Abort + AllocGlobal>(rt: &R, sessions: &[Session<'_>]) {
    for (pieces, range, wanted, bytes) in sessions {
        let links = links_of(rt.alloc(), 0, pieces, 0).expect(rt, "links");
        comes(rt, links, 2, *range, wanted, bytes);
    }
}
