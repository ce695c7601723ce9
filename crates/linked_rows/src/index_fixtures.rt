// What the tests of `index` hand in, and what they await.
use crate::fixtures::{Talk, files_of, run_linked, words_of};
use crate::post_fixtures::SERVER;
use io_traits::Links;
use lists::{Bytes, Memory};
use news_spool::Spool;
use std::alloc::Global;
use std::process::Abort;

/// The newsgroup that is indexed.
pub(crate) const GROUP: &str = "alt.binaries.test";

/// What an NZB begins with.
pub(crate) const NZB_HEAD: &[u8] = b"<?xml version=\"1.0\" encoding=\"UTF-8\"?>\n\
<!DOCTYPE nzb PUBLIC \"-//newzBin//DTD NZB 1.1//EN\" \"http://www.newzbin.com/DTD/nzb/nzb-1.1.dtd\">\n\
<nzb xmlns=\"http://www.newzbin.com/DTD/2003/nzb\">\n";

/// The words that index these numbers of a newsgroup, and these behind them.
pub(crate) fn index_words<R: Abort + AllocGlobal>(
    rt: &R,
    group: &str,
    first: &str,
    last: &str,
    more: &[&str],
) -> Vec<String> {
    let required = [
        "index", "--server", SERVER, "--group", group, "--first", first, "--last", last,
    ];
    words_of(rt, &required, more)
}

/// Indexes these numbers of a newsgroup. The login file `l`, which the words behind may name, has this text.
pub(crate) fn index_with<L: Links, R: Abort + AllocGlobal>(
    rt: &R,
    first: &str,
    last: &str,
    more: &[&str],
    login: &[u8],
    links: L,
) -> Talk<L> {
    let words = index_words(rt, GROUP, first, last, more);
    let input = files_of(rt, &[("l", login)], &[]);
    run_linked(rt, &words, input, links, &[], &[])
}

/// Indexes these numbers of a newsgroup, without a login.
pub(crate) fn index<L: Links, R: Abort + AllocGlobal>(
    rt: &R,
    first: &str,
    last: &str,
    links: L,
) -> Talk<L> {
    index_with(rt, first, last, &[], b"", links)
}

/// Asserts that an index of these elements was written, and this was told.
pub(crate) fn indexed<L: Drop, R: Abort>(rt: &R, talk: Talk<L>, elements: &[u8], told: &str) {
    let _links = indexed_with(rt, talk, elements, told);
}

/// The same, and gives the links back.
pub(crate) fn indexed_with<L: Drop, R: Abort>(
    rt: &R,
    talk: Talk<L>,
    elements: &[u8],
    told: &str,
) -> L {
    let Talk { ran, links } = talk;
    assert!(rt;
        ran.status == 0 && ran.err.bytes() == told.as_bytes(),
        "{told}"
    );
    assert!(rt; is_nzb(ran.out.bytes(), elements), "{told}");
    links
}

fn is_nzb(text: &[u8], elements: &[u8]) -> bool {
    match text.strip_prefix(NZB_HEAD) {
        Some(rest) => rest.strip_suffix(b"</nzb>\n") == Some(elements),
        None => false,
    }
}

/// Posts an article of the newsgroup, without a line of its body, to a server in memory, behind these lines of a login.
pub(crate) fn with_article<R: Abort + AllocGlobal>(
    rt: &R,
    mut spool: Spool,
    login: &[u8],
    subject: &[u8],
    id: &[u8],
) -> Spool {
    let added = add(rt.alloc(), login, subject, id, &mut spool).expect(rt, "an article");
    assert!(rt; added);
    spool
}

// Whether the whole text went out.
fn add(
    alloc: Global,
    login: &[u8],
    subject: &[u8],
    id: &[u8],
    spool: &mut Spool,
) -> Result<bool, Memory> {
    let text = article_text(alloc, login, subject, id)?;
    let text = text.as_slice();
    if text.is_empty() {
        return Ok(false);
    }
    match spool.open(SERVER.as_bytes()) {
        Ok(link) => Ok(spool.send(link, text) == Ok(text.len())),
        Err(_) => Ok(false),
    }
}

// What is sent to post an article without a line of its body.
fn article_text(alloc: Global, login: &[u8], subject: &[u8], id: &[u8]) -> Result<Bytes, Memory> {
    let pieces: [&[u8]; 6] = [
        login,
        b"POST\r\nFrom: a\r\nNewsgroups: alt.binaries.test\r\nSubject: ",
        subject,
        b"\r\nMessage-ID: <",
        id,
        b">\r\n\r\n.\r\n",
    ];
    let mut text = Bytes::new(alloc);
    for piece in pieces {
        text.extend(piece)?;
    }
    Ok(text)
}
