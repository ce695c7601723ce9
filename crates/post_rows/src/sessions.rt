// Sessions of a file of three parts.
use crate::fixtures::{Planned, planned_of};
use io_memory::ScriptLinks;
use io_traits::{Input, LinkEvent};
use lists::List;
use nntp_lines::Why;
use poster::{PartEnd, PostError, Sent, run_post};
use row_fixtures::{are_kinds, bytes_sent, files_of, links_of, taking_links_of};
use std::process::Abort;

const POSTED: PartEnd = PartEnd::Posted;

const UNSENT: PartEnd = PartEnd::NotSent;

// What links are given on which all three parts are taken.
const ALL_TAKEN: [&[u8]; 7] = [
    b"200 hi\r\n",
    b"340 go\r\n",
    b"240 ok\r\n",
    b"340 go\r\n",
    b"240 ok\r\n",
    b"340 go\r\n",
    b"240 ok\r\n",
];

// What a post answered, but for the list of outcomes.
#[derive(Clone, Copy, Debug, PartialEq, Eq)]
enum Outcome {
    Sent,
    Refused(u16),
    Over(Why),
    Memory,
    Input,
    Short(u64),
    NoLink,
}

// A post, and the links that it was handed.
#[derive(Drop)]
struct Posted {
    answered: Result<List<Sent>, PostError>,
    links: ScriptLinks,
}

// Posts over links of which the first gives these pieces, and then ends. The calls of these numbers on the links and on the
// input fail.
fn posts<R: Abort + AllocGlobal>(
    rt: &R,
    pieces: &[&[u8]],
    failing: &[u64],
    failing_reads: &[u64],
) -> Posted {
    let links = links_of(rt.alloc(), pieces, failing).expect(rt, "links");
    post(rt, links, failing_reads)
}

// Asserts that a post answered so, with these outcomes, and gives the links back.
fn came_to<R: Abort>(rt: &R, posted: Posted, ends: &[PartEnd], wanted: Outcome) -> ScriptLinks {
    let Posted { answered, links } = posted;
    assert!(rt; told(answered, ends) == Some(wanted), "{wanted:?}");
    links
}

// The same, where the links don't matter.
fn came<R: Abort>(rt: &R, posted: Posted, ends: &[PartEnd], wanted: Outcome) {
    let _links = came_to(rt, posted, ends, wanted);
}

// Asserts that these are the kinds of all events, by their first letters: opened, sent, heard, quiet and ended.
fn happened<R: Abort>(rt: &R, links: ScriptLinks, kinds: &[u8]) {
    assert!(rt; are_kinds(links.events(), kinds));
}

// The same, where `QUIT` is the last of them.
fn happened_and_quit<R: Abort>(rt: &R, links: ScriptLinks, kinds: &[u8]) {
    assert!(rt; ends_with(&links, b"QUIT\r\n"));
    happened(rt, links, kinds);
}

// Asserts that the third part has an article that is shorter than the first one's.
fn third_is_shorter<R: Abort>(rt: &R, posted: Posted) -> Posted {
    let shorter = match &posted.answered {
        Ok(sent) => match sent.as_slice() {
            [first, _, third] => third.bytes > 0 && third.bytes < first.bytes,
            _ => false,
        },
        Err(_) => false,
    };
    assert!(rt; shorter);
    posted
}

// Posts a file of 20 bytes in parts of nine. The calls on the input of these numbers fail; the first opens the file, and each
// part is read by one.
fn post<R: Abort + AllocGlobal>(rt: &R, mut links: ScriptLinks, failing: &[u64]) -> Posted {
    let alloc = rt.alloc();
    let mut input = files_of(alloc, &[("d", b"12345678912345678912")], failing).expect(
        rt, "a file",
    );
    let size = input.open("d").expect(rt, "a file");
    let Planned { settings, plan } = planned_of(rt, b"misc.test", 9, size);
    let answered = run_post(alloc, &settings, &plan, &mut input, &mut links);
    Posted { answered, links }
}

// What was answered, where a list that was answered has these outcomes.
fn told(answered: Result<List<Sent>, PostError>, ends: &[PartEnd]) -> Option<Outcome> {
    match answered {
        Ok(sent) => {
            if ends_are(&sent, ends) {
                Some(Outcome::Sent)
            } else {
                None
            }
        }
        Err(PostError::Refused(code, sent)) => {
            if ends_are(&sent, ends) {
                Some(Outcome::Refused(code))
            } else {
                None
            }
        }
        Err(PostError::Over(why)) => Some(Outcome::Over(why)),
        Err(PostError::Memory) => Some(Outcome::Memory),
        Err(PostError::Input) => Some(Outcome::Input),
        Err(PostError::Short(at)) => Some(Outcome::Short(at)),
        Err(PostError::NoLink) => Some(Outcome::NoLink),
    }
}

fn ends_are(sent: &List<Sent>, ends: &[PartEnd]) -> bool {
    let sent = sent.as_slice();
    if sent.len() != ends.len() {
        return false;
    }
    for i in 0..sent.len() {
        if sent[i].end != ends[i] {
            return false;
        }
    }
    true
}

// Whether the last bytes that went out are these.
fn ends_with(links: &ScriptLinks, text: &[u8]) -> bool {
    match links.events().last() {
        Some(LinkEvent::Sent { bytes, .. }) => bytes.as_slice() == text,
        _ => false,
    }
}

#[test]
fn all_parts_are_posted(rt: HostRuntime) {
    let posted = posts(&rt, &ALL_TAKEN, &[], &[]);
    let posted = third_is_shorter(&rt, posted);
    let links = came_to(&rt, posted, &[POSTED, POSTED, POSTED], Outcome::Sent);
    happened_and_quit(&rt, links, b"OHSHSHSHSHSHSHS");
}

#[test]
fn a_refused_article_is_not_posted_again(rt: HostRuntime) {
    let pieces: [&[u8]; 7] = [
        b"200 hi\r\n",
        b"340 go\r\n",
        b"240 ok\r\n",
        b"340 go\r\n",
        b"441 no\r\n",
        b"340 go\r\n",
        b"240 ok\r\n",
    ];
    let posted = posts(&rt, &pieces, &[], &[]);
    let links = came_to(
        &rt,
        posted,
        &[POSTED, PartEnd::Refused(441), POSTED],
        Outcome::Sent,
    );
    happened(&rt, links, b"OHSHSHSHSHSHSHS");
}

#[test]
fn a_lost_answer_leaves_a_part_unsure(rt: HostRuntime) {
    let posted = posts(&rt, &[b"200 hi\r\n", b"340 go\r\n"], &[], &[]);
    let links = came_to(
        &rt,
        posted,
        &[PartEnd::Unsure, UNSENT, UNSENT],
        Outcome::Sent,
    );
    happened(&rt, links, b"OHSHSE");
    let pieces: [&[u8]; 4] = [b"200 hi\r\n", b"340 go\r\n", b"240 ok\r\n", b"340 go\r\n"];
    let posted = posts(&rt, &pieces, &[], &[]);
    came(
        &rt,
        posted,
        &[POSTED, PartEnd::Unsure, UNSENT],
        Outcome::Sent,
    );
}

#[test]
fn an_article_that_is_cut_off_is_told(rt: HostRuntime) {
    // The fifth call sends the first article, of which no byte goes out.
    let posted = posts(&rt, &[b"200 hi\r\n", b"340 go\r\n"], &[5], &[]);
    came(&rt, posted, &[], Outcome::Over(Why::Ended));
    let pieces: [&[u8]; 4] = [b"200 hi\r\n", b"340 go\r\n", b"240 ok\r\n", b"340 go\r\n"];
    let posted = posts(&rt, &pieces, &[9], &[]);
    came(&rt, posted, &[POSTED, UNSENT, UNSENT], Outcome::Sent);
}

#[test]
fn a_refused_post_ends_the_session(rt: HostRuntime) {
    let posted = posts(&rt, &[b"200 hi\r\n", b"440 no\r\n"], &[], &[]);
    let links = came_to(
        &rt,
        posted,
        &[UNSENT, UNSENT, UNSENT],
        Outcome::Refused(440),
    );
    happened_and_quit(&rt, links, b"OHSHS");
    let pieces: [&[u8]; 4] = [b"200 hi\r\n", b"340 go\r\n", b"240 ok\r\n", b"440 no\r\n"];
    let posted = posts(&rt, &pieces, &[], &[]);
    came(
        &rt,
        posted,
        &[POSTED, UNSENT, UNSENT],
        Outcome::Refused(440),
    );
}

#[test]
fn bytes_behind_an_answer_end_the_session(rt: HostRuntime) {
    let pieces: [&[u8]; 3] = [b"200 hi\r\n", b"340 go\r\n", b"240 ok\r\n3"];
    let posted = posts(&rt, &pieces, &[], &[]);
    let links = came_to(&rt, posted, &[POSTED, UNSENT, UNSENT], Outcome::Sent);
    happened(&rt, links, b"OHSHSH");
    let posted = posts(&rt, &[b"200 hi\r\n", b"340 go\r\n3"], &[], &[]);
    came(&rt, posted, &[], Outcome::Over(Why::Unasked));
}

#[test]
fn nothing_is_said_where_no_link_serves(rt: HostRuntime) {
    let posted = posts(&rt, &[b"502 no\r\n"], &[], &[]);
    let links = came_to(&rt, posted, &[], Outcome::Over(Why::Greeting(502)));
    happened(&rt, links, b"OH");
    let posted = posts(&rt, &[], &[1], &[]);
    let links = came_to(&rt, posted, &[], Outcome::NoLink);
    happened(&rt, links, b"");
}

#[test]
fn a_part_that_is_not_read_ends_the_session(rt: HostRuntime) {
    let pieces: [&[u8]; 3] = [b"200 hi\r\n", b"340 go\r\n", b"240 ok\r\n"];
    let posted = posts(&rt, &pieces, &[], &[2]);
    let links = came_to(&rt, posted, &[], Outcome::Input);
    happened(&rt, links, b"");
    let posted = posts(&rt, &pieces, &[], &[3]);
    let links = came_to(&rt, posted, &[], Outcome::Input);
    happened_and_quit(&rt, links, b"OHSHSHS");
}

// A post over links of which the sends take at most these numbers of bytes each.
fn posts_in_parts<R: Abort + AllocGlobal>(rt: &R, failing: &[u64], takes: &[usize]) -> Posted {
    let links = taking_links_of(rt.alloc(), &ALL_TAKEN, failing, takes).expect(rt, "links");
    post(rt, links, &[])
}

// Asserts that the same bytes went out on both, on the second by more sends.
fn same_in_more_sends<R: Abort + AllocGlobal>(rt: &R, whole: ScriptLinks, short: ScriptLinks) {
    let wanted = bytes_sent(rt.alloc(), whole.events()).expect(rt, "bytes");
    let sent = bytes_sent(rt.alloc(), short.events()).expect(rt, "bytes");
    assert!(rt; sent.as_slice() == wanted.as_slice());
    assert!(rt; short.events().len() > whole.events().len());
}

#[test]
fn articles_go_out_in_short_sends_as_in_whole_ones(rt: HostRuntime) {
    let all = [POSTED, POSTED, POSTED];
    let whole = came_to(&rt, posts_in_parts(&rt, &[], &[]), &all, Outcome::Sent);
    let short = came_to(&rt, posts_in_parts(&rt, &[], &[7; 50]), &all, Outcome::Sent);
    same_in_more_sends(&rt, whole, short);
}

#[test]
fn an_article_of_which_a_part_went_out_is_unsure(rt: HostRuntime) {
    // The sixth call is to send what the fifth left of the first article.
    let posted = posts_in_parts(&rt, &[6], &[10, 10]);
    let links = came_to(
        &rt,
        posted,
        &[PartEnd::Unsure, UNSENT, UNSENT],
        Outcome::Sent,
    );
    happened(&rt, links, b"OHSHSE");
}
