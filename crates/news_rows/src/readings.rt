// A newsgroup chosen and its overview heard.
use crate::dialog_fixtures::links_of;
use io_memory::ScriptLinks;
use link_dialog::{Answer, Awaited, Dialog, GroupAnswer};
use lists::Bytes;
use nntp_lines::{GroupReply, Why};
use row_fixtures::bytes_of;
use std::process::Abort;

// Opens a link, says `OVER` and hears the reply, in receives of so many bytes, behind a block that is there. Answers what was
// heard, where the link was opened and had room.
fn over(links: &mut ScriptLinks, room: usize, block: &mut Bytes) -> Option<Answer> {
    let dialog = match Dialog::open(links, b"host:119", None, 2) {
        Ok(dialog) => dialog,
        Err(_) => return None,
    };
    match dialog.say(links, b"OVER 1-9\r\n") {
        Ok(()) => {}
        Err(_) => return None,
    }
    let mut buf = [0; 64];
    let heard = dialog.hear_block(links, Awaited::Over, &mut buf[..room.min(63) + 1], block);
    if heard.kept { Some(heard.answer) } else { None }
}

// Asserts what comes of these pieces, with bars between them, and that this block of a reply to `OVER` is kept, where an old one
// was.
fn hears<R: Abort + AllocGlobal>(rt: &R, pieces: &str, room: usize, wanted: Answer, kept: &str) {
    let mut links = links_of(rt, pieces, 0, &[]);
    let mut block = bytes_of(rt.alloc(), b"old").expect(rt, "a block");
    let heard = over(&mut links, room, &mut block);
    assert!(rt; heard == Some(wanted), "{wanted:?}");
    assert!(rt; block.as_slice() == kept.as_bytes(), "{wanted:?}");
}

// Opens a link, says `GROUP` and hears the reply.
fn choose(mut links: ScriptLinks) -> Option<GroupAnswer> {
    let dialog = match Dialog::open(&mut links, b"host:119", None, 2) {
        Ok(dialog) => dialog,
        Err(_) => return None,
    };
    match dialog.say(&mut links, b"GROUP a.b\r\n") {
        Ok(()) => {}
        Err(_) => return None,
    }
    Some(dialog.hear_group(&mut links))
}

#[test]
fn a_block_is_heard_in_receives_of_any_length(rt: HostRuntime) {
    for room in 0..40u8 {
        let pieces = "200 hi\r\n|224 follows\r\n1\ta\r\n..2\r\n.\r\n";
        let kept = "1\ta\r\n..2\r\n.\r\n";
        hears(&rt, pieces, room as usize, Answer::Code(224), kept);
    }
}

// Greetings and replies to `OVER`, what comes of them, and the block that is kept.
const BLOCKS: [(&str, Answer, &str); 7] = [
    ("200 hi\r\n|224 x\r\n.\r\n", Answer::Code(224), ".\r\n"),
    ("200 hi\r\n|423 none\r\n", Answer::Code(423), ""),
    ("200 hi\r\n|423 none\r\n.", Answer::Unasked(423), ""),
    (
        "200 hi\r\n|224 x\r\na\r\n.\r\n\r\n",
        Answer::Unasked(224),
        "a\r\n.\r\n",
    ),
    (
        "200 hi\r\n|224 x\r\na\r\n.x\r\n",
        Answer::Over(Why::Quiet),
        "a\r\n.x\r\n",
    ),
    ("200 hi\r\n|211 x\r\n", Answer::Over(Why::Odd(211)), ""),
    ("200 hi\r\n|22\r\n", Answer::Over(Why::NoReply), ""),
];

#[test]
fn replies_to_over_end_where_they_end(rt: HostRuntime) {
    for (pieces, wanted, kept) in BLOCKS {
        hears(&rt, pieces, 63, wanted, kept);
    }
}

const GROUP: GroupReply = GroupReply {
    count: 3,
    low: 7,
    high: 9,
};

// Greetings and replies to `GROUP`, and what comes of them.
const GROUPS: [(&str, GroupAnswer); 7] = [
    ("200 hi\r\n|211 3 7 9 a.b\r\n", GroupAnswer::Chosen(GROUP)),
    (
        "200 hi\r\n|211 3 7 a.b\r\n",
        GroupAnswer::Over(Why::NoReply),
    ),
    ("200 hi\r\n|411 none\r\n", GroupAnswer::Code(411)),
    ("200 hi\r\n|500 what\r\n", GroupAnswer::Code(500)),
    ("200 hi\r\n|340 no\r\n", GroupAnswer::Over(Why::Odd(340))),
    (
        "200 hi\r\n|211 3 7 9 a.b\r\nx",
        GroupAnswer::ChosenUnasked(GROUP),
    ),
    ("200 hi\r\n|411 none\r\nx", GroupAnswer::Unasked(411)),
];

#[test]
fn a_newsgroup_is_chosen_with_its_numbers(rt: HostRuntime) {
    for (pieces, wanted) in GROUPS {
        let links = links_of(&rt, pieces, 0, &[]);
        assert!(rt; choose(links) == Some(wanted), "{wanted:?}");
    }
}
