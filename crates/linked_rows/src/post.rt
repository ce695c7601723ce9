// The command `post`, on the top call over objects in memory.
use crate::fixtures::{done, ended, ended_with, happened, holding, holds, links_of};
use crate::post_fixtures::{
    D_BLOCK, D_INDEX, ONCE, REFUSED, SPOOL_TAKES, TAKEN, THRICE, post, session, spool_of,
};
use lists::{Bytes, Memory};
use std::alloc::Global;
use std::process::Abort;

// The index of `t` in parts of nine bytes, whose articles have so many octets.
fn index_of_parts<R: Abort + AllocGlobal>(rt: &R, octets: [&[u8]; 3]) -> Bytes {
    text_of_parts(rt.alloc(), octets).expect(rt, "a text")
}

fn text_of_parts(alloc: Global, octets: [&[u8]; 3]) -> Result<Bytes, Memory> {
    let mut text = Bytes::new(alloc);
    text.extend(
        b"<?xml version=\"1.0\" encoding=\"UTF-8\"?>\n\
<!DOCTYPE nzb PUBLIC \"-//newzBin//DTD NZB 1.1//EN\" \"http://www.newzbin.com/DTD/nzb/nzb-1.1.dtd\">\n\
<nzb xmlns=\"http://www.newzbin.com/DTD/2003/nzb\">\n\
<file poster=\"me@example.org\" date=\"1000000000\" subject=\"&quot;t&quot; yEnc (1/3)\">\n\
<groups>\n<group>alt.binaries.test</group>\n</groups>\n<segments>\n",
    )?;
    let [first, second, third] = octets;
    push_segment(&mut text, first, b"1")?;
    push_segment(&mut text, second, b"2")?;
    push_segment(&mut text, third, b"3")?;
    text.extend(b"</segments>\n</file>\n</nzb>\n")?;
    Ok(text)
}

fn push_segment(text: &mut Bytes, octets: &[u8], number: &[u8]) -> Result<(), Memory> {
    let pieces: [&[u8]; 7] = [
        b"<segment bytes=\"",
        octets,
        b"\" number=\"",
        number,
        b"\">tok.",
        number,
        b"of3@example.org</segment>\n",
    ];
    for piece in pieces {
        text.extend(piece)?;
    }
    Ok(())
}

#[test]
fn posts_a_file_of_one_part(rt: HostRuntime) {
    let spool = spool_of(&rt, None);
    let ran = post(&rt, ONCE, &[], spool);
    let spool = ended_with(&rt, ran, 0, D_INDEX, "");
    let spool = holding(&rt, spool, 1);
    session(&rt, spool, SPOOL_TAKES, D_BLOCK);
}

#[test]
fn an_article_is_taken_once(rt: HostRuntime) {
    let spool = spool_of(&rt, None);
    let first = post(&rt, ONCE, &[], spool);
    let spool = done(&rt, first);
    let again = post(&rt, ONCE, &[], spool);
    let spool = ended_with(&rt, again, 1, D_INDEX, "part 1 refused 441\n");
    holds(&rt, spool, 1);
}

#[test]
fn posts_each_part_once(rt: HostRuntime) {
    let spool = spool_of(&rt, None);
    let ran = post(&rt, THRICE, &["--part-size", "9"], spool);
    let index = index_of_parts(&rt, [b"234", b"236", b"236"]);
    let spool = ended_with(&rt, ran, 0, index.as_slice(), "");
    holds(&rt, spool, 3);
}

#[test]
fn names_a_part_that_is_refused(rt: HostRuntime) {
    let links = links_of(&rt, &REFUSED);
    let ran = post(&rt, ONCE, &[], links);
    let links = ended_with(&rt, ran, 1, D_INDEX, "part 1 refused 441\n");
    session(&rt, links, REFUSED, D_BLOCK);
}

#[test]
fn a_refused_part_stops_no_other(rt: HostRuntime) {
    let pieces: [&[u8]; 7] = [
        b"200 hi\r\n",
        b"340 go\r\n",
        b"240 ok\r\n",
        b"340 go\r\n",
        b"441 no\r\n",
        b"340 go\r\n",
        b"240 ok\r\n",
    ];
    let links = links_of(&rt, &pieces);
    let ran = post(&rt, THRICE, &["--part-size", "9"], links);
    let index = index_of_parts(&rt, [b"234", b"236", b"236"]);
    ended(&rt, ran, 1, index.as_slice(), "part 2 refused 441\n");
}

#[test]
fn names_a_part_that_may_be_posted(rt: HostRuntime) {
    let links = links_of(&rt, &[b"200 hi\r\n", b"340 go\r\n"]);
    let ran = post(&rt, THRICE, &["--part-size", "9"], links);
    let index = index_of_parts(&rt, [b"234", b"0", b"0"]);
    let lines = "part 1 unsure\npart 2 notsent\npart 3 notsent\n";
    ended(&rt, ran, 1, index.as_slice(), lines);
}

#[test]
fn names_all_parts_where_none_is_taken(rt: HostRuntime) {
    let links = links_of(&rt, &[b"200 hi\r\n", b"440 no\r\n"]);
    let ran = post(&rt, THRICE, &["--part-size", "9"], links);
    let lines = "part 1 notsent\npart 2 notsent\npart 3 notsent\nusebin: refused 440\n";
    let links = ended_with(&rt, ran, 8, b"", lines);
    happened(
        &rt,
        links,
        &[
            (b'O', b"127.0.0.1:1190"),
            (b'H', b"200 hi\r\n"),
            (b'S', b"POST\r\n"),
            (b'H', b"440 no\r\n"),
            (b'S', b"QUIT\r\n"),
        ],
    );
}

#[test]
fn names_no_posted_part_where_a_later_one_is_not_asked_for(rt: HostRuntime) {
    let pieces: [&[u8]; 4] = [b"200 hi\r\n", b"340 go\r\n", b"240 ok\r\n", b"440 no\r\n"];
    let links = links_of(&rt, &pieces);
    let ran = post(&rt, THRICE, &["--part-size", "9"], links);
    let lines = "part 2 notsent\npart 3 notsent\nusebin: refused 440\n";
    ended(&rt, ran, 8, b"", lines);
}

#[test]
fn bytes_behind_an_answer_stop_the_run(rt: HostRuntime) {
    let pieces: [&[u8]; 3] = [b"200 hi\r\n", b"340 go\r\n", b"240 ok\r\nx"];
    let links = links_of(&rt, &pieces);
    let ran = post(&rt, ONCE, &[], links);
    let links = ended_with(&rt, ran, 0, D_INDEX, "");
    happened(
        &rt,
        links,
        &[
            (b'O', b"127.0.0.1:1190"),
            (b'H', b"200 hi\r\n"),
            (b'S', b"POST\r\n"),
            (b'H', b"340 go\r\n"),
            (b'S', D_BLOCK),
            (b'H', b"240 ok\r\nx"),
        ],
    );
}

#[test]
fn bytes_behind_an_answer_leave_the_other_parts(rt: HostRuntime) {
    let pieces: [&[u8]; 3] = [b"200 hi\r\n", b"340 go\r\n", b"240 ok\r\nx"];
    let links = links_of(&rt, &pieces);
    let ran = post(&rt, THRICE, &["--part-size", "9"], links);
    let index = index_of_parts(&rt, [b"234", b"0", b"0"]);
    ended(
        &rt,
        ran,
        1,
        index.as_slice(),
        "part 2 notsent\npart 3 notsent\n",
    );
}

#[test]
fn a_line_of_one_dot_is_sent_as_two(rt: HostRuntime) {
    let links = links_of(&rt, &TAKEN);
    let ran = post(&rt, ("d", b"\x04"), &[], links);
    let links = done(&rt, ran);
    let block = b"From: me@example.org\r\nNewsgroups: alt.binaries.test\r\n\
Subject: \"d\" yEnc (1/1)\r\nMessage-ID: <tok.1of1@example.org>\r\n\r\n\
=ybegin line=128 size=1 name=d\r\n..\r\n=yend size=1 crc32=d56f2b94\r\n.\r\n";
    session(&rt, links, TAKEN, block);
}

#[test]
fn posts_under_another_name_with_a_comment(rt: HostRuntime) {
    let spool = spool_of(&rt, None);
    let more = ["--comment", "A test", "--name", "my file", "--line", "64"];
    let ran = post(&rt, ("a/d", b"123456789"), &more, spool);
    let spool = done(&rt, ran);
    let block = b"From: me@example.org\r\nNewsgroups: alt.binaries.test\r\n\
Subject: A test \"my file\" yEnc (1/1)\r\nMessage-ID: <tok.1of1@example.org>\r\n\r\n\
=ybegin line=64 size=9 name=my file\r\n[\\]^_`abc\r\n=yend size=9 crc32=cbf43926\r\n.\r\n";
    session(&rt, spool, SPOOL_TAKES, block);
}
