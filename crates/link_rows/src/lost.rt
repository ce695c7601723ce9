// The decoder of an article whose link is over inside it.
use fetch_link::{Connection, What};
use link_dialog::Awaited;
use nntp_lines::Why;
use std::process::Abort;

// Hears bytes where a body is awaited.
fn hear(link: &mut Connection, buffer: &mut [u8]) -> What {
    if buffer.len() == 0 {
        return What::More;
    }
    link.take(Some(Awaited::Body), buffer).what
}

// In an article, behind the line that fixes its range, with the front of its data.
fn in_an_article<R: Abort>(rt: &R) -> Connection {
    let mut link = Connection::new();
    let mut head = *b"222 0\r\n=ybegin line=128 size=9 name=d\r\n";
    assert!(rt; hear(&mut link, &mut head[..7]) == What::More);
    let fixed = hear(&mut link, &mut head[7..]);
    assert!(rt;
        fixed
            == What::Range {
                size: 9,
                first: 1,
                last: 9
            }
    );
    link.go_on(9);
    let mut data = *b"[\\]";
    assert!(rt; hear(&mut link, &mut data) == What::More);
    link
}

#[test]
fn shows_the_decoder_of_an_article_that_was_cut(rt: HostRuntime) {
    let mut link = in_an_article(&rt);
    link.end();
    assert!(rt; link.over() == Some(Why::Ended));
    assert!(rt; link.decoder().is_some_and(|fused| fused.given() == 3));
}

#[test]
fn shows_it_where_the_link_fell_silent(rt: HostRuntime) {
    let mut link = in_an_article(&rt);
    assert!(rt; !link.be_quiet(2));
    link.note_sent();
    assert!(rt; !link.be_quiet(2));
    assert!(rt; link.be_quiet(2));
    assert!(rt; link.over() == Some(Why::Quiet));
    assert!(rt; link.decoder().is_some_and(|fused| fused.given() == 3));
}

#[test]
fn shows_none_before_an_article(rt: HostRuntime) {
    let mut link = Connection::new();
    assert!(rt; link.decoder().is_none());
    let mut status = *b"222";
    assert!(rt; hear(&mut link, &mut status) == What::More);
    link.end();
    assert!(rt; link.decoder().is_none());
}

// Hears the front of a buffer, or all of it. Whether nothing came of it.
fn nothing_comes(link: &mut Connection, buffer: &mut [u8], count: usize) -> bool {
    let count = count.min(buffer.len());
    hear(link, &mut buffer[..count]) == What::More
}

// 7 bytes, 1,023 times 65,536 and 65,529 are the 67,108,864 that a reply may have.
fn hear_the_longest(link: &mut Connection, buffer: &mut [u8]) -> bool {
    let mut status = *b"222 0\r\n";
    let mut nothing = nothing_comes(link, &mut status, 7);
    for _ in 0..1023u32 {
        nothing = nothing_comes(link, buffer, 65_536) && nothing;
    }
    nothing_comes(link, buffer, 65_529) && nothing
}

#[test]
fn counts_the_status_line_of_an_article_that_is_too_long(rt: HostRuntime) {
    let mut link = Connection::new();
    let mut buffer = [b'a'; 65_536];
    assert!(rt; hear_the_longest(&mut link, &mut buffer));
    assert!(rt; link.decoder().is_some());
    let mut one_more = *b"a";
    assert!(rt; hear(&mut link, &mut one_more) == What::Over(Why::TooLong));
    assert!(rt; link.decoder().is_none());
}
