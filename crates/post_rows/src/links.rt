// How much a receive gives, and when a link ends or falls quiet.
use crate::spool_fixtures::{ends, gets, open, send, spool_of, talks};
use io_traits::Links;
use news_spool::{Spool, SpoolLink};
use row_fixtures::are_events;
use std::process::Abort;

// Asserts that no link to this address is opened.
fn opens_none<R: Abort>(rt: &R, mut spool: Spool, address: &[u8]) -> Spool {
    assert!(rt; spool.open(address).is_err());
    spool
}

#[test]
fn an_address_that_is_not_listed_is_not_opened(rt: HostRuntime) {
    let spool = opens_none(&rt, spool_of(&rt, &[], &[]), b"none:119");
    let _talk = talks(&rt, open(&rt, spool, b"login:119", 0), "|200 ready\r\n");
}

#[test]
fn the_session_ends_behind_its_last_reply(rt: HostRuntime) {
    let talk = open(&rt, spool_of(&rt, &[], &[]), b"login:119", 0);
    let talk = send(&rt, talk, b"QUIT\r\n");
    let _spool = ends(&rt, talk, b"200 ready\r\n205 bye\r\n");
}

#[test]
fn pieces_bound_all_receives_in_turn(rt: HostRuntime) {
    let talk = open(&rt, spool_of(&rt, &[], &[1, 0, 3]), b"open:119", 0);
    let talk = gets(&rt, talk, 19, b"2");
    let talk = gets(&rt, talk, 19, b"");
    let talk = gets(&rt, talk, 19, b"00 ");
    let talk = gets(&rt, talk, 19, b"r");
    let talk = gets(&rt, talk, 19, b"");
    let _talk = gets(&rt, talk, 19, b"ead");
}

#[test]
fn pieces_are_shared_by_links(rt: HostRuntime) {
    let first = open(&rt, spool_of(&rt, &[], &[1, 2]), b"open:119", 0);
    let first = gets(&rt, first, 19, b"2");
    let second = open(&rt, first.left(), b"open:119", 1);
    let _second = gets(&rt, second, 19, b"20");
}

#[test]
fn a_link_ends_after_so_many_bytes(rt: HostRuntime) {
    let plan = [
        SpoolLink {
            link: 1,
            ends_after: Some(4),
            quiet_after: Some(9),
        },
        SpoolLink {
            link: 1,
            ends_after: Some(1),
            quiet_after: None,
        },
    ];
    let other = open(&rt, spool_of(&rt, &plan, &[]), b"open:119", 0);
    let other = talks(&rt, other, "|200 ready\r\n");
    let link = open(&rt, other.left(), b"open:119", 1);
    let _spool = ends(&rt, link, b"200 ");
}

#[test]
fn a_link_is_quiet_after_so_many_bytes(rt: HostRuntime) {
    let plan = [SpoolLink {
        link: 0,
        ends_after: None,
        quiet_after: Some(5),
    }];
    let talk = open(&rt, spool_of(&rt, &plan, &[]), b"open:119", 0);
    let talk = talks(&rt, talk, "QUIT\r\n|200 r");
    let _talk = talks(&rt, talk, "|");
}

#[test]
fn a_spool_tells_what_happened(rt: HostRuntime) {
    let talk = open(&rt, spool_of(&rt, &[], &[]), b"open:119", 0);
    let talk = talks(&rt, talk, "POST\r\n|200 ready\r\n340 send\r\n");
    let wanted: [(u8, &[u8]); 4] = [
        (b'O', b"open:119"),
        (b'S', b"POST\r\n"),
        (b'H', b"200 ready\r\n340 send\r\n"),
        (b'Q', b""),
    ];
    happened(&rt, talk.left(), &wanted);
}

// Asserts that this is all that happened on the links of a spool.
fn happened<R: Abort>(rt: &R, spool: Spool, wanted: &[(u8, &[u8])]) {
    assert!(rt; are_events(spool.events(), wanted));
}
