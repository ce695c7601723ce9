// How bodies come where links end or fall quiet inside them, and in pieces.
use crate::fixtures::{FIRST, ONE, TWO, cut, posted, say_by_turns, says};
use news_spool::SpoolLink;

// After how many bytes each link ends or falls quiet, from link 1 on: in the greeting of 11 bytes and behind it, in the status
// line of 13 and behind it, in the body of 31, behind its last line, in the 3 bytes that end it, and behind all.
const PLACES: [u64; 12] = [0, 1, 11, 12, 23, 24, 31, 32, 55, 56, 57, 58];

#[test]
fn a_link_ends_inside_a_body(rt: HostRuntime) {
    let mut links = [SpoolLink {
        link: 0,
        ends_after: None,
        quiet_after: None,
    }; 12];
    for i in 0..PLACES.len() {
        links[i] = SpoolLink {
            link: i as u32 + 1,
            ends_after: Some(PLACES[i]),
            quiet_after: None,
        };
    }
    let mut spool = posted(&rt, &links, &[]);
    for place in PLACES {
        spool = cut(&rt, spool, b"BODY <a@x>\r\n", FIRST, place, true);
    }
    // The link behind them goes on.
    let _spool = says(&rt, spool, ONE, b"BODY <a@x>\r\n", FIRST, false);
}

#[test]
fn a_link_falls_quiet_inside_a_body(rt: HostRuntime) {
    let mut links = [SpoolLink {
        link: 0,
        ends_after: None,
        quiet_after: None,
    }; 12];
    for i in 0..PLACES.len() {
        links[i] = SpoolLink {
            link: i as u32 + 1,
            ends_after: Some(1_000),
            quiet_after: Some(PLACES[i]),
        };
    }
    let mut spool = posted(&rt, &links, &[]);
    for place in PLACES {
        spool = cut(&rt, spool, b"BODY <a@x>\r\n", FIRST, place, false);
    }
}

#[test]
fn pieces_give_the_same(rt: HostRuntime) {
    let rows: [&[u32]; 5] = [
        &[1],
        &[2, 1],
        &[7, 64, 1, 3, 12, 2],
        &[31, 5, 17, 9, 1, 1, 44, 2, 23, 8, 60, 13, 3],
        &[1_000],
    ];
    for pieces in rows {
        let spool = posted(&rt, &[], pieces);
        let spool = says(&rt, spool, ONE, b"BODY <a@x>\r\n", FIRST, false);
        let _spool = says(
            &rt,
            spool,
            TWO,
            b"STAT <a@x>\r\nSTAT <b@x>\r\n",
            b"430 none\r\n223 0 <b@x>\r\n",
            false,
        );
    }
}

#[test]
fn two_links_are_answered_by_turns(rt: HostRuntime) {
    // What is sent to the one and the other, and what they say.
    let rows: [(&[u8], &[u8], &[u8], &[u8]); 3] = [
        (b"BODY <a@x>\r\n", FIRST, b"BODY <a@x>\r\n", b"430 none\r\n"),
        (
            b"STAT <b@x>\r\nBODY <d@x>\r\n",
            b"430 none\r\n222 0 <d@x>\r\nd\r\n.\r\n",
            b"STAT <b@x>\r\nBODY <d@x>\r\n",
            b"223 0 <b@x>\r\n430 none\r\n",
        ),
        (
            b"BODY <c@x>\r\n",
            b"222 0 <c@x>\r\n.\r\n",
            b"BODY <c@x>\r\n",
            b"222 0 <c@x>\r\n.\r\n",
        ),
    ];
    let mut spool = posted(&rt, &[], &[5, 3, 11]);
    for (text, wanted, other_text, other_wanted) in rows {
        spool = say_by_turns(&rt, spool, (text, wanted), (other_text, other_wanted));
    }
}
