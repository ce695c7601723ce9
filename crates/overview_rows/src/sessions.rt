// Sessions in which all that was asked was heard.
use crate::file_fixtures::FileSaid;
use crate::index_fixtures::{Outcome, Session, come, comes, links_of};

const HELLO: &[u8] = b"200 hi\r\n";

const SEVEN_TO_NINE: &[u8] = b"211 3 7 9 a.b\r\n";

const NO_LINES: &[u8] = b"224 x\r\n.\r\n";

const EMPTY: Outcome<'_> = Ok((0, 0, &[]));

const SESSIONS: [Session<'_>; 13] = [
    // two ranges are asked in turn
    (
        &[
            HELLO,
            b"211 10005 1 10005 a.b\r\n",
            b"224 x\r\n1\tfile (1/2)\tme\tnow\t<a@b>\t\t700\t9\r\n2\tfile (3/2)\tme\tnow\t<c@b>\t\t800\t9\r\n.\r\n",
            b"224 x\r\n10001\tfile (2/2)\tme\tnow\t<b@b>\t\t600\t9\r\n10002\tother (1/1)\tme\tnow\t<d@b>\t\t5\t9\r\n.\r\n",
        ],
        (1, 99_999),
        Ok((
            2,
            0,
            &[FileSaid {
                place: 0,
                poster: b"me",
                date: 0,
                subject: b"file (1/2)",
                count: 3,
                segments: &[(1, 2, 600, b"b@b")],
            }],
        )),
        b"GROUP a.b\r\nOVER 1-10000\r\nOVER 10001-10005\r\nQUIT\r\n",
    ),
    // only numbers of the newsgroup are asked
    (
        &[HELLO, SEVEN_TO_NINE, NO_LINES],
        (1, 20),
        EMPTY,
        b"GROUP a.b\r\nOVER 7-9\r\nQUIT\r\n",
    ),
    (
        &[HELLO, SEVEN_TO_NINE, NO_LINES],
        (8, 20),
        EMPTY,
        b"GROUP a.b\r\nOVER 8-9\r\nQUIT\r\n",
    ),
    (
        &[HELLO, SEVEN_TO_NINE, NO_LINES],
        (1, 7),
        EMPTY,
        b"GROUP a.b\r\nOVER 7-7\r\nQUIT\r\n",
    ),
    (
        &[HELLO, SEVEN_TO_NINE, NO_LINES],
        (8, 8),
        EMPTY,
        b"GROUP a.b\r\nOVER 8-8\r\nQUIT\r\n",
    ),
    // nothing is asked where there is no number
    (
        &[HELLO, b"211 0 1 0 a.b\r\n"],
        (1, 9),
        EMPTY,
        b"GROUP a.b\r\nQUIT\r\n",
    ),
    (
        &[HELLO, b"211 0 0 0 a.b\r\n"],
        (1, 9),
        EMPTY,
        b"GROUP a.b\r\nQUIT\r\n",
    ),
    (
        &[HELLO, SEVEN_TO_NINE],
        (10, 20),
        EMPTY,
        b"GROUP a.b\r\nQUIT\r\n",
    ),
    (
        &[HELLO, SEVEN_TO_NINE],
        (1, 6),
        EMPTY,
        b"GROUP a.b\r\nQUIT\r\n",
    ),
    // a range without articles is passed over
    (
        &[
            HELLO,
            b"211 2 1 20001 a.b\r\n",
            b"423 none\r\n",
            b"224 x\r\n10001\tfile (1/1)\tme\tnow\t<a@b>\t\t7\t9\r\n.\r\n",
            b"423 none\r\n",
        ],
        (1, 99_999),
        Ok((1, 0, &[])),
        b"GROUP a.b\r\nOVER 1-10000\r\nOVER 10001-20000\r\nOVER 20001-20001\r\nQUIT\r\n",
    ),
    // lines that are skipped are counted
    (
        &[
            HELLO,
            b"211 9 1 10001 a.b\r\n",
            b"224 x\r\nno line\r\n1\tfile\tme\tnow\t<a@b>\t\t7\t9\r\n2\tfile (1/1)\tme\tnow\t<c@b>\t\t7\t9\r\n\r\n.\r\n",
            b"224 x\r\n10001\tfile (2/1)\tme\tnow\tnone\t\t7\t9\r\n.\r\n",
        ],
        (1, 10_001),
        Ok((1, 4, &[])),
        b"GROUP a.b\r\nOVER 1-10000\r\nOVER 10001-10001\r\nQUIT\r\n",
    ),
    // bytes behind the last reply do no harm
    (
        &[
            HELLO,
            b"211 1 1 1 a.b\r\n",
            b"224 x\r\n1\tfile (1/1)\tme\tnow\t<a@b>\t\t7\t9\r\n.\r\n2",
        ],
        (1, 9),
        Ok((1, 0, &[])),
        b"GROUP a.b\r\nOVER 1-1\r\n",
    ),
    (
        &[HELLO, b"211 0 1 0 a.b\r\n2"],
        (1, 9),
        EMPTY,
        b"GROUP a.b\r\n",
    ),
];

#[test]
fn all_that_was_asked_is_heard(rt: HostRuntime) {
    come(&rt, &SESSIONS);
}

const REPLY: &[u8] = b"224 x\r\n1\tfile (1/1)\tme\tnow\t<a@b>\t\t7\t9\r\n..\r\n.\r\n";

#[test]
fn replies_may_be_cut_anywhere(rt: HostRuntime) {
    for i in 0..REPLY.len() {
        let (front, back) = REPLY.split_at(i);
        let pieces: [&[u8]; 4] = [HELLO, b"211 1 1 1 a.b\r\n", front, back];
        let links = links_of(rt.alloc(), 0, &pieces, 0).expect(&rt, "links");
        comes(
            &rt,
            links,
            2,
            (1, 1),
            &Ok((1, 1, &[])),
            b"GROUP a.b\r\nOVER 1-1\r\nQUIT\r\n",
        );
    }
}
