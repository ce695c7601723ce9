// What is answered to BODY and STAT.
use crate::fixtures::{FIRST, LOGIN, ONE, TWO, posted, says};

#[test]
fn commands_are_answered(rt: HostRuntime) {
    let rows: [(&[u8], &[u8], &[u8]); 30] = [
        // Bodies, with a dot more where a line begins with one.
        (ONE, b"BODY <a@x>\r\n", FIRST),
        (ONE, b"BODY <c@x>\r\n", b"222 0 <c@x>\r\n.\r\n"),
        (ONE, b"BODY <d@x>\r\n", b"222 0 <d@x>\r\nd\r\n.\r\n"),
        (TWO, b"BODY <b@x>\r\n", b"222 0 <b@x>\r\nb\r\n.\r\n"),
        // The same twice, and one behind the other.
        (
            ONE,
            b"BODY <c@x>\r\nBODY <c@x>\r\n",
            b"222 0 <c@x>\r\n.\r\n222 0 <c@x>\r\n.\r\n",
        ),
        (
            ONE,
            b"STAT <c@x>\r\nBODY <d@x>\r\n",
            b"223 0 <c@x>\r\n222 0 <d@x>\r\nd\r\n.\r\n",
        ),
        // Articles that are there, and that are lacking by their numbers.
        (ONE, b"STAT <a@x>\r\n", b"223 0 <a@x>\r\n"),
        (TWO, b"STAT <b@x>\r\n", b"223 0 <b@x>\r\n"),
        (ONE, b"STAT <b@x>\r\n", b"430 none\r\n"),
        (ONE, b"BODY <b@x>\r\n", b"430 none\r\n"),
        (
            TWO,
            b"BODY <a@x>\r\nSTAT <a@x>\r\n",
            b"430 none\r\n430 none\r\n",
        ),
        (
            TWO,
            b"STAT <d@x>\r\nSTAT <c@x>\r\n",
            b"430 none\r\n223 0 <c@x>\r\n",
        ),
        // Message-ids that no article has.
        (ONE, b"BODY <e@x>\r\n", b"430 none\r\n"),
        (ONE, b"STAT <a@>\r\n", b"430 none\r\n"),
        (ONE, b"STAT <A@x>\r\n", b"430 none\r\n"),
        (ONE, b"STAT <a@x.>\r\n", b"430 none\r\n"),
        // What is no message-id.
        (ONE, b"BODY\r\nSTAT\r\n", b"500 what\r\n500 what\r\n"),
        (ONE, b"BODY \r\n", b"500 what\r\n"),
        (ONE, b"BODY 1\r\n", b"500 what\r\n"),
        (ONE, b"STAT a@x\r\n", b"500 what\r\n"),
        (ONE, b"STAT <>\r\n", b"500 what\r\n"),
        (ONE, b"BODY <a@x> \r\n", b"500 what\r\n"),
        (ONE, b"BODY  <a@x>\r\n", b"500 what\r\n"),
        (ONE, b"BODY <a@x><c@x>\r\n", b"500 what\r\n"),
        // What is none of the two commands.
        (ONE, b"BODY<a@x>\r\n", b"500 what\r\n"),
        (ONE, b"body <a@x>\r\n", b"500 what\r\n"),
        (ONE, b"STATS <a@x>\r\n", b"500 what\r\n"),
        (ONE, b"HEAD <a@x>\r\n", b"500 what\r\n"),
        // A newsgroup changes nothing for them.
        (
            ONE,
            b"GROUP alt.none\r\nSTAT <c@x>\r\n",
            b"411 none\r\n223 0 <c@x>\r\n",
        ),
        (
            ONE,
            b"GROUP alt.test\r\nSTAT <b@x>\r\n",
            b"211 4 1 4 alt.test\r\n430 none\r\n",
        ),
    ];
    let mut spool = posted(&rt, &[], &[]);
    for (address, text, wanted) in rows {
        spool = says(&rt, spool, address, text, wanted, false);
    }
}

#[test]
fn a_login_comes_before_an_article(rt: HostRuntime) {
    let rows: [(&[u8], &[u8]); 4] = [
        (b"BODY <a@x>\r\n", b"480 login\r\n"),
        (b"STAT <c@x>\r\nBODY\r\n", b"480 login\r\n480 login\r\n"),
        (
            b"AUTHINFO USER me\r\nSTAT <a@x>\r\nAUTHINFO PASS no\r\nSTAT <a@x>\r\n",
            b"381 more\r\n480 login\r\n481 refused\r\n480 login\r\n",
        ),
        (
            b"AUTHINFO USER me\r\nAUTHINFO PASS secret\r\nSTAT <a@x>\r\nSTAT <c@x>\r\nBODY <d@x>\r\n",
            b"381 more\r\n281 in\r\n223 0 <a@x>\r\n430 none\r\n222 0 <d@x>\r\nd\r\n.\r\n",
        ),
    ];
    let mut spool = posted(&rt, &[], &[]);
    for (text, wanted) in rows {
        spool = says(&rt, spool, LOGIN, text, wanted, false);
    }
}

#[test]
fn articles_come_and_the_session_ends(rt: HostRuntime) {
    let rows: [(&[u8], &[u8], bool); 5] = [
        (b"STAT <e@x>\r\n", b"430 none\r\n", false),
        // It is there once its dot has come.
        (
            b"POST\r\nFrom: me\r\nNewsgroups: alt.a\r\nSubject: s\r\nMessage-ID: <e@x>\r\n\r\n..\r\nSTAT <e@x>\r\n.\r\nBODY <e@x>\r\n",
            b"340 send\r\n240 posted\r\n222 0 <e@x>\r\n..\r\nSTAT <e@x>\r\n.\r\n",
            false,
        ),
        // One with its message-id is refused, and the first one stays.
        (
            b"POST\r\nFrom: me\r\nNewsgroups: alt.a\r\nSubject: s\r\nMessage-ID: <e@x>\r\n\r\nother\r\n.\r\nBODY <e@x>\r\n",
            b"340 send\r\n441 refused\r\n222 0 <e@x>\r\n..\r\nSTAT <e@x>\r\n.\r\n",
            false,
        ),
        (b"QUIT\r\nSTAT <e@x>\r\n", b"205 bye\r\n", true),
        (
            b"STAT <e@x>\r\nQUIT\r\n",
            b"223 0 <e@x>\r\n205 bye\r\n",
            true,
        ),
    ];
    let mut spool = posted(&rt, &[], &[]);
    for (text, wanted, ends) in rows {
        spool = says(&rt, spool, ONE, text, wanted, ends);
    }
}
