// What a news server may say, and what is told of it: each event by its name, and the data where it is handed out.

/// A reply, and what is told of it.
pub(crate) type Said = (&'static str, &'static str);

/// Replies to BODY.
pub(crate) const ANSWERS: [Said; 7] = [
    ("430 none\r\n", "<430>"),
    ("423 no such number\r\n", "<423>"),
    (
        "222 0 <a@b>\r\n=ybegin line=128 size=9 name=d\r\n[\\]^_`abc\r\n.=yend size=9 crc32=cbf43926\r\n.\r\n",
        "<size 9>123456789<accepted>",
    ),
    (
        "222 0\r\n=ybegin part=1 line=128 size=18 name=d\r\n=ypart begin=1 end=9\r\n[\\]^_`abc\r\n=yend size=9 part=1 pcrc32=cbf43926 crc32=0123abcd\r\nx\r\n.\r\n",
        "<size 18>123456789<accepted, of 0123abcd>",
    ),
    (
        "222 0\r\n=ybegin part=2 line=128 size=27 name=t\r\n=ypart begin=10 end=18\r\n[\\]^_`abc\r\n=yend size=9 pcrc32=cbf43926\r\n.\r\n",
        "<size 27><turned away>",
    ),
    ("222 0\r\nno body\r\n.\r\n", "<refused>"),
    (
        "222 0\r\n=ybegin line=128 size=2 name=d\r\na=\r\n=yend size=2\r\n.\r\n",
        "<size 2>7<refused>",
    ),
];

/// What ends the link where one reply more is awaited, or none is.
pub(crate) const ENDS: [(Said, bool); 5] = [
    (("400 closing\r\n", "<odd>"), true),
    (("hello\r\n", "<no reply>"), true),
    (("430 none\r\n", "<unasked>"), false),
    (
        (
            "222 0\r\n=ybegin line=128 size=9 name=d\r\n[\\]",
            "<size 9>123",
        ),
        true,
    ),
    (("", ""), false),
];
