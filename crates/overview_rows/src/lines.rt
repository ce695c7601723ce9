// Lines of an overview.
use overview_lines::{OverFault, OverLine, read_over};

// What the fields of a line say.
#[derive(Clone, Copy)]
struct Said<'a> {
    number: u64,
    subject: &'a [u8],
    from: &'a [u8],
    date: &'a [u8],
    id: &'a [u8],
    bytes: u64,
}

fn says(over: &OverLine<'_>, said: &Said<'_>) -> bool {
    over.number == said.number
        && over.subject == said.subject
        && over.from == said.from
        && over.date == said.date
        && over.id.as_slice() == said.id
        && over.bytes == said.bytes
}

// Whether a line says this, or has this fault first.
fn is_read_so(line: &[u8], wanted: &Result<Said<'_>, OverFault>) -> bool {
    match read_over(line) {
        Ok(over) => match wanted {
            Ok(said) => says(&over, said),
            Err(_) => false,
        },
        Err(fault) => match wanted {
            Ok(_) => false,
            Err(first) => fault == *first,
        },
    }
}

// Lines, with what their fields say, or the fault that each has first.
const LINES: [(&[u8], Result<Said<'_>, OverFault>); 34] = [
    // the first article of RFC 3977, 8.3.3
    (
        b"3000234\tI am just a test article\t\"Demo User\" <nobody@example.com>\t6 Oct 1998 04:38:40 -0500\t<45223423@example.com>\t<45454@example.net>\t1234\t17\tXref: news.example.com misc.test:3000363",
        Ok(Said {
            number: 3_000_234,
            subject: b"I am just a test article",
            from: b"\"Demo User\" <nobody@example.com>",
            date: b"6 Oct 1998 04:38:40 -0500",
            id: b"45223423@example.com",
            bytes: 1234,
        }),
    ),
    // each field says something else
    (
        b"7\ts\tf\td\t<a@b>\tr\t10\tl",
        Ok(Said {
            number: 7,
            subject: b"s",
            from: b"f",
            date: b"d",
            id: b"a@b",
            bytes: 10,
        }),
    ),
    // nothing where nothing is read, or may be missing
    (
        b"1\t\t\t\t<a@b>\t\t\t",
        Ok(Said {
            number: 1,
            subject: b"",
            from: b"",
            date: b"",
            id: b"a@b",
            bytes: 0,
        }),
    ),
    // bytes above 126, and control bytes in fields that aren't read
    (
        b"2\t\x7f\xff\xc3\xa4\ty\tz\t<a>\tr\x01\t0\tl\x02\tm\x03\t\t",
        Ok(Said {
            number: 2,
            subject: b"\x7f\xff\xc3\xa4",
            from: b"y",
            date: b"z",
            id: b"a",
            bytes: 0,
        }),
    ),
    // leading zeros, and the greatest numbers
    (
        b"0009999999999999999\ts\tf\td\t<<a@b>\tr\t000999999999999\tl",
        Ok(Said {
            number: 9_999_999_999_999_999,
            subject: b"s",
            from: b"f",
            date: b"d",
            id: b"<a@b",
            bytes: 999_999_999_999,
        }),
    ),
    // one fault
    (b"", Err(OverFault::TooFewFields)),
    (b"1", Err(OverFault::TooFewFields)),
    (b"1\ts\tf\td\t<a@b>\tr\t1", Err(OverFault::TooFewFields)),
    (
        b"x\t\x01\t\x01\t\x01\tx\tr\tx",
        Err(OverFault::TooFewFields),
    ),
    (b"\ts\tf\td\t<a@b>\tr\t1\tl", Err(OverFault::BadNumber(1))),
    (b"0\ts\tf\td\t<a@b>\tr\t1\tl", Err(OverFault::BadNumber(1))),
    (b"1x\ts\tf\td\t<a@b>\tr\t1\tl", Err(OverFault::BadNumber(1))),
    (b"+1\ts\tf\td\t<a@b>\tr\t1\tl", Err(OverFault::BadNumber(1))),
    (
        b"10000000000000000\ts\tf\td\t<a@b>\tr\t1\tl",
        Err(OverFault::BadNumber(1)),
    ),
    (
        b"1\ts\x1f\tf\td\t<a@b>\tr\t1\tl",
        Err(OverFault::BadText(2)),
    ),
    (b"1\ts\t\0f\td\t<a@b>\tr\t1\tl", Err(OverFault::BadText(3))),
    (b"1\ts\tf\td\r\t<a@b>\tr\t1\tl", Err(OverFault::BadText(4))),
    (b"1\ts\tf\td\t\tr\t1\tl", Err(OverFault::BadId)),
    (b"1\ts\tf\td\t<>\tr\t1\tl", Err(OverFault::BadId)),
    (b"1\ts\tf\td\t<\tr\t1\tl", Err(OverFault::BadId)),
    (b"1\ts\tf\td\ta@b\tr\t1\tl", Err(OverFault::BadId)),
    (b"1\ts\tf\td\t<a@b\tr\t1\tl", Err(OverFault::BadId)),
    (b"1\ts\tf\td\t<a b>\tr\t1\tl", Err(OverFault::BadId)),
    (b"1\ts\tf\td\t<a>b>\tr\t1\tl", Err(OverFault::BadId)),
    (b"1\ts\tf\td\t<a@b>\tr\tx\tl", Err(OverFault::BadNumber(7))),
    (b"1\ts\tf\td\t<a@b>\tr\t-1\tl", Err(OverFault::BadNumber(7))),
    (
        b"1\ts\tf\td\t<a@b>\tr\t1000000000000\tl",
        Err(OverFault::BadNumber(7)),
    ),
    (b"1\ts\tf\td\t<a@b>\tr\t \tl", Err(OverFault::BadNumber(7))),
    // several: each line has every fault that stands below its own here too
    (
        b"0\t\x01\t\x02\t\x03\ta@b\tr\tx\tl",
        Err(OverFault::BadNumber(1)),
    ),
    (
        b"1\t\x01\t\x02\t\x03\ta@b\tr\tx\tl",
        Err(OverFault::BadText(2)),
    ),
    (
        b"1\ts\t\x02\t\x03\ta@b\tr\tx\tl",
        Err(OverFault::BadText(3)),
    ),
    (b"1\ts\tf\t\x03\ta@b\tr\tx\tl", Err(OverFault::BadText(4))),
    (b"1\ts\tf\td\ta@b\tr\tx\tl", Err(OverFault::BadId)),
    (b"1\ts\tf\td\t<a@b>\tr\tx\tl", Err(OverFault::BadNumber(7))),
];

#[test]
fn a_line_says_what_its_fields_say_or_has_a_fault(rt: HostRuntime) {
    for (line, wanted) in &LINES {
        assert!(rt; is_read_so(line, wanted));
    }
}

#[test]
fn a_line_has_4096_bytes_at_most(rt: HostRuntime) {
    let mut line = [b'a'; 4097];
    assert!(rt; is_read_so(&line[..4096], &Err(OverFault::TooFewFields)));
    assert!(rt; is_read_so(&line, &Err(OverFault::TooLong)));
    // the last field of the longest line has what is left
    line[..22].copy_from_slice(b"1\ts\tf\td\t<a@b>\tr\t1\tl\tx\t");
    let said = Said {
        number: 1,
        subject: b"s",
        from: b"f",
        date: b"d",
        id: b"a@b",
        bytes: 1,
    };
    assert!(rt; is_read_so(&line[..4096], &Ok(said)));
    assert!(rt; is_read_so(&line, &Err(OverFault::TooLong)));
}
