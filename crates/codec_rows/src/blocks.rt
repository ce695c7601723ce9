// Blocks, decoded in pieces.
use crate::block_fixtures::{Decoded, Reply, by_bytes, in_two};
use fused_decoder::{Ending, Event, Fused, decode_pieces};
use lists::Bytes;
use std::alloc::Global;
use std::mem::size_of;
use std::test::Fail;
use yenc_body::{Fault, Reason};

// A body of one part. The end line has a dot before it that the block needn't have.
const WHOLE: &str =
    "=ybegin line=128 size=9 name=d\r\n[\\]^_`abc\r\n.=yend size=9 crc32=cbf43926\r\n.\r\n";

// A part at the end of the longest file.
const FAR: &str =
    "=ybegin part=2 line=128 size=1099511627776 name=d\r\n=ypart begin=1099511627768 end=1099511627776\r\n[\\]^_`abc\r\n=yend size=9 part=2 pcrc32=cbf43926\r\n.\r\n";

const OF_SEVERAL: &str =
    "=ybegin part=1 line=128 size=18 name=d\r\n=ypart begin=1 end=9\r\n[\\]^_`abc\r\n=yend size=9 part=1 pcrc32=cbf43926 crc32=0123abcd\r\nx\r\n.\r\n";

const LONE: &str = "=ybegin line=128 size=2 name=d\r\na=\r\n=yend size=2\r\n.\r\n";

const STRAY: &str = "=ybegin line=128 size=2 name=d\r\na=\ra\r\n=yend size=2\r\n.\r\n";

const MANY: &str = "=ybegin line=128 size=8 name=d\r\n[\\]^_`abc\r\n=yend size=8\r\n.\r\n";

// The CRC of the part, and that of the whole file where the trailer line says it.
const ACCEPTED: Ending = Ending::Accepted {
    crc: 0xCBF4_3926,
    whole: None,
};

const ACCEPTED_WITH_WHOLE: Ending = Ending::Accepted {
    crc: 0xCBF4_3926,
    whole: Some(0x0123_ABCD),
};

// Blocks that are taken, or turned away where the range is known: the size with the offsets of the first and the last byte, how
// the block ends, and the bytes that are handed out.
const TAKEN: [(&str, Reply, (u64, u64, u64), Ending, &str); 4] = [
    (WHOLE, Reply::GoOn, (9, 1, 9), ACCEPTED, "123456789"),
    (WHOLE, Reply::TurnAway, (9, 1, 9), Ending::TurnedAway, ""),
    (
        FAR,
        Reply::GoOn,
        (1_099_511_627_776, 1_099_511_627_768, 1_099_511_627_776),
        ACCEPTED,
        "123456789",
    ),
    (
        OF_SEVERAL,
        Reply::GoOn,
        (18, 1, 9),
        ACCEPTED_WITH_WHOLE,
        "123456789",
    ),
];

// Blocks that are refused: the range where it is told, the line, the column, the reason, and the bytes that are handed out.
const REFUSED: [(&str, Option<(u64, u64, u64)>, u64, u64, Reason, &str); 6] = [
    (LONE, Some((2, 1, 2)), 2, 2, Reason::LoneEscape, "7"),
    (STRAY, Some((2, 1, 2)), 2, 3, Reason::Stray, "7"),
    (MANY, Some((8, 1, 8)), 2, 9, Reason::TooMany, "12345678"),
    (".\r\n", None, 1, 1, Reason::NoBegin, ""),
    (
        "=ybegin part=1 size=9 name=d\r\n.\r\n",
        None,
        2,
        1,
        Reason::NoPart,
        "",
    ),
    (
        "=ybegin size=0 name=d\r\n.\r\n",
        Some((0, 1, 0)),
        2,
        1,
        Reason::NoEnd,
        "",
    ),
];

// What comes of a block.
#[derive(Clone, Copy)]
struct Outcome {
    range: Option<(u64, u64, u64)>,
    ending: Ending,
    out: &'static str,
}

fn came(decoded: &Decoded, outcome: &Outcome) -> bool {
    decoded.range == outcome.range
        && decoded.ending == Some(outcome.ending)
        && decoded.out.as_slice() == outcome.out.as_bytes()
}

// Whether this comes of a block in pieces of one byte and in any two pieces.
fn comes_of(
    alloc: Global,
    block: &'static str,
    reply: Reply,
    outcome: &Outcome,
) -> Result<bool, Fail> {
    let block = block.as_bytes();
    let decoded = by_bytes(alloc, reply, block)?;
    if !came(&decoded, outcome) {
        return Ok(false);
    }
    for cut in 0..block.len() {
        let decoded = in_two(alloc, reply, &block[..cut], &block[cut..])?;
        if !came(&decoded, outcome) {
            return Ok(false);
        }
    }
    Ok(true)
}

fn fault(line: u64, column: u64, reason: Reason) -> Ending {
    Ending::Refused(Fault {
        line,
        column,
        reason,
    })
}

#[test]
fn a_block_ends_the_same_however_it_is_cut(rt: HostRuntime) -> Result<(), Fail> {
    for (block, reply, range, ending, out) in TAKEN {
        let outcome = Outcome {
            range: Some(range),
            ending,
            out,
        };
        assert!(rt; comes_of(rt.alloc(), block, reply, &outcome)?, "{block:?}");
    }
    for (block, range, line, column, reason, out) in REFUSED {
        let outcome = Outcome {
            range,
            ending: fault(line, column, reason),
            out,
        };
        assert!(rt;
            comes_of(rt.alloc(), block, Reply::GoOn, &outcome)?,
            "{block:?}"
        );
    }
    Ok(())
}

#[test]
fn tells_the_end_only_with_the_last_byte(rt: HostRuntime) -> Result<(), Fail> {
    let block = WHOLE.as_bytes();
    for cut in 0..block.len() {
        let decoded = in_two(rt.alloc(), Reply::GoOn, &block[..cut], b"")?;
        assert!(rt; decoded.ending.is_none());
    }
    Ok(())
}

#[test]
fn tells_the_range_from_its_line_on(rt: HostRuntime) -> Result<(), Fail> {
    let mut fused = Fused::start();
    let mut fixed = None;
    for byte in FAR.as_bytes() {
        assert!(rt; fused.range() == fixed);
        let mut byte = [*byte];
        if let Event::Range { first, last, .. } = fused.step(&mut byte).event {
            fixed = Some((first, last));
            fused.go_on();
        }
    }
    assert!(rt; fused.range() == Some((1_099_511_627_768, 1_099_511_627_776)));
    Ok(())
}

#[test]
fn puts_the_pieces_together(rt: HostRuntime) -> Result<(), Fail> {
    let mut buffer = [0; 32];
    for length in 1..33usize {
        let mut out = Bytes::new(rt.alloc());
        let ending = decode_pieces(WHOLE.as_bytes(), &mut buffer[..length], &mut out)?;
        assert!(rt; ending == Some(ACCEPTED));
        assert!(rt; out.as_slice() == b"123456789".as_slice());
    }
    Ok(())
}

#[test]
fn a_keyword_line_has_1024_bytes_at_most(rt: HostRuntime) -> Result<(), Fail> {
    let mut block = [b' '; 1030];
    block[..21].copy_from_slice(b"=ybegin size=0 name=d");
    block[1025..].copy_from_slice(b"\r\n.\r\n");
    let decoded = in_two(rt.alloc(), Reply::GoOn, &block[..1024], &block[1024..])?;
    assert!(rt; decoded.ending == Some(fault(1, 1025, Reason::KeywordTooLong)));
    block[1024..1029].copy_from_slice(b"\r\n.\r\n");
    let decoded = in_two(rt.alloc(), Reply::GoOn, &block[..1024], &block[1024..1029])?;
    assert!(rt; decoded.range == Some((0, 1, 0)));
    assert!(rt; decoded.ending == Some(fault(2, 1, Reason::NoEnd)));
    Ok(())
}

#[test]
fn is_small(rt: HostRuntime) {
    assert!(rt; size_of::<Fused>() <= 4096);
}
