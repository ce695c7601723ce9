// Multi-line blocks: made, split, and framed in pieces.
ghost use Rattle.std.specs.Prelude.{All};
ghost use Rattle.dot_blocks.specs.Blocks.{HoldsNoLineEnd};

use dot_blocks::{BlockError, Frame, Framer, split_block, stuff};
use lists::{Bytes, Lines, Memory};
use row_fixtures::{are_lines, bytes_of};
use std::alloc::Global;
use std::process::Abort;

// The lines of a block.
fn lines_of<R: Abort + AllocGlobal>(rt: &R, block: &[u8]) -> Lines
    ensures { All HoldsNoLineEnd result }
{
    match split_block(rt.alloc(), block) {
        Ok(lines) => lines,
        Err(_) => rt.panic("a block"),
    }
}

// Blocks, and their lines with bars between them.
const BLOCKS: [(&str, &str); 15] = [
    // dots at the front of a line
    ("\r\n.\r\n", ""),
    ("a\r\nbc\r\n.\r\n", "a|bc"),
    (".=yend\r\n.\r\n", "=yend"),
    ("..\r\n.\r\n", "."),
    ("...\r\n.\r\n", ".."),
    ("a.\r\n..a\r\n.\r\n", "a.|.a"),
    // a lone CR or LF, which ends no line
    ("a\rb\nc\0\r\n.\r\n", "a\rb\nc\0"),
    ("a\n.\r\n.\r\n", "a\n."),
    ("\n.\n\r\n.\r\n", "\n.\n"),
    ("\r.\r\n.\r\n", "\r."),
    ("a\r\r\n.\r\n", "a\r"),
    (".\r\r\n.\r\n", "\r"),
    (".\n\r\n.\r\n", "\n"),
    // the same lines, with and without dots that the last three don't need
    (HEARD, STUFFED_LINES),
    (STUFFED, STUFFED_LINES),
];

const HEARD: &str = "\r\n..\r\n...a\r\na.\r\n.=yend\r\n.\rb\n\r\n.\0\r\n.\r\n";

const STUFFED: &str = "\r\n..\r\n...a\r\na.\r\n=yend\r\n\rb\n\r\n\0\r\n.\r\n";

const STUFFED_LINES: &str = "|.|..a|a.|=yend|\rb\n|\0";

#[test]
fn a_block_gives_its_lines_without_their_dots(rt: HostRuntime) {
    assert!(rt; lines_of(&rt, b".\r\n").is_empty());
    for (block, wanted) in BLOCKS {
        let lines = lines_of(&rt, block.as_bytes());
        assert!(rt; are_lines(&lines, wanted), "{block:?}");
    }
}

// Bytes without a whole block, with bars between them.
const UNFINISHED: &str = "|.|.\r|.\n|a\r\n|a\r\n.\r|a.\r\n|..\r\n|\r.\r\n|a\n.\r\n";

// Bytes that go on behind a block, and its length.
const LONGER: [(&str, usize); 4] = [
    (".\r\nx", 3),
    (".\r\n.\r\n", 3),
    ("a\r\n.\r\n\n", 6),
    ("..\r\n.\r\na\r\n.\r\n", 7),
];

#[test]
fn bytes_that_are_no_block_are_told(rt: HostRuntime) {
    for bytes in UNFINISHED.split('|') {
        let result = split_block(rt.alloc(), bytes.as_bytes());
        assert!(rt; matches!(result, Err(BlockError::Unfinished)));
    }
    for (bytes, len) in LONGER {
        match split_block(rt.alloc(), bytes.as_bytes()) {
            Err(BlockError::Rest(used)) => assert_eq!(rt; used, len),
            _ => assert!(rt; false),
        }
    }
}

#[test]
fn stuffed_lines_come_back(rt: HostRuntime) {
    let lines = lines_of(&rt, HEARD.as_bytes());
    let mut out = bytes_of(rt.alloc(), b"222 0\r\n").expect(&rt, "a line");
    stuff(&lines, &mut out).expect(&rt, "a block");
    let text = out.as_slice();
    assert!(rt; text.starts_with(b"222 0\r\n"));
    assert!(rt; text.get(7..) == Some(STUFFED.as_bytes()));
}

// Appends a mark for each byte of a block: `,` where a line ends, `.` where the block does, and `-` elsewhere.
fn hear(framer: &mut Framer, piece: &[u8], marks: &mut Bytes) -> Result<(), Memory> {
    let mut rest = piece;
    for _ in 0..8u32 {
        let (used, frame) = framer.step(rest);
        rest = &rest[used..];
        mark(used, frame, marks)?;
        if frame == Frame::More {
            return Ok(());
        }
    }
    Ok(())
}

fn mark(used: usize, frame: Frame, marks: &mut Bytes) -> Result<(), Memory> {
    for _ in 1..used {
        marks.push(b'-')?;
    }
    let last = match frame {
        Frame::More => b'-',
        Frame::LineEnd => b',',
        Frame::End => b'.',
    };
    if used > 0 { marks.push(last) } else { Ok(()) }
}

// The marks of a block that comes in two pieces.
fn marks_in_two(alloc: Global, front: &[u8], back: &[u8]) -> Result<Bytes, Memory> {
    let mut framer = Framer::new();
    let mut marks = Bytes::new(alloc);
    hear(&mut framer, front, &mut marks)?;
    hear(&mut framer, back, &mut marks)?;
    Ok(marks)
}

// The marks of a block that comes byte by byte.
fn marks_by_bytes(alloc: Global, block: &[u8]) -> Result<Bytes, Memory> {
    let mut framer = Framer::new();
    let mut marks = Bytes::new(alloc);
    for byte in block {
        hear(&mut framer, &[*byte], &mut marks)?;
    }
    Ok(marks)
}

// Blocks, and their marks.
const MARKED: [(&str, &str); 8] = [
    // a lone CR before a dot
    ("a\r.\r\n.\r\n", "----,--."),
    ("\r\r.\r\n.\r\n", "----,--."),
    // a dot and a lone CR, or a lone LF, on a line that isn't the last
    (".\ra\r\n.\r\n", "----,--."),
    (".\r\r\n.\n\r\n.\r\n", "---,---,--."),
    // a block without lines, and a line that is two dots
    (".\r\n", "--."),
    ("..\r\n.\r\n", "---,--."),
    // an empty line, and lines of one and three bytes
    ("\r\na\r\nb.c\r\n.\r\n", "-,--,----,--."),
    // a block behind a block
    (".\r\n\n\r\n.\r\n", "--.--,--."),
];

#[test]
fn a_framer_gives_the_same_however_a_block_is_cut(rt: HostRuntime) {
    for (block, wanted) in MARKED {
        let block = block.as_bytes();
        for cut in 0..=block.len() {
            let marks = marks_in_two(rt.alloc(), &block[..cut], &block[cut..]);
            let marks = marks.expect(&rt, "marks");
            assert!(rt;
                marks.as_slice() == wanted.as_bytes(),
                "{block:?} cut at {cut}"
            );
        }
        let marks = marks_by_bytes(rt.alloc(), block).expect(&rt, "marks");
        assert!(rt;
            marks.as_slice() == wanted.as_bytes(),
            "{block:?} byte by byte"
        );
    }
}
