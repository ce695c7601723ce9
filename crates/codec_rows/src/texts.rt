// The text of a body in pieces, beside its lines.
ghost use Rattle.std.specs.Prelude.{length};
ghost use Rattle.yenc_body.specs.Canonical.{IsPart};

use lists::{Bytes, Lines, Memory};
use std::alloc::Global;
use std::test::Fail;
use yenc_body::{BodySpec, write_body};
use yenc_lines::Name;
use yenc_text::{PIECE, closing_of, fill_piece, opening_of};

// The text of a body, put together from its pieces, and how many pieces of data lines it has.
fn pieces_of(alloc: Global, spec: &BodySpec, content: &[u8]) -> Result<(Bytes, usize), Memory>
    requires { IsPart spec.now (length content.now) }
{
    let mut text = opening_of(alloc, spec, content)?;
    let mut piece = [0; PIECE];
    let mut at = 0;
    let mut count = 0;
    while at < content.len() {
        let (used, len) = fill_piece(content.split_at(at).1, spec.line, &mut piece);
        text.extend(&piece[..len])?;
        at += used;
        count += 1;
    }
    let closing = closing_of(alloc, spec, content)?;
    text.extend(closing.as_slice())?;
    Ok((text, count))
}

// The lines of a body, each with its end.
fn text_of_lines(alloc: Global, spec: &BodySpec, content: &[u8]) -> Result<Bytes, Memory>
    requires { IsPart spec.now (length content.now) }
{
    let mut lines = Lines::new(alloc);
    write_body(spec, content, &mut lines)?;
    let mut text = Bytes::new(alloc);
    for i in 0..lines.len() {
        text.extend(lines.line(i))?;
        text.extend(b"\r\n")?;
    }
    Ok(text)
}

// How many pieces of data lines the text of a body has, if it is that of the body's lines.
fn count_pieces(alloc: Global, spec: BodySpec, content: &[u8]) -> Result<Option<usize>, Memory>
    requires { IsPart spec (length content.now) }
{
    let (text, count) = pieces_of(alloc, &spec, content)?;
    let wanted = text_of_lines(alloc, &spec, content)?;
    if text.as_slice() != wanted.as_slice() {
        return Ok(None);
    }
    Ok(Some(count))
}

#[test]
fn a_text_is_that_of_its_lines(rt: HostRuntime) -> Result<(), Fail> {
    let contents: [(&[u8], usize); 4] = [
        (b"", 0),
        (b"a", 1),
        (&[214, 224, 227, 19], 1),
        (b"123456789", 1),
    ];
    for (content, pieces) in contents {
        let spec = BodySpec {
            name: Name::new(b"t").ok_or("a name")?,
            part: 1,
            total: 1,
            first: 1,
            size: content.len() as u64,
            line: 128,
        };
        let count = count_pieces(rt.alloc(), spec, content)?;
        assert_eq!(rt; count, Some(pieces));
    }
    Ok(())
}

#[test]
fn one_of_several_parts_has_its_part_line(rt: HostRuntime) -> Result<(), Fail> {
    let spec = BodySpec {
        name: Name::new(b"t").ok_or("a name")?,
        part: 2,
        total: 3,
        first: 10,
        size: 27,
        line: 128,
    };
    let count = count_pieces(rt.alloc(), spec, b"123456789")?;
    assert_eq!(rt; count, Some(1));
    Ok(())
}

// Each byte is an escape, so that a line of 64 characters has 32 of them: the text has 66 bytes for 32, and is cut into three.
#[test]
fn a_long_text_has_several_pieces(rt: HostRuntime) -> Result<(), Fail> {
    let content = [19; 70_000];
    let spec = BodySpec {
        name: Name::new(b"t").ok_or("a name")?,
        part: 1,
        total: 1,
        first: 1,
        size: 70_000,
        line: 64,
    };
    let count = count_pieces(rt.alloc(), spec, &content)?;
    assert_eq!(rt; count, Some(3));
    Ok(())
}
