// The article of a part.
ghost use Rattle.std.specs.Prelude.{◌≡◌, ◌≤◌, ◌++◌, [], length, IfOk, OnOk, OnErr};
ghost use Rattle.yenc_body.specs.Parts.{part_length};
ghost use Rattle.poster.specs.Article.{IsWritten, head_of, spec_for};
ghost use Rattle.poster.specs.Plan.{IsPlanOf};
ghost use Rattle.poster.specs.Settings.{AreSettings};
ghost use Rattle.poster.specs.Wire.{SendsArticle, SendsBody};

use crate::room::make_room;
use crate::wire::{push_data, push_lines};
use crate::{Plan, Settings};
use article_head::{Head, write_head};
use lists::{Bytes, Lines, Memory};
use nntp_lines::MessageId;
use yenc_body::BodySpec;
use yenc_text::{push_closing, push_opening};

/// Makes the article of a part, counted from 1, of the part's bytes, as the block that is sent (RFC 3977, 3.1.1), beside the
/// lines of its head. It answers how many octets the article has before it is stuffed, with CRLF behind each line, at most
/// `MOST_OCTETS`. What the two buffers held before is dropped, and where memory runs out they are empty. Buffers that served a
/// part of as many bytes, with the same settings, have the room already.
pub fn write_article(
    settings: &Settings,
    plan: &Plan,
    part: u32,
    bytes: &[u8],
    head: &mut Lines,
    block: &mut Bytes,
) -> Result<u64, Memory>
    requires settings { AreSettings settings.now }
    requires plan { IsPlanOf settings.now plan.now.size plan.now }
    requires first { 1 ≤ part }
    requires last { part ≤ length plan.now.parts }
    requires bytes { length bytes.now ≡ part_length plan.now.size settings.now.part_size part }
    ensures ok { IfOk result (IsWritten settings.now plan.now.size part bytes.now block.new) }
    ensures err { OnErr result ((head.new ≡ []) × (block.new ≡ [])) }
{
    head.clear();
    block.clear();
    match make_article(settings, plan, part, bytes, head, block) {
        Ok(octets) => Ok(octets),
        Err(Memory) => {
            head.clear();
            block.clear();
            Err(Memory)
        }
    }
}

// The same in buffers that are empty, in which it leaves what it has made where memory runs out.
fn make_article(
    settings: &Settings,
    plan: &Plan,
    part: u32,
    bytes: &[u8],
    head: &mut Lines,
    block: &mut Bytes,
) -> Result<u64, Memory>
    requires settings { AreSettings settings.now }
    requires plan { IsPlanOf settings.now plan.now.size plan.now }
    requires first { 1 ≤ part }
    requires last { part ≤ length plan.now.parts }
    requires bytes { length bytes.now ≡ part_length plan.now.size settings.now.part_size part }
    requires no_line { head.old ≡ [] }
    requires no_byte { block.old ≡ [] }
    ensures { IfOk result (IsWritten settings.now plan.now.size part bytes.now block.new) }
{
    make_room(bytes.len(), settings.line, head, block)?;
    let dots = push_article(settings, plan, part, bytes, head, block)?;
    let octets = (block.len() - dots) as u64;
    block.extend(b".\r\n")?;
    Ok(octets)
}

// Appends the article but for the dot that ends its block, and answers how many dots it has more.
fn push_article(
    settings: &Settings,
    plan: &Plan,
    part: u32,
    bytes: &[u8],
    head: &mut Lines,
    block: &mut Bytes,
) -> Result<usize, Memory>
    requires settings { AreSettings settings.now }
    requires plan { IsPlanOf settings.now plan.now.size plan.now }
    requires first { 1 ≤ part }
    requires last { part ≤ length plan.now.parts }
    requires bytes { length bytes.now ≡ part_length plan.now.size settings.now.part_size part }
    requires no_line { head.old ≡ [] }
    requires no_byte { block.old ≡ [] }
    ensures { IfOk result (SendsArticle settings.now plan.now.size part bytes.now block.new) }
{
    let planned = &plan.parts.as_slice()[part as usize - 1];
    let total = plan.parts.len() as u32;
    push_head(settings, part, total, &planned.id, head)?;
    let in_head = push_lines(head, block)?;
    let in_body = push_body(settings, plan, part, bytes, block)?;
    Ok(in_head + in_body)
}

fn push_head(
    settings: &Settings,
    part: u32,
    total: u32,
    id: &MessageId,
    lines: &mut Lines,
) -> Result<(), Memory>
    requires { AreSettings settings.now }
    ensures { OnOk result (lines.new ≡ lines.old ++ head_of settings.now part total id.now) }
{
    let head = Head {
        from: settings.from.as_slice(),
        newsgroups: settings.newsgroups.as_slice(),
        comment: settings.comment.as_slice(),
        name: settings.name.as_slice(),
        part,
        total,
        id,
    };
    write_head(&head, lines)
}

// Appends the lines of the body as they are sent, and answers how many dots they have more.
fn push_body(
    settings: &Settings,
    plan: &Plan,
    part: u32,
    bytes: &[u8],
    block: &mut Bytes,
) -> Result<usize, Memory>
    requires settings { AreSettings settings.now }
    requires plan { IsPlanOf settings.now plan.now.size plan.now }
    requires first { 1 ≤ part }
    requires last { part ≤ length plan.now.parts }
    requires bytes { length bytes.now ≡ part_length plan.now.size settings.now.part_size part }
    ensures body { IfOk result (SendsBody (spec_for settings.now plan.now.size part) bytes.now block.old block.new) }
    ensures few { IfOk result (λ dots. dots ≤ length bytes.now) }
{
    let spec = spec_of(settings, plan, part)?;
    // A keyword line begins with `=y`, and so needs no dot.
    push_opening(&spec, bytes, block)?;
    let dots = push_data(bytes, spec.line, block)?;
    push_closing(&spec, bytes, block)?;
    Ok(dots)
}

// Which part of which file the body has.
fn spec_of(settings: &Settings, plan: &Plan, part: u32) -> Result<BodySpec, Memory>
    requires plan { IsPlanOf settings.now plan.now.size plan.now }
    requires first { 1 ≤ part }
    requires last { part ≤ length plan.now.parts }
    ensures { IfOk result (λ spec. spec ≡ spec_for settings.now plan.now.size part) }
{
    let planned = &plan.parts.as_slice()[part as usize - 1];
    Ok(BodySpec {
        name: settings.name.clone()?,
        part,
        total: plan.parts.len() as u32,
        first: planned.first,
        size: plan.size,
        line: settings.line,
    })
}
