// A reply with a block heard, by as many receives as it takes.
ghost use Rattle.std.specs.Prelude.{◌≡◌, ◌≤◌, ◌<◌, ◌∷◌, [], ℕ, Option, Some, None, true, slice_get, length, List};
ghost use Rattle.io_traits.specs.declared.links.LinkEvent.{LinkEvent};
ghost use Rattle.link_dialog.specs.Replies.{has_block, is_meant};
ghost use Rattle.link_dialog.specs.Talk.{KeepsLive};
ghost use Rattle.link_dialog.specs.BlockHearing.{BlockSoFar, IsBlockAnswered};

use crate::block::{BlockReader, BlockStep};
use crate::hearing::{hear_line, receive};
use crate::reader::Reader;
use crate::{Answer, Awaited, BlockAnswer};
use io_traits::{Got, Links};
use lists::Bytes;
use nntp_lines::Why;

// Receives until a reply of this kind was heard whole, or the link is over. The bytes of its block, if it has one, are all
// that `block` holds then, or nothing where there was no room for them.
pub(crate) fn hear_long_reply<L: Links>(
    links: &mut L,
    link: u32,
    patience: u32,
    kind: Awaited,
    buf: &mut [u8],
    block: &mut Bytes,
) -> BlockAnswer
    requires live { slice_get (L.live links.old) link ≡ Some true }
    requires patient { 0 < patience }
    requires room { 0 < length buf.old }
    ensures faults { L.faults links.old ≤ L.faults links.new }
    ensures live { KeepsLive (L.live links.old) (L.live links.new) result.answer }
    ensures heard { IsBlockAnswered (L.trace links.old) (L.trace links.new) link patience kind result.kept block.new result.answer }
{
    block.clear();
    let mut line = Reader::new();
    let end = match hear_line(links, link, patience, kind, &mut line, buf) {
        Ok(end) => end,
        Err(why) => return BlockAnswer::over(why),
    };
    if !has_block(kind, end.code) {
        if end.used == end.len {
            return BlockAnswer {
                answer: Answer::Code(end.code),
                kept: true,
            };
        }
        return BlockAnswer {
            answer: Answer::Unasked(end.code),
            kept: true,
        };
    }
    let mut reader = BlockReader::new(line.len_with_end());
    let piece = &buf[..end.len];
    match reader.step(&piece[end.used..], block) {
        BlockStep::More => {
            let answer = hear_block(
                links,
                link,
                patience,
                kind,
                end.code,
                &mut reader,
                buf,
                block,
            );
            BlockAnswer {
                answer,
                kept: reader.is_kept(),
            }
        }
        BlockStep::End(used) => {
            if end.used + used == end.len {
                return BlockAnswer {
                    answer: Answer::Code(end.code),
                    kept: reader.is_kept(),
                };
            }
            BlockAnswer {
                answer: Answer::Unasked(end.code),
                kept: reader.is_kept(),
            }
        }
        BlockStep::TooLong => BlockAnswer::over(Why::TooLong),
    }
}

// Receives until the block that has begun was heard whole, or the link is over.
fn hear_block<L: Links>(
    links: &mut L,
    link: u32,
    patience: u32,
    kind: Awaited,
    code: u16,
    reader: &mut BlockReader,
    buf: &mut [u8],
    block: &mut Bytes,
) -> Answer
    requires live { slice_get (L.live links.old) link ≡ Some true }
    requires patient { 0 < patience }
    requires room { 0 < length buf.old }
    requires meant { is_meant kind code ≡ true }
    requires block { has_block kind code ≡ true }
    ensures faults { L.faults links.old ≤ L.faults links.new }
    ensures live { KeepsLive (L.live links.old) (L.live links.new) result }
    ensures heard { (before : Option (List LinkEvent)) → BlockSoFar before (L.trace links.old) link patience kind code reader.old block.old 0 →
        IsBlockAnswered before (L.trace links.new) link patience kind reader.new.kept block.new result }
{
    let mut quiet = 0;
    loop {
        match receive(links, link, buf) {
            Got::Bytes(len) => {
                quiet = 0;
                match reader.step(&buf[..len], block) {
                    BlockStep::More => {}
                    BlockStep::End(used) => {
                        if used == len {
                            return Answer::Code(code);
                        }
                        return Answer::Unasked(code);
                    }
                    BlockStep::TooLong => return Answer::Over(Why::TooLong),
                }
            }
            Got::Quiet => {
                quiet += 1;
                if quiet >= patience {
                    return Answer::Over(Why::Quiet);
                }
            }
            Got::Closed => return Answer::Over(Why::Ended),
            Got::Failed => return Answer::Over(Why::Ended),
        }
    }
}

// Whether a block follows the status line.
fn has_block(kind: Awaited, code: u16) -> bool
    ensures { result ≡ has_block kind code }
{
    match kind {
        Awaited::Over => code == 224,
        Awaited::Body => code == 222,
        _ => false,
    }
}
