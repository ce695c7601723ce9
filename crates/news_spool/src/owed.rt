// Bytes that are to be given, of which the first ones may have been.
ghost use Rattle.std.specs.Prelude.{◌≡◌, ◌≤◌, [], ◌++◌, length, take, drop, decimal, OnOk, OnErr, IsTrue, ◌↔◌};
ghost use Rattle.dot_blocks.specs.Blocks.{stuffed};
ghost use Rattle.news_spool.specs.Answers.{reply_text};

use crate::reply::Reply;
use held_articles::BlockLines;
use lists::{Bytes, Memory};
use numbers::write_dec;
use std::alloc::Global;
use std::marker::Model;

/// The bytes that a link is owed. Contracts see the list of those that weren't given yet.
#[derive(Drop)]
pub(crate) struct Owed {
    bytes: Bytes,
    given: usize,
}

impl Model for Owed {
    ghost use Rattle.std.specs.Prelude.{List, ℕ, ◌≤◌, length, drop};

    ghost Value = { List ℕ };

    ghost view = { λ owed. drop owed.given owed.bytes };

    ghost invariant = { λ owed. owed.given ≤ length owed.bytes };
}

impl Owed {
    // Nothing. It takes no memory yet.
    pub(crate) fn new(alloc: Global) -> Self
        ensures { result ≡ [] }
    {
        Owed {
            bytes: Bytes::new(alloc),
            given: 0,
        }
    }

    // All bytes that weren't given, in order.
    pub(crate) fn as_slice(&self) -> &[u8]
        ensures { result.now ≡ self.now }
    {
        &self.bytes.as_slice()[self.given..]
    }

    // Appends all of `more`, or changes nothing.
    pub(crate) fn extend(&mut self, more: &[u8]) -> Result<(), Memory>
        ensures ok { OnOk result (self.new ≡ self.old ++ more.now) }
        ensures err { OnErr result (self.new ≡ self.old) }
    {
        self.bytes.extend(more)
    }

    // Appends the digits of a number.
    pub(crate) fn extend_number(&mut self, number: u64) -> Result<(), Memory>
        ensures { OnOk result (self.new ≡ self.old ++ decimal number) }
    {
        let mut digits = [0; 20];
        let len = write_dec(number, &mut digits);
        self.extend(&digits[..len])
    }

    // Appends the block of these lines.
    pub(crate) fn extend_block(&mut self, lines: &BlockLines) -> Result<(), Memory>
        ensures { OnOk result (self.new ≡ self.old ++ stuffed lines.now) }
    {
        lines.stuff(&mut self.bytes)
    }

    // Appends a reply of one line.
    #[tactic(auto, unfolding(crate::specs::Answers::reply_text))]
    pub(crate) fn say(&mut self, reply: Reply) -> Result<(), Memory>
        ensures { OnOk result (self.new ≡ self.old ++ reply_text reply) }
    {
        self.extend(reply.line())?;
        self.extend(b"\r\n")
    }

    // The first `n` bytes were given. The room of those that were is used again once nothing is owed.
    pub(crate) fn pass(&mut self, n: usize)
        requires { n ≤ length self.old }
        ensures { self.new ≡ drop n self.old }
    {
        let end = self.bytes.len();
        self.given += n;
        if self.given == end {
            self.bytes.clear();
            self.given = 0;
        }
    }
}
