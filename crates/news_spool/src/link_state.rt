// What a server in memory keeps of a link.
ghost use Rattle.std.specs.Prelude.{◌≡◌, ◌≤◌, ◌<◌, length, take, IfOk, OnOk, IfSome, MatchOption};
ghost use Rattle.news_spool.specs.Pieces.{left_of};

use crate::line::BegunLine;
use crate::pieces::{bounded, is_spent, left_of};
use crate::plan::SpoolServer;
use crate::talk::{Phase, Talk};
use held_articles::HeldArticles;
use lists::Memory;
use std::alloc::Global;

/// What is due to a receive.
#[derive(Clone, Copy, Debug, PartialEq, Eq)]
pub(crate) enum Due {
    /// So many bytes.
    Bytes(usize),
    /// Nothing yet.
    Quiet,
    /// The link's end.
    End,
}

/// A link to a server in memory.
#[derive(Drop)]
pub(crate) struct LinkState {
    /// Which of the servers.
    pub(crate) server: usize,
    /// What has come of the next line.
    line: BegunLine,
    /// What the lines before it have come to.
    talk: Talk,
    /// How many bytes it gives before its end, where that is set.
    ends_in: Option<u64>,
    /// How many bytes it gives before it stays quiet, where that is set.
    quiet_in: Option<u64>,
}

impl LinkState {
    ghost use Rattle.news_spool.specs.LinkState.{CanGive, DueFits, due_on, ended, given, heard_byte, heard_bytes, new_link};
    ghost use Rattle.news_spool.specs.declared.link_state.Due.TheVariants as due;

    // A link that was opened to a server, which owes its greeting.
    pub(crate) fn new(
        alloc: Global,
        server: usize,
        ends_in: Option<u64>,
        quiet_in: Option<u64>,
    ) -> Result<Self, Memory>
        ensures { IfOk result (λ link. link ≡ new_link server ends_in quiet_in) }
    {
        match Talk::new(alloc) {
            Ok(talk) => Ok(LinkState {
                server,
                line: BegunLine::new(alloc),
                talk,
                ends_in,
                quiet_in,
            }),
            Err(Memory) => Err(Memory),
        }
    }

    // Hears bytes, to a server whose articles have this date. Where memory runs out, articles may have been kept.
    pub(crate) fn hear(
        &mut self,
        alloc: Global,
        server: &SpoolServer,
        date: &[u8],
        bytes: &[u8],
        articles: &mut HeldArticles,
    ) -> Result<(), Memory>
        ensures ok { OnOk result ((self.new, articles.new) ≡ heard_bytes server.now date.now bytes.now (self.old, articles.old)) }
        ensures kept { take (length articles.old) articles.new ≡ articles.old }
        ensures server { self.new.server ≡ self.old.server }
    {
        for byte in bytes {
            self.hear_byte(alloc, server, date, *byte, articles)?;
        }
        Ok(())
    }

    fn hear_byte(
        &mut self,
        alloc: Global,
        server: &SpoolServer,
        date: &[u8],
        byte: u8,
        articles: &mut HeldArticles,
    ) -> Result<(), Memory>
        ensures ok { OnOk result ((self.new, articles.new) ≡ heard_byte server.now date.now byte (self.old, articles.old)) }
        ensures kept { take (length articles.old) articles.new ≡ articles.old }
        ensures server { self.new.server ≡ self.old.server }
    {
        if !self.line.push(byte)? {
            return Ok(());
        }
        self.talk
            .hear_line(alloc, server, date, self.line.as_slice(), articles)?;
        self.line.clear();
        Ok(())
    }

    // What is due to a receive with this bound of its own, into so much room.
    pub(crate) fn due(&self, piece: Option<u64>, room: usize) -> Due
        requires { 0 < room }
        ensures due { result ≡ due_on piece room self.now }
        ensures fits { DueFits room self.now result }
    {
        if is_spent(piece) {
            return Due::Quiet;
        }
        if is_spent(self.ends_in) {
            return Due::End;
        }
        if is_spent(self.quiet_in) {
            return Due::Quiet;
        }
        let owed = self.talk.owed.as_slice().len();
        if owed == 0 {
            return match self.talk.phase {
                Phase::Over => Due::End,
                _ => Due::Quiet,
            };
        }
        let n = bounded(self.quiet_in, room.min(owed));
        Due::Bytes(bounded(piece, bounded(self.ends_in, n)))
    }

    // The bytes that weren't given yet.
    pub(crate) fn owed(&self) -> &[u8]
        ensures { result.now ≡ self.now.talk.owed }
    {
        self.talk.owed.as_slice()
    }

    // So many bytes were given.
    pub(crate) fn pass(&mut self, n: usize)
        requires { CanGive n self.old }
        ensures { self.new ≡ given n self.old }
    {
        self.talk.owed.pass(n);
        self.ends_in = left_of(self.ends_in, n);
        self.quiet_in = left_of(self.quiet_in, n);
    }

    // The link has ended, and what it held is given back.
    pub(crate) fn end(&mut self, alloc: Global)
        ensures { self.new ≡ ended self.old }
    {
        self.line = BegunLine::new(alloc);
        self.talk = Talk::ended(alloc);
        self.ends_in = None;
        self.quiet_in = None;
    }
}
