// A dialog on one link.
ghost use Rattle.std.specs.Prelude.{◌≡◌, ◌≤◌, ◌<◌, ◌++◌, ◌∷◌, [], Some, None, true, length, slice_get, List, ℕ, OnOk, IfOk, IfErr, Option, Result};
ghost use Rattle.std.specs.Option.{option_copied};

use crate::greeting::greet;
use crate::hearing::{hear_group_reply, hear_reply};
use crate::long_reply::hear_long_reply;
use crate::sending::send_whole;
use crate::{Answer, Awaited, BlockAnswer, GroupAnswer};
use io_traits::Links;
use lists::Bytes;
use nntp_lines::{Command, Login, Why, write_command};

/// A dialog on one link that is open and logged in: messages, each said once the one before has its reply. Its calls are
/// made in turn, `say` and then `hear`, and end where one of them tells that the link is over.
#[derive(Clone, Copy, Debug)]
pub struct Dialog {
    pub(crate) link: u32,
    pub(crate) patience: u32,
    ghost patient: { 0 < patience },
}

/// The link ended after so many bytes of a message, and not all of them.
#[derive(Clone, Copy, Debug, PartialEq, Eq)]
pub struct Cut {
    /// How many bytes of the message went out.
    pub sent: usize,
}

/// Why no dialog began.
#[derive(Clone, Copy, Debug, PartialEq, Eq)]
pub enum NotOpen {
    /// No link was opened: the call failed.
    NoLink,
    /// The link is over before it was logged in.
    Over(Why),
}

impl Dialog {
    ghost use Rattle.io_traits.specs.declared.links.LinkEvent.{LinkEvent};
    ghost use Rattle.link_dialog.specs.Replies.{Reply};
    ghost use Rattle.link_dialog.specs.Dialog.{Message, message_of};
    ghost use Rattle.link_dialog.specs.TalkBlock.{IsBlockHeard, IsGroupHeard};
    ghost use Rattle.link_dialog.specs.Heard.{GroupKeepsLive};
    ghost use Rattle.link_dialog.specs.Talk.{Start, Stands, Rests, Awaits, Talked, IsOpen, IsNotOpen, IsSaid, IsHeard, IsAsked, IsLoggedIn, IsQuit, HasNoBlock, KeepsLive, OnNoLink, OpeningFailed, link_of_dialog, patience_of};

    /// Opens a link, hears its greeting and logs in, where a login is given (RFC 3977, 5.1, and RFC 4643, 2.3). The password is
    /// sent only where it is asked for. The link is over after `patience` quiet receives without anything else between.
    pub fn open<L: Links>(
        links: &mut L,
        address: &[u8],
        login: Option<&Login>,
        patience: u32,
    ) -> Result<Dialog, NotOpen>
        requires { 0 < patience }
        ensures faults { L.faults links.old ≤ L.faults links.new }

        // The link is open and logged in, or it is over, or there is none, for which the opening failed.
        ensures opened { IfOk result (λ dialog. IsOpen (record { before = L.trace links.old; address = address.now; login = option_copied login.entry }) (L.trace links.new) (L.live links.new) patience dialog) }
        ensures over { IfErr result (λ why. IsNotOpen (record { before = L.trace links.old; address = address.now; login = option_copied login.entry }) (L.trace links.new) patience why) }
        ensures cause { IfErr result (λ why. OnNoLink why (OpeningFailed (L.faults links.old) (L.faults links.new) (L.blame links.old) (L.blame links.new) address.now)) }
    {
        let dialog = match greet(links, address, patience) {
            Ok(dialog) => dialog,
            Err(why) => return Err(why),
        };
        match dialog.log_in(links, login) {
            Ok(()) => Ok(dialog),
            Err(why) => Err(NotOpen::Over(why)),
        }
    }

    /// Sends a message whole, once all that was said has its reply, or ends with the link.
    pub fn say<L: Links>(&self, links: &mut L, message: &[u8]) -> Result<(), Cut>
        requires live { slice_get (L.live links.old) (link_of_dialog self.now) ≡ Some true }
        requires some { 0 < length message.now }
        ensures faults { L.faults links.old ≤ L.faults links.new }
        ensures live { OnOk result (L.live links.new ≡ L.live links.old) }
        ensures said { (start : Start) (messages : List Message) (replies : List Reply) (kind : Awaited) →
            Rests start (L.trace links.old) self.now messages replies →
            IsSaid start (L.trace links.new) self.now messages (message_of kind message.now) replies result }
    {
        send_whole(links, self.link, message)
    }

    /// Hears the reply to the last message, which is one line, or ends with the link. Bytes behind the reply end the link.
    pub fn hear<L: Links>(&self, links: &mut L, kind: Awaited) -> Answer
        requires live { slice_get (L.live links.old) (link_of_dialog self.now) ≡ Some true }
        requires plain { HasNoBlock kind }
        ensures faults { L.faults links.old ≤ L.faults links.new }
        ensures live { KeepsLive (L.live links.old) (L.live links.new) result }
        ensures heard { (start : Start) (messages : List Message) (replies : List Reply) →
            Awaits start (L.trace links.old) self.now messages kind replies →
            IsHeard start (L.trace links.new) self.now messages kind replies result }
    {
        hear_reply(links, self.link, self.patience, kind)
    }

    /// Hears the reply to `GROUP`, or ends with the link (RFC 3977, 6.1.1). Bytes behind the reply end the link.
    pub fn hear_group<L: Links>(&self, links: &mut L) -> GroupAnswer
        requires { slice_get (L.live links.old) (link_of_dialog self.now) ≡ Some true }
        ensures faults { L.faults links.old ≤ L.faults links.new }
        ensures live { GroupKeepsLive (L.live links.old) (L.live links.new) result }
        ensures heard { (start : Start) (messages : List Message) (replies : List Reply) →
            Awaits start (L.trace links.old) self.now messages Awaited.Group replies →
            IsGroupHeard start (L.trace links.new) self.now messages replies result }
    {
        hear_group_reply(links, self.link, self.patience)
    }

    /// Hears the reply to the last message, which may have a block, or ends with the link (RFC 3977, 3.1.1). Bytes behind the
    /// reply end the link. The buffer is received into, whatever its length. `block` holds the bytes of the block then, with
    /// their dots and its end, or nothing where the reply has none. Where there was no room for them it holds nothing either,
    /// but the reply was heard to its end.
    pub fn hear_block<L: Links>(
        &self,
        links: &mut L,
        kind: Awaited,
        buf: &mut [u8],
        block: &mut Bytes,
    ) -> BlockAnswer
        requires live { slice_get (L.live links.old) (link_of_dialog self.now) ≡ Some true }
        requires room { 0 < length buf.old }
        ensures faults { L.faults links.old ≤ L.faults links.new }
        ensures live { KeepsLive (L.live links.old) (L.live links.new) result.answer }
        ensures heard { (start : Start) (messages : List Message) (replies : List Reply) →
            Awaits start (L.trace links.old) self.now messages kind replies →
            IsBlockHeard start (L.trace links.new) self.now messages kind replies result.kept block.new result.answer }
    {
        hear_long_reply(links, self.link, self.patience, kind, buf, block)
    }

    /// Says `QUIT`, or as much of it as goes out, and is done: the reply isn't read (RFC 3977, 5.4).
    pub fn quit<L: Links>(self, links: &mut L)
        requires { slice_get (L.live links.old) (link_of_dialog self) ≡ Some true }
        ensures faults { L.faults links.old ≤ L.faults links.new }
        ensures quits { (start : Start) (messages : List Message) (replies : List Reply) →
            Rests start (L.trace links.old) self messages replies →
            IsQuit start (L.trace links.new) self messages replies }
    {
        let mut line = [0; 512];
        let len = write_command(Command::Quit, &mut line);
        match send_whole(links, self.link, &line[..len]) {
            Ok(()) => {}
            Err(_) => {}
        }
    }

    // Says the commands of the login, each once the one before has its reply.
    fn log_in<L: Links>(&self, links: &mut L, login: Option<&Login>) -> Result<(), Why>
        requires { slice_get (L.live links.old) (link_of_dialog self.now) ≡ Some true }
        ensures faults { L.faults links.old ≤ L.faults links.new }
        ensures live { OnOk result (L.live links.new ≡ L.live links.old) }
        ensures logged_in { (before : Option (List LinkEvent)) (address : List ℕ) (greeting : Reply) →
            Stands (record { before = before; address = address; login = option_copied login.entry }) (L.trace links.old) (link_of_dialog self.now) (patience_of self.now) [] (greeting ∷ []) [] →
            IsLoggedIn (record { before = before; address = address; login = option_copied login.entry }) (L.trace links.new) self.now result }
    {
        let login = match login {
            Some(login) => login,
            None => return Ok(()),
        };
        let mut line = [0; 512];
        let len = write_command(Command::User(&login.user), &mut line);
        let code = match self.ask(links, &line[..len], Awaited::User) {
            Ok(code) => code,
            Err(why) => return Err(why),
        };
        if code != 381 {
            return Ok(());
        }
        let mut line = [0; 512];
        let len = write_command(Command::Pass(&login.pass), &mut line);
        match self.ask(links, &line[..len], Awaited::Pass) {
            Ok(_) => Ok(()),
            Err(why) => Err(why),
        }
    }

    // Says a message and hears its reply, which is one line.
    fn ask<L: Links>(&self, links: &mut L, message: &[u8], kind: Awaited) -> Result<u16, Why>
        requires live { slice_get (L.live links.old) (link_of_dialog self.now) ≡ Some true }
        requires some { 0 < length message.now }
        requires plain { HasNoBlock kind }
        ensures faults { L.faults links.old ≤ L.faults links.new }
        ensures live { OnOk result (L.live links.new ≡ L.live links.old) }
        ensures asked { (start : Start) (said : List Message) (replies : List Reply) →
            Stands start (L.trace links.old) (link_of_dialog self.now) (patience_of self.now) said replies [] →
            IsAsked start (L.trace links.new) (link_of_dialog self.now) (patience_of self.now) said (message_of kind message.now) replies result }
    {
        match send_whole(links, self.link, message) {
            Ok(()) => {}
            Err(_) => return Err(Why::Ended),
        }
        match hear_reply(links, self.link, self.patience, kind) {
            Answer::Code(code) => Ok(code),
            Answer::Unasked(_) => Err(Why::Unasked),
            Answer::Over(why) => Err(why),
        }
    }
}
