// Links to servers.
ghost use Rattle.std.specs.Prelude.{◌≡◌, ◌≤◌, ◌<◌, ℕ, Bool, List, length, slice_get, true, Option, Some, IfOk, IsTrue, All};
ghost use Rattle.io_traits.specs.Causes.{HasCause, BlamesNamed, blame_after};
ghost use Rattle.io_traits.specs.Links.{tell, opened_events, sent_events, heard_events, live_after_open, live_after_send, live_after_receive, GotFits, GotHasCause, blame_after_receive};

use crate::Failed;
use lists::Bytes;

/// What happened on a link.
#[derive(Drop)]
pub enum LinkEvent {
    /// The link was opened to this address.
    Opened { link: u32, address: Bytes },
    /// These bytes went out.
    Sent { link: u32, bytes: Bytes },
    /// These bytes came in.
    Heard { link: u32, bytes: Bytes },
    /// A receive found nothing to give.
    Quiet { link: u32 },
    /// The link was closed, or a call on it failed.
    Ended { link: u32 },
}

/// What a receive got.
#[derive(Clone, Copy, Debug, PartialEq, Eq)]
pub enum Got {
    /// So many bytes, at the front of the buffer.
    Bytes(usize),
    /// Nothing yet.
    Quiet,
    /// The link's end.
    Closed,
    /// A fault, which ends the link.
    Failed,
}

/// Links, numbered from 0 in the order in which they were opened.
pub trait Links {
    ghost use Rattle.io_traits.specs.declared.blame.Blame.{Blame};
    ghost use Rattle.io_traits.specs.declared.links.LinkEvent.{LinkEvent};

    /// A count that rises at each call that fails, up to the greatest `u64`.
    ghost faults: { Self → ℕ };

    /// For each link that was opened, in order, whether it is live: it hasn't ended.
    ghost live: { Self → List Bool };

    /// All that happened, where it is told.
    ghost trace: { Self → Option (List LinkEvent) };

    /// The last call that failed, where that is told.
    ghost blame: { Self → Option (Option Blame) };

    /// Whether links that wait are heard in the order in which they are given.
    ghost keeps_turns: { Bool };

    /// Opens a link to an address, and answers its number. A failed opening tells nothing. An opening whose number
    /// would pass the greatest `u32` fails.
    fn open(&mut self, address: &[u8]) -> Result<u32, Failed>
        // A failed call has raised the count of faults, and no other has.
        ensures cause { HasCause (faults self.old) (faults self.new) result }
        ensures blame { BlamesNamed (blame self.old) (blame self.new) (Blame.Open address.now) result }

        // The new link has the next number and is live. A failed opening changes nothing.
        ensures number { IfOk result (λ link. link ≡ length (live self.old)) }
        ensures live { live self.new ≡ live_after_open (live self.old) result }
        ensures trace { trace self.new ≡ tell (trace self.old) (opened_events address.now result) };

    /// Sends a front of the piece on a live link, and answers how many bytes went out. `Failed` ends the link.
    fn send(&mut self, link: u32, bytes: &[u8]) -> Result<usize, Failed>
        requires live { slice_get (live self.old) link ≡ Some true }
        requires some { 0 < length bytes.now }

        // A failed call has raised the count of faults, and no other has.
        ensures cause { HasCause (faults self.old) (faults self.new) result }
        ensures blame { blame self.new ≡ blame_after (blame self.old) (Blame.Send link) result }

        // At least one byte went out, and what went out is told. A failed call ends the link, and that is told.
        ensures count { IfOk result (λ n. (0 < n) × (n ≤ length bytes.now)) }
        ensures live { live self.new ≡ live_after_send (live self.old) link result }
        ensures trace { trace self.new ≡ tell (trace self.old) (sent_events link bytes.now result) };

    /// Receives on a live link to the front of a buffer, behind which the buffer may hold anything. `Closed` and
    /// `Failed` end the link.
    fn receive(&mut self, link: u32, buf: &mut [u8]) -> Got
        requires live { slice_get (live self.old) link ≡ Some true }
        requires room { 0 < length buf.old }

        // A failed call has raised the count of faults, and no other has.
        ensures cause { GotHasCause (faults self.old) (faults self.new) result }
        ensures blame { blame self.new ≡ blame_after_receive (blame self.old) (Blame.Receive link) result }

        // At least one byte came in, and what came in is told, or that nothing did. `Closed` and `Failed` end the link,
        // and that is told.
        ensures count { GotFits (length buf.old) result }
        ensures live { live self.new ≡ live_after_receive (live self.old) link result }
        ensures trace { trace self.new ≡ tell (trace self.old) (heard_events link buf.new result) };

    /// The place in `waiting`, counted from 0, of the link to receive on next. An object that keeps turns answers the
    /// first; another one may answer a link that has something to give, or wait a moment for one.
    fn first_ready(&mut self, waiting: &[u32]) -> usize
        requires some { 0 < length waiting.now }
        requires live { All (λ link. slice_get (live self.old) link ≡ Some true) waiting.now }

        ensures place { result < length waiting.now }
        ensures turns { IsTrue keeps_turns → result ≡ 0 }

        // Nothing happens on a link, and no call has failed.
        ensures faults { faults self.new ≡ faults self.old }
        ensures blame { blame self.new ≡ blame self.old }
        ensures live { live self.new ≡ live self.old }
        ensures trace { trace self.new ≡ trace self.old }
    {
        let _waiting = waiting;
        0
    }
}
