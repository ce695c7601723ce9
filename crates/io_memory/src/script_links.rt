// Links in memory that follow a script.
ghost use Rattle.std.specs.Prelude.{◌≡◌, ◌≤◌, ◌<◌, [], ◌∷◌, ◌++◌, drop, length, slice_get, slice_set, Some, None, true, false, ◌⊎◌, IfOk, IsErr, OnErr, OnOk, Contains};
ghost use Rattle.io_traits.specs.Causes.{HasCause, BlamesNamed, Rose, blame_after, next_count};
ghost use Rattle.io_traits.specs.Links.{tell, opened_events, sent_events, heard_events, live_after_open, live_after_send, live_after_receive, GotFits, GotHasCause, blame_after_receive};
ghost use Rattle.io_memory.specs.Script.{due_on, got_of, left_after, left_of, rests_at, GivesPiece, OnFailed, UnlessFailed};
ghost use Rattle.io_memory.specs.Sends.{taken};

use crate::LinkLog;
use crate::script::{Place, Turn, take_turn};
use crate::takes::Takes;
use io_traits::{Blame, Failed, Got, LinkEvent, Links, opening, raised};
use lists::{List, Memory};
use std::alloc::Global;

/// Links in memory, each of which follows a script, with their trace. Chosen calls fail, and so does an opening for which
/// there is no script. A call for which there is no memory fails too.
#[derive(Drop)]
pub struct ScriptLinks {
    scripts: List<List<Turn>>,
    places: Vec<Place>,
    failing: List<u64>,
    takes: Takes,
    log: LinkLog,
    calls: u64,
    faults: u64,
    blame: Option<Blame>,
    ghost placed: { length places.items ≡ length scripts },
    ghost scripted: { length log.live.items ≤ length scripts },
}

impl ScriptLinks {
    ghost use Rattle.io_memory.specs.ScriptLinks.{links_blame, links_calls, links_events, links_failing, links_faults, links_left, links_live, links_takes};
    ghost use Rattle.io_traits.specs.declared.links.LinkEvent.TheVariants.{Ended};

    /// Links of which none is open. The first that is opened follows the first script, and so on. `failing` has the
    /// numbers, from 1, of the calls that are to fail. A send takes its whole piece.
    pub fn new(alloc: Global, scripts: List<List<Turn>>, failing: List<u64>) -> Result<Self, Memory>
        ensures scripts { IfOk result (λ links. links_left links ≡ scripts) }
        ensures failing { IfOk result (λ links. links_failing links ≡ failing) }
        ensures takes { IfOk result (λ links. links_takes links ≡ []) }
        ensures live { IfOk result (λ links. links_live links ≡ []) }
        ensures events { IfOk result (λ links. links_events links ≡ []) }
        ensures calls { IfOk result (λ links. links_calls links ≡ 0) }
        ensures faults { IfOk result (λ links. links_faults links ≡ 0) }
        ensures blame { IfOk result (λ links. links_blame links ≡ None) }
    {
        ScriptLinks::with_sends(alloc, scripts, failing, List::new(alloc))
    }

    /// Links as `new` makes them, of which each send takes a part alone: the first one at most the first number of `takes`, and so on,
    /// on whichever link, and at least one byte. Behind the last number a send takes its whole piece.
    pub fn with_sends(
        alloc: Global,
        scripts: List<List<Turn>>,
        failing: List<u64>,
        takes: List<usize>,
    ) -> Result<Self, Memory>
        ensures scripts { IfOk result (λ links. links_left links ≡ scripts) }
        ensures failing { IfOk result (λ links. links_failing links ≡ failing) }
        ensures takes { IfOk result (λ links. links_takes links ≡ takes) }
        ensures live { IfOk result (λ links. links_live links ≡ []) }
        ensures events { IfOk result (λ links. links_events links ≡ []) }
        ensures calls { IfOk result (λ links. links_calls links ≡ 0) }
        ensures faults { IfOk result (λ links. links_faults links ≡ 0) }
        ensures blame { IfOk result (λ links. links_blame links ≡ None) }
    {
        let start = Place { turn: 0, given: 0 };
        let places = vec![in alloc; start; scripts.len()]?;
        Ok(ScriptLinks {
            scripts,
            places,
            failing,
            takes: Takes::new(takes),
            log: LinkLog::new(alloc),
            calls: 0,
            faults: 0,
            blame: None,
        })
    }

    /// All that happened, in order.
    pub fn events(&self) -> &[LinkEvent]
        ensures { result.now ≡ links_events self.now }
    {
        self.log.events()
    }

    // What a receive on a link gets, and the place in its script behind that. The turn isn't taken yet.
    fn next_on(&self, link: u32, buf: &mut [u8]) -> (Got, Place)
        requires link { link < length (links_live self.now) }
        requires room { 0 < length buf.old }
        ensures got { result.0 ≡ got_of (length buf.old) (due_on (links_left self.now) link) }
        ensures fits { GotFits (length buf.old) result.0 }
        ensures piece { GivesPiece result.0 buf.new (due_on (links_left self.now) link) }
        ensures left { rests_at (slice_set self.now.places.items link result.1) self.now.scripts
            ≡ slice_set (links_left self.now) link (left_of (length buf.old) (due_on (links_left self.now) link)) }
    {
        let at = link as usize;
        let script = self.scripts.as_slice()[at].as_slice();
        take_turn(script, self.places[at], buf)
    }

    // Counts a failed opening, and blames it.
    fn refuse_opening(&mut self, address: &[u8])
        ensures faults { links_faults self.new ≡ next_count (links_faults self.old) }
        ensures later { links_faults self.old ≤ links_faults self.new }
        ensures rose { Rose (links_faults self.old) (links_faults self.new) }
        ensures blame { (links_blame self.new ≡ Some (Blame.Open address.now)) ⊎ (links_blame self.new ≡ None) }
        ensures live { links_live self.new ≡ links_live self.old }
        ensures events { links_events self.new ≡ links_events self.old }
        ensures left { links_left self.new ≡ links_left self.old }
        ensures calls { links_calls self.new ≡ links_calls self.old }
        ensures failing { links_failing self.new ≡ links_failing self.old }
        ensures takes { links_takes self.new ≡ links_takes self.old }
    {
        self.faults = raised(self.faults);
        self.blame = opening(self.log.alloc(), address);
    }

    // Counts a failed call on a live link, blames it, and ends the link.
    fn fail(&mut self, link: u32, call: Blame)
        requires { slice_get (links_live self.old) link ≡ Some true }
        ensures faults { links_faults self.new ≡ next_count (links_faults self.old) }
        ensures later { links_faults self.old ≤ links_faults self.new }
        ensures rose { Rose (links_faults self.old) (links_faults self.new) }
        ensures blame { links_blame self.new ≡ Some call }
        ensures events { links_events self.new ≡ links_events self.old ++ Ended link ∷ [] }
        ensures live { links_live self.new ≡ slice_set (links_live self.old) link false }
        ensures left { links_left self.new ≡ links_left self.old }
        ensures calls { links_calls self.new ≡ links_calls self.old }
        ensures failing { links_failing self.new ≡ links_failing self.old }
        ensures takes { links_takes self.new ≡ links_takes self.old }
    {
        self.log.end(link);
        self.faults = raised(self.faults);
        self.blame = Some(call);
    }
}

impl Links for ScriptLinks {
    ghost use Rattle.io_memory.specs.ScriptLinks.{links_blame, links_calls, links_events, links_failing, links_faults, links_left, links_live, links_takes};

    ghost faults = { links_faults };

    ghost live = { links_live };

    ghost trace = { λ s. Some (links_events s) };

    ghost blame = { λ s. Some (links_blame s) };

    ghost keeps_turns = { true };

    /// Opens the next link, which follows the next script.
    fn open(&mut self, address: &[u8]) -> Result<u32, Failed>
        ensures cause { HasCause (links_faults self.old) (links_faults self.new) result }
        ensures blame { BlamesNamed (Some (links_blame self.old)) (Some (links_blame self.new)) (Blame.Open address.now) result }
        ensures number { IfOk result (λ link. link ≡ length (links_live self.old)) }
        ensures live { links_live self.new ≡ live_after_open (links_live self.old) result }
        ensures trace { Some (links_events self.new) ≡ tell (Some (links_events self.old)) (opened_events address.now result) }

        // The calls are counted, and those of the chosen numbers fail, and those past the last script.
        ensures calls { links_calls self.new ≡ next_count (links_calls self.old) }
        ensures counted { OnErr result (links_faults self.new ≡ next_count (links_faults self.old)) }
        ensures chosen { links_failing self.new ≡ links_failing self.old }
        ensures failing { Contains (links_failing self.old) (next_count (links_calls self.old)) → IsErr result }
        ensures scripted { OnOk result (length (links_live self.old) < length (links_left self.old)) }

        // No turn is taken, and no send.
        ensures left { links_left self.new ≡ links_left self.old }
        ensures takes { links_takes self.new ≡ links_takes self.old }
    {
        self.calls = raised(self.calls);
        if self.failing.as_slice().contains(&self.calls) {
            self.refuse_opening(address);
            return Err(Failed);
        }
        if self.log.opened() >= self.scripts.len() {
            self.refuse_opening(address);
            return Err(Failed);
        }
        match self.log.open(address) {
            Ok(link) => Ok(link),
            Err(Failed) => {
                self.refuse_opening(address);
                Err(Failed)
            }
        }
    }

    /// Sends as much of the piece as this send takes, unless this call's number is one of those that fail.
    fn send(&mut self, link: u32, bytes: &[u8]) -> Result<usize, Failed>
        requires live { slice_get (links_live self.old) link ≡ Some true }
        requires some { 0 < length bytes.now }
        ensures cause { HasCause (links_faults self.old) (links_faults self.new) result }
        ensures blame { Some (links_blame self.new) ≡ blame_after (Some (links_blame self.old)) (Blame.Send link) result }
        ensures count { IfOk result (λ n. (0 < n) × (n ≤ length bytes.now)) }
        ensures live { links_live self.new ≡ live_after_send (links_live self.old) link result }
        ensures trace { Some (links_events self.new) ≡ tell (Some (links_events self.old)) (sent_events link bytes.now result) }

        // The calls are counted, and those of the chosen numbers fail.
        ensures taken { IfOk result (λ n. n ≡ taken (links_takes self.old) (length bytes.now)) }
        ensures takes { links_takes self.new ≡ drop 1 (links_takes self.old) }
        ensures calls { links_calls self.new ≡ next_count (links_calls self.old) }
        ensures counted { OnErr result (links_faults self.new ≡ next_count (links_faults self.old)) }
        ensures chosen { links_failing self.new ≡ links_failing self.old }
        ensures failing { Contains (links_failing self.old) (next_count (links_calls self.old)) → IsErr result }

        // No turn is taken.
        ensures left { links_left self.new ≡ links_left self.old }
    {
        self.calls = raised(self.calls);
        let count = self.takes.next(bytes.len());
        if self.failing.as_slice().contains(&self.calls) {
            self.fail(link, Blame::Send(link));
            return Err(Failed);
        }
        match self.log.tell_sent(link, &bytes[..count]) {
            Ok(()) => Ok(count),
            Err(Memory) => {
                self.fail(link, Blame::Send(link));
                Err(Failed)
            }
        }
    }

    /// Receives what the link's script has next, unless this call's number is one of those that fail.
    fn receive(&mut self, link: u32, buf: &mut [u8]) -> Got
        requires live { slice_get (links_live self.old) link ≡ Some true }
        requires room { 0 < length buf.old }
        ensures cause { GotHasCause (links_faults self.old) (links_faults self.new) result }
        ensures blame { Some (links_blame self.new) ≡ blame_after_receive (Some (links_blame self.old)) (Blame.Receive link) result }
        ensures count { GotFits (length buf.old) result }
        ensures live { links_live self.new ≡ live_after_receive (links_live self.old) link result }
        ensures trace { Some (links_events self.new) ≡ tell (Some (links_events self.old)) (heard_events link buf.new result) }

        // What was due came, and the turns behind it are left.
        ensures due { UnlessFailed result (result ≡ got_of (length buf.old) (due_on (links_left self.old) link)) }
        ensures piece { GivesPiece result buf.new (due_on (links_left self.old) link) }
        ensures left { links_left self.new ≡ left_after (links_left self.old) link (length buf.old) result }
        ensures takes { links_takes self.new ≡ links_takes self.old }

        // The calls are counted, and those of the chosen numbers fail. The end of a link needs no memory to be told.
        ensures calls { links_calls self.new ≡ next_count (links_calls self.old) }
        ensures counted { OnFailed result (links_faults self.new ≡ next_count (links_faults self.old)) }
        ensures chosen { links_failing self.new ≡ links_failing self.old }
        ensures failing { Contains (links_failing self.old) (next_count (links_calls self.old)) → result ≡ Got.Failed }
        ensures ended { ¬ Contains (links_failing self.old) (next_count (links_calls self.old)) → got_of (length buf.old) (due_on (links_left self.old) link) ≡ Got.Closed → result ≡ Got.Closed }
    {
        self.calls = raised(self.calls);
        if self.failing.as_slice().contains(&self.calls) {
            self.fail(link, Blame::Receive(link));
            return Got::Failed;
        }
        let (got, behind) = self.next_on(link, buf);
        match got {
            Got::Bytes(n) => match self.log.tell_heard(link, &buf[..n]) {
                Ok(()) => {
                    self.places[link as usize] = behind;
                    Got::Bytes(n)
                }
                Err(Memory) => {
                    self.fail(link, Blame::Receive(link));
                    Got::Failed
                }
            },
            Got::Quiet => match self.log.tell_quiet(link) {
                Ok(()) => {
                    self.places[link as usize] = behind;
                    Got::Quiet
                }
                Err(Memory) => {
                    self.fail(link, Blame::Receive(link));
                    Got::Failed
                }
            },
            Got::Closed => {
                self.log.end(link);
                Got::Closed
            }
            Got::Failed => {
                self.fail(link, Blame::Receive(link));
                Got::Failed
            }
        }
    }
}
