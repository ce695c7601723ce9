// A trace that is kept, with room for the end of each link that is live.
ghost use Rattle.std.specs.Prelude.{◌≡◌, ◌≤◌, ◌<◌, ◌+◌, ◌^◌, ◌++◌, [], ◌∷◌, Some, true, false, length, take, slice_get, slice_set, vec_len, vec_capacity, IfOk, OnOk, OnErr};
ghost use Rattle.io_memory.specs.Log.{count_live};

use io_traits::{Failed, LinkEvent};
use lists::{Bytes, Memory};
use std::alloc::Global;

/// What happened on all links of an object in memory, and which of them are live. A link that is opened takes the room for
/// its end, so that it can be told after memory ran out.
#[derive(Drop)]
pub struct LinkLog {
    events: Vec<LinkEvent>,
    live: Vec<bool>,
    ends: usize,
    ghost count: { ends ≡ count_live live.items },
    ghost few: { ends ≤ vec_len live },
    ghost many: { vec_len live ≤ 2 ^ 32 },
    ghost room: { vec_len events + ends ≤ vec_capacity events },
}

impl LinkLog {
    ghost use Rattle.io_memory.specs.LinkLog.{log_events, log_live};
    ghost use Rattle.io_traits.specs.Links.{opened_events, live_after_open};
    ghost use Rattle.io_traits.specs.declared.links.LinkEvent.TheVariants.{Sent, Heard, Quiet, Ended};

    /// A log of no link.
    pub fn new(alloc: Global) -> Self
        ensures events { log_events result ≡ [] }
        ensures live { log_live result ≡ [] }
    {
        LinkLog {
            events: Vec::new(alloc),
            live: Vec::new(alloc),
            ends: 0,
        }
    }

    /// All that happened.
    pub fn events(&self) -> &[LinkEvent]
        ensures { result.now ≡ log_events self.now }
    {
        &self.events
    }

    /// How many links were opened.
    pub fn opened(&self) -> usize
        ensures { result ≡ length (log_live self.now) }
    {
        self.live.len()
    }

    /// The allocator of what is kept.
    pub fn alloc(&self) -> Global {
        *self.events.allocator()
    }

    /// Opens the next link, and takes the room for its end. `Failed` changes nothing: there was no memory, or no number.
    #[tactic(auto, using(crate::proofs::Lives::one_more))]
    pub fn open(&mut self, address: &[u8]) -> Result<u32, Failed>
        ensures number { IfOk result (λ link. link ≡ length (log_live self.old)) }
        ensures live { log_live self.new ≡ live_after_open (log_live self.old) result }
        ensures events { log_events self.new ≡ log_events self.old ++ opened_events address.now result }
    {
        let number = self.live.len();
        if number > u32::MAX as usize {
            return Err(Failed);
        }
        let mut copy = Bytes::new(self.alloc());
        if copy.extend(address).is_err() {
            return Err(Failed);
        }
        if self.events.reserve(self.ends + 2).is_err() {
            return Err(Failed);
        }
        if self.live.push(true).is_err() {
            return Err(Failed);
        }
        self.ends += 1;
        let link = number as u32;
        match self.events.push(LinkEvent::Opened {
            link,
            address: copy,
        }) {
            Ok(()) => Ok(link),
            Err(_) => unreachable!(),
        }
    }

    /// Tells the bytes that went out.
    pub fn tell_sent(&mut self, link: u32, bytes: &[u8]) -> Result<(), Memory>
        ensures ok { OnOk result (log_events self.new ≡ log_events self.old ++ Sent link bytes.now ∷ []) }
        ensures err { OnErr result (log_events self.new ≡ log_events self.old) }
        ensures live { log_live self.new ≡ log_live self.old }
    {
        let mut copy = Bytes::new(self.alloc());
        copy.extend(bytes)?;
        self.tell(LinkEvent::Sent { link, bytes: copy })
    }

    /// Tells the bytes that came in.
    pub fn tell_heard(&mut self, link: u32, bytes: &[u8]) -> Result<(), Memory>
        ensures ok { OnOk result (log_events self.new ≡ log_events self.old ++ Heard link bytes.now ∷ []) }
        ensures err { OnErr result (log_events self.new ≡ log_events self.old) }
        ensures live { log_live self.new ≡ log_live self.old }
    {
        let mut copy = Bytes::new(self.alloc());
        copy.extend(bytes)?;
        self.tell(LinkEvent::Heard { link, bytes: copy })
    }

    /// Tells that a receive found nothing.
    pub fn tell_quiet(&mut self, link: u32) -> Result<(), Memory>
        ensures ok { OnOk result (log_events self.new ≡ log_events self.old ++ Quiet link ∷ []) }
        ensures err { OnErr result (log_events self.new ≡ log_events self.old) }
        ensures live { log_live self.new ≡ log_live self.old }
    {
        self.tell(LinkEvent::Quiet { link })
    }

    // Appends an event, where there is room for it beside the ends.
    fn tell(&mut self, event: LinkEvent) -> Result<(), Memory>
        ensures ok { OnOk result (log_events self.new ≡ log_events self.old ++ event ∷ []) }
        ensures err { OnErr result (log_events self.new ≡ log_events self.old) }
        ensures live { log_live self.new ≡ log_live self.old }
    {
        self.events.reserve(self.ends + 1)?;
        self.events.push(event)?;
        Ok(())
    }

    /// Ends a link that is live. The room for that is there.
    #[tactic(auto, using(crate::proofs::Lives::one_fewer))]
    pub fn end(&mut self, link: u32)
        requires { slice_get (log_live self.old) link ≡ Some true }
        ensures events { log_events self.new ≡ log_events self.old ++ Ended link ∷ [] }
        ensures live { log_live self.new ≡ slice_set (log_live self.old) link false }
    {
        self.live[link as usize] = false;
        self.ends -= 1;
        match self.events.push(LinkEvent::Ended { link }) {
            Ok(()) => (),
            Err(_) => unreachable!(),
        }
    }
}
