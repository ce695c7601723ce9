// A store that creates no file and links of which none opens, for the commands that use neither. The fields that are never
// `Some` are there so that each condition of a call is one that some value meets.
ghost use Rattle.std.specs.Prelude.{◌≡◌, ◌==◌, ℕ, [], None, Some, IsErr, true, false, slice_get, slice_set, if◌then◌else◌};
ghost use Rattle.std.specs.Option.{option_to_list};
ghost use Rattle.io_traits.specs.Causes.{HasCause};
ghost use Rattle.io_traits.specs.Links.{GotHasCause};
ghost use Rattle.io_traits.specs.Store.{is_created, Creates};

use io_traits::{Failed, Got, Links, Store};

/// A store in which no file can be created: each call fails and is counted.
#[derive(Drop)]
pub struct NoStore {
    created: Option<u32>,
    faults: u64,
    failed: bool,
}

impl NoStore {
    /// A store without a file.
    pub fn new() -> Self
        ensures created { ⟦<NoStore as Store>⟧.created result ≡ [] }
        ensures last { ⟦<NoStore as Store>⟧.last_failed result ≡ false }
        ensures faults { ⟦<NoStore as Store>⟧.faults result ≡ 0 }
    {
        NoStore {
            created: None,
            faults: 0,
            failed: false,
        }
    }
}

impl Store for NoStore {
    ghost faults = { λ s. s.faults };

    ghost created = { λ s. option_to_list s.created };

    ghost last_failed = { λ s. s.failed };

    ghost told = { λ s. None };

    ghost blame = { λ s. None };

    fn create(&mut self, file: u32, _name: &str) -> Result<(), Failed>
        ensures fails { IsErr result }
        ensures cause { HasCause (⟦<NoStore as Store>⟧.faults self.old) (⟦<NoStore as Store>⟧.faults self.new) result }
        ensures last { ⟦<NoStore as Store>⟧.last_failed self.new ≡ true }
        ensures created { Creates (⟦<NoStore as Store>⟧.created self.old) (⟦<NoStore as Store>⟧.created self.new) file result }
    {
        self.created = other_than(self.created, file);
        self.faults = self.faults.saturating_add(1);
        self.failed = true;
        Err(Failed)
    }

    fn keep(&mut self, _file: u32, _name: &str) -> Result<(), Failed>
        ensures fails { IsErr result }
        ensures cause { HasCause (⟦<NoStore as Store>⟧.faults self.old) (⟦<NoStore as Store>⟧.faults self.new) result }
        ensures last { ⟦<NoStore as Store>⟧.last_failed self.new ≡ true }
        ensures created { ⟦<NoStore as Store>⟧.created self.new ≡ ⟦<NoStore as Store>⟧.created self.old }
    {
        self.faults = self.faults.saturating_add(1);
        self.failed = true;
        Err(Failed)
    }

    fn write_at(&mut self, _file: u32, _pos: u64, _bytes: &[u8]) -> Result<(), Failed>
        ensures fails { IsErr result }
        ensures cause { HasCause (⟦<NoStore as Store>⟧.faults self.old) (⟦<NoStore as Store>⟧.faults self.new) result }
        ensures last { ⟦<NoStore as Store>⟧.last_failed self.new ≡ true }
        ensures created { ⟦<NoStore as Store>⟧.created self.new ≡ ⟦<NoStore as Store>⟧.created self.old }
    {
        self.faults = self.faults.saturating_add(1);
        self.failed = true;
        Err(Failed)
    }

    fn set_len(&mut self, _file: u32, _len: u64) -> Result<(), Failed>
        ensures fails { IsErr result }
        ensures cause { HasCause (⟦<NoStore as Store>⟧.faults self.old) (⟦<NoStore as Store>⟧.faults self.new) result }
        ensures last { ⟦<NoStore as Store>⟧.last_failed self.new ≡ true }
        ensures created { ⟦<NoStore as Store>⟧.created self.new ≡ ⟦<NoStore as Store>⟧.created self.old }
    {
        self.faults = self.faults.saturating_add(1);
        self.failed = true;
        Err(Failed)
    }
}

/// Links of which none can be opened: each call fails and is counted.
#[derive(Drop)]
pub struct NoLinks {
    live: Option<bool>,
    faults: u64,
}

impl NoLinks {
    /// No link yet.
    pub fn new() -> Self
        ensures live { ⟦<NoLinks as Links>⟧.live result ≡ [] }
        ensures faults { ⟦<NoLinks as Links>⟧.faults result ≡ 0 }
    {
        NoLinks {
            live: None,
            faults: 0,
        }
    }
}

impl Links for NoLinks {
    ghost faults = { λ s. s.faults };

    ghost live = { λ s. option_to_list s.live };

    ghost trace = { λ s. None };

    ghost blame = { λ s. None };

    ghost keeps_turns = { true };

    fn open(&mut self, _address: &[u8]) -> Result<u32, Failed>
        ensures fails { IsErr result }
        ensures cause { HasCause (⟦<NoLinks as Links>⟧.faults self.old) (⟦<NoLinks as Links>⟧.faults self.new) result }
        ensures live { ⟦<NoLinks as Links>⟧.live self.new ≡ ⟦<NoLinks as Links>⟧.live self.old }
    {
        self.faults = self.faults.saturating_add(1);
        Err(Failed)
    }

    fn send(&mut self, link: u32, _bytes: &[u8]) -> Result<usize, Failed>
        requires { slice_get (⟦<NoLinks as Links>⟧.live self.old) link ≡ Some true }
        ensures fails { IsErr result }
        ensures cause { HasCause (⟦<NoLinks as Links>⟧.faults self.old) (⟦<NoLinks as Links>⟧.faults self.new) result }
        ensures live { ⟦<NoLinks as Links>⟧.live self.new ≡ slice_set (⟦<NoLinks as Links>⟧.live self.old) link false }
    {
        self.faults = self.faults.saturating_add(1);
        self.live = ended(self.live, link);
        Err(Failed)
    }

    fn receive(&mut self, link: u32, _buf: &mut [u8]) -> Got
        requires { slice_get (⟦<NoLinks as Links>⟧.live self.old) link ≡ Some true }
        ensures fails { result ≡ Got.Failed }
        ensures cause { GotHasCause (⟦<NoLinks as Links>⟧.faults self.old) (⟦<NoLinks as Links>⟧.faults self.new) result }
        ensures live { ⟦<NoLinks as Links>⟧.live self.new ≡ slice_set (⟦<NoLinks as Links>⟧.live self.old) link false }
    {
        self.faults = self.faults.saturating_add(1);
        self.live = ended(self.live, link);
        Got::Failed
    }
}

// The number, unless it is that one.
fn other_than(number: Option<u32>, gone: u32) -> Option<u32>
    ensures { (k : ℕ) → is_created (option_to_list result) k ≡ (if k == gone then false else is_created (option_to_list number) k) }
{
    match number {
        Some(number) if number != gone => Some(number),
        _ => None,
    }
}

// The one link that there may be, ended.
fn ended(live: Option<bool>, link: u32) -> Option<bool>
    requires { slice_get (option_to_list live) link ≡ Some true }
    ensures { option_to_list result ≡ slice_set (option_to_list live) link false }
{
    match live {
        Some(_) => Some(false),
        None => None,
    }
}
