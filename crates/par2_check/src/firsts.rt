// The first packet of each id.
ghost use Rattle.std.specs.Prelude.{◌≡◌, OnOk};
ghost use Rattle.par2_check.specs.Firsts.{first_in, with_first};

use indexmap::IndexMap;
use lists::Memory;
use std::alloc::Global;
use std::marker::Model;

/// A packet's number for each id. Contracts see the list of ids with their numbers.
#[derive(Drop)]
pub struct Firsts {
    numbers: IndexMap<[u8; 16], usize>,
}

impl Model for Firsts {
    ghost use Rattle.std.specs.Prelude.{List, ℕ};

    ghost Value = { List (List ℕ × ℕ) };

    ghost view = { λ firsts. firsts.numbers.entries };
}

impl Firsts {
    ghost use Rattle.std.specs.Prelude.{[]};

    /// No id. It takes no memory yet.
    pub fn new(alloc: Global) -> Self
        ensures { result ≡ [] }
    {
        Firsts {
            numbers: IndexMap::new(alloc),
        }
    }

    /// The number of an id.
    pub fn first(&self, id: &[u8; 16]) -> Option<usize>
        ensures { result ≡ first_in id.now self.now }
    {
        self.numbers.get(id).copied()
    }

    /// Puts a number to an id that has none.
    pub fn add(&mut self, id: [u8; 16], number: usize) -> Result<(), Memory>
        ensures { OnOk result (self.new ≡ with_first id number self.old) }
    {
        if self.first(&id).is_some() {
            return Ok(());
        }
        self.numbers.insert(id, number)?;
        Ok(())
    }
}
