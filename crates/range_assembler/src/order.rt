// Ranges in order, each known by the number of a segment. All memory is taken at first: a number has the sides of a node until its
// range is among them.
ghost use Rattle.std.specs.Prelude.{◌≡◌, ◌<◌, ◌≤◌, ◌+◌, ◌^◌, [], true, length, set, insert, remove, slice_get, Some, IfOk};
ghost use Rattle.range_assembler.specs.Before.{IsPlace};
ghost use Rattle.range_assembler.specs.Order.{IsAbsent, clash_with, with_range, without_place};
ghost use Rattle.range_assembler.specs.declared.sequence.Range.{Range};

use crate::Clash;
use crate::sequence::{Range, Sequence};
use lists::Memory;
use std::alloc::Global;
use std::marker::Model;

/// Ranges in order. Contracts see them, and the number of segments.
#[derive(Drop)]
pub struct Order {
    taken: Sequence,
    // The two sides that a node needs, for each number that has no range.
    sides: Vec<Option<(Box<Sequence>, Box<Sequence>)>>,
}

impl Model for Order {
    ghost use Rattle.std.specs.Prelude.{ℕ, List, length};
    ghost use Rattle.range_assembler.specs.declared.sequence.Range.{Range};
    ghost use Rattle.range_assembler.specs.Sides.{HaveSides};

    ghost Value = { List Range × ℕ };

    ghost view = { λ o. (o.taken, length o.sides.items) };

    ghost invariant = { λ o. HaveSides o.sides.items o.taken };
}

impl Order {
    /// No range, and sides for so many segments.
    #[tactic(auto, using(crate::proofs::SidesLaws::pushed))]
    pub fn new(alloc: Global, segments: usize) -> Result<Self, Memory>
        ensures { IfOk result (λ order. order ≡ ([], segments)) }
    {
        let mut sides: Vec<Option<(Box<Sequence>, Box<Sequence>)>> = Vec::new(alloc);
        for done in 0..segments {
            let left = Box::new(alloc, Sequence::new())?;
            let right = Box::new(alloc, Sequence::new())?;
            sides.push(Some((left, right)))?;
        }
        Ok(Order {
            taken: Sequence::new(),
            sides,
        })
    }

    /// The place of the first range of the file that doesn't end before the offset, or of the first of a later file.
    pub fn place(&self, file: u32, offset: u64) -> u32
        requires { length self.now.0 < 2 ^ 32 }
        ensures { IsPlace file offset self.now.0 result }
    {
        self.taken.place(file, offset)
    }

    /// The range at a place.
    pub fn get(&self, place: u32) -> Option<Range>
        ensures { result ≡ slice_get self.now.0 place }
    {
        self.taken.get(place)
    }

    /// How many ranges there are.
    pub fn len(&self) -> u32
        requires { length self.now.0 < 2 ^ 32 }
        ensures { result ≡ length self.now.0 }
    {
        self.taken.len()
    }

    /// Puts a range of the same segment in the place of one.
    pub fn set(&mut self, place: u32, range: Range)
        requires place { place < length self.old.0 }
        requires same { (old : Range) → slice_get self.old.0 place ≡ Some old → old.segment ≡ range.segment }
        ensures ranges { self.new.0 ≡ set self.old.0 place range }
        ensures sides { self.new.1 ≡ self.old.1 }
    {
        self.taken.set(place, range);
    }

    /// Puts the range of a segment that has none at a place.
    pub fn insert(&mut self, place: u32, range: Range)
        requires place { place ≤ length self.old.0 }
        requires few { length self.old.0 + 1 < 2 ^ 32 }
        requires known { range.segment < self.old.1 }
        requires absent { IsAbsent range.segment self.old.0 }
        ensures ranges { self.new.0 ≡ insert self.old.0 place range }
        ensures sides { self.new.1 ≡ self.old.1 }
    {
        match self.sides[range.segment as usize].take() {
            Some(sides) => self.taken.insert(place, range, sides),
            None => unreachable!(),
        }
    }

    /// Takes the range at a place out.
    pub fn remove(&mut self, place: u32)
        requires place { place < length self.old.0 }
        requires few { length self.old.0 < 2 ^ 32 }
        requires known { (range : Range) → slice_get self.old.0 place ≡ Some range → range.segment < self.old.1 }
        ensures ranges { self.new.0 ≡ remove self.old.0 place }
        ensures sides { self.new.1 ≡ self.old.1 }
    {
        match self.taken.get(place) {
            Some(range) => {
                let sides = self.taken.remove(place);
                self.sides[range.segment as usize] = Some(sides);
            }
            None => unreachable!(),
        }
    }
}

/// The clash with a range that was found, if it shares an offset.
pub fn clash_with(found: Option<Range>, file: u32, first: u64, last: u64) -> Option<Clash>
    ensures { result ≡ clash_with file first last found }
{
    match found {
        Some(range) => {
            if range.file == file && range.first <= last && first <= last {
                Some(Clash {
                    other: range.segment,
                    first: range.first,
                    last: range.last,
                })
            } else {
                None
            }
        }
        None => None,
    }
}

/// Puts a range at its place, unless it is empty.
pub fn put(order: &mut Order, place: u32, range: Range)
    requires place { place ≤ length order.old.0 }
    requires few { length order.old.0 + 1 < 2 ^ 32 }
    requires known { range.segment < order.old.1 }
    requires absent { IsAbsent range.segment order.old.0 }
    ensures ranges { order.new.0 ≡ with_range place range order.old.0 }
    ensures sides { order.new.1 ≡ order.old.1 }
{
    if range.first <= range.last {
        order.insert(place, range);
    }
}

/// Takes the range at a place out, if it is shown there.
pub fn take_out(order: &mut Order, place: u32, shown: bool)
    requires place { shown ≡ true → place < length order.old.0 }
    requires few { length order.old.0 < 2 ^ 32 }
    requires known { (range : Range) → slice_get order.old.0 place ≡ Some range → range.segment < order.old.1 }
    ensures ranges { order.new.0 ≡ without_place place shown order.old.0 }
    ensures sides { order.new.1 ≡ order.old.1 }
{
    if shown {
        order.remove(place);
    }
}
