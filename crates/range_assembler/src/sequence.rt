// Ranges in order, in a tree that is balanced by how many stand on either side. No proof needs the balance: it is for speed alone.
ghost use Rattle.std.specs.Prelude.{◌≡◌, ◌<◌, ◌≤◌, ◌+◌, ◌^◌, [], ◌∷◌, ◌++◌, length, set, insert, remove, slice_get, slice_set, slice_index_or};
ghost use Rattle.range_assembler.specs.Before.{is_before, IsPlace};
ghost use Rattle.range_assembler.specs.Sequence.{ranges, IsCounted};
ghost use Rattle.range_assembler.specs.declared.sequence.Node.TheVariants.{Fork};

use std::marker::Model;
use std::mem;

/// A range of offsets of a file, and the segment that has it.
#[derive(Clone, Copy, Debug, PartialEq, Eq, Drop)]
pub struct Range {
    pub file: u32,
    pub segment: u32,
    pub first: u64,
    pub last: u64,
}

/// A list of ranges that is read and changed at any place in logarithmic time.
#[cycle(sequence)]
#[derive(Drop)]
pub struct Sequence {
    node: Node,
}

#[cycle(sequence)]
#[derive(Drop)]
enum Node {
    Leaf,
    // The left side and its count, the range, the right side and its count.
    Fork(Box<Sequence>, u32, Range, u32, Box<Sequence>),
}

impl Model for Sequence {
    ghost use Rattle.std.specs.Prelude.{List, length};
    ghost use Rattle.range_assembler.specs.declared.sequence.Range.{Range};

    ghost Value = { List Range };

    ghost use Rattle.range_assembler.specs.Sequence.{ranges, IsCounted};

    ghost view = { λ s. ranges s.node };

    ghost invariant = { λ s. IsCounted s.node };

    ghost size = { length };

    ghost use Rattle.std.proofs.Common.{arith, length-append};

    ghost size_decreases = { λ s h. Prim.grind (arith, length-append) };
}

fn is_before(file: u32, offset: u64, range: Range) -> bool
    ensures { result ≡ is_before file offset range }
{
    range.file < file || range.file == file && range.last < offset
}

impl Sequence {
    /// No range, without memory.
    pub fn new() -> Self
        ensures { result ≡ [] }
    {
        Sequence { node: Node::Leaf }
    }

    /// How many ranges there are.
    pub fn len(&self) -> u32
        requires { length self.now < 2 ^ 32 }
        ensures { result ≡ length self.now }
    {
        match &self.node {
            Node::Leaf => 0,
            Node::Fork(_, before, _, after, _) => *before + 1 + *after,
        }
    }

    /// Puts a range in the place of the one that stands there.
    pub fn set(&mut self, place: u32, range: Range)
        requires { place < length self.old }
        ensures { self.new ≡ set self.old place range }
    {
        match &mut self.node {
            Node::Leaf => unreachable!(),
            Node::Fork(left, before, top, _, right) => {
                if place < *before {
                    left.set(place, range);
                } else if *before < place {
                    right.set(place - *before - 1, range);
                } else {
                    *top = range;
                }
            }
        }
    }

    /// The range at a place, counted from 0.
    pub fn get(&self, place: u32) -> Option<Range>
        ensures { result ≡ slice_get self.now place }
    {
        match &self.node {
            Node::Leaf => None,
            Node::Fork(left, before, range, _, right) => {
                if place < *before {
                    left.get(place)
                } else if place == *before {
                    Some(*range)
                } else {
                    right.get(place - *before - 1)
                }
            }
        }
    }

    /// The place of the first range that isn't before an offset of a file, where the ranges are in order.
    pub fn place(&self, file: u32, offset: u64) -> u32
        requires { length self.now < 2 ^ 32 }
        ensures { IsPlace file offset self.now result }
    {
        match &self.node {
            Node::Leaf => 0,
            Node::Fork(left, before, range, _, right) => {
                if is_before(file, offset, *range) {
                    *before + 1 + right.place(file, offset)
                } else {
                    left.place(file, offset)
                }
            }
        }
    }

    /// Puts a range at a place. The two boxes become the sides of the new node.
    pub fn insert(&mut self, place: u32, range: Range, sides: (Box<Sequence>, Box<Sequence>))
        requires place { place ≤ length self.old }
        requires few { length self.old + 1 < 2 ^ 32 }
        ensures { self.new ≡ insert self.old place range }
    {
        match &mut self.node {
            Node::Leaf => {
                let (mut left, mut right) = sides;
                *left = Sequence::new();
                *right = Sequence::new();
                self.node = Node::Fork(left, 0, range, 0, right);
                return;
            }
            Node::Fork(left, before, _, after, right) => {
                if place <= *before {
                    left.insert(place, range, sides);
                    *before += 1;
                } else {
                    right.insert(place - *before - 1, range, sides);
                    *after += 1;
                }
            }
        }
        balance(&mut self.node);
    }

    /// Takes the range at a place out, and gives the two boxes of a node back.
    pub fn remove(&mut self, place: u32) -> (Box<Sequence>, Box<Sequence>)
        requires place { place < length self.old }
        requires few { length self.old < 2 ^ 32 }
        ensures { self.new ≡ remove self.old place }
    {
        let sides;
        match mem::replace(&mut self.node, Node::Leaf) {
            Node::Leaf => unreachable!(),
            Node::Fork(mut left, before, range, after, mut right) => {
                if place < before {
                    sides = left.remove(place);
                    self.node = Node::Fork(left, before - 1, range, after, right);
                } else if before < place {
                    sides = right.remove(place - before - 1);
                    self.node = Node::Fork(left, before, range, after - 1, right);
                } else {
                    match right.get(0) {
                        None => {
                            self.node = mem::replace(&mut *left, Sequence::new()).open();
                            return (left, right);
                        }
                        Some(next) => {
                            sides = right.remove(0);
                            self.node = Node::Fork(left, before, next, after - 1, right);
                        }
                    }
                }
            }
        }
        balance(&mut self.node);
        sides
    }

    fn open(self) -> Node
        ensures same { ranges result ≡ self }
        ensures counted { IsCounted result }
    {
        self.node
    }

    fn close(node: Node) -> Self
        requires { IsCounted node }
        ensures { result ≡ ranges node }
    {
        Sequence { node }
    }
}

// Turns a node whose one side is much longer.
fn balance(node: &mut Node)
    requires counted { IsCounted node.old }
    requires few { length (ranges node.old) < 2 ^ 32 }
    ensures counted { IsCounted node.new }
    ensures same { ranges node.new ≡ ranges node.old }
{
    *node = match mem::replace(node, Node::Leaf) {
        Node::Leaf => Node::Leaf,
        Node::Fork(left, before, range, after, right) => {
            if before / 3 > after {
                turn_right(left, before, range, after, right)
            } else if after / 3 > before {
                turn_left(left, before, range, after, right)
            } else {
                Node::Fork(left, before, range, after, right)
            }
        }
    };
}

// Brings the first node of the left side to the top, or the node between where that side leans to the right.
fn turn_right(
    mut left: Box<Sequence>,
    before: u32,
    range: Range,
    after: u32,
    right: Box<Sequence>,
) -> Node
    requires before { before ≡ length left.value }
    requires after { after ≡ length right.value }
    requires few { length left.value + length right.value + 1 < 2 ^ 32 }
    ensures counted { IsCounted result }
    ensures same { ranges result ≡ left.value ++ range ∷ right.value }
{
    match mem::replace(&mut *left, Sequence::new()).open() {
        Node::Leaf => Node::Fork(left, 0, range, after, right),
        Node::Fork(outer, outer_count, top, inner_count, mut inner) => {
            if inner_count / 2 < outer_count {
                *left = Sequence::close(Node::Fork(inner, inner_count, range, after, right));
                return Node::Fork(outer, outer_count, top, inner_count + 1 + after, left);
            }
            match mem::replace(&mut *inner, Sequence::new()).open() {
                Node::Leaf => {
                    *left = Sequence::close(Node::Fork(inner, 0, range, after, right));
                    Node::Fork(outer, outer_count, top, 1 + after, left)
                }
                Node::Fork(low, low_count, middle, high_count, high) => {
                    *inner = Sequence::close(Node::Fork(outer, outer_count, top, low_count, low));
                    *left = Sequence::close(Node::Fork(high, high_count, range, after, right));
                    Node::Fork(
                        inner,
                        outer_count + 1 + low_count,
                        middle,
                        high_count + 1 + after,
                        left,
                    )
                }
            }
        }
    }
}

// The same the other way round.
fn turn_left(
    left: Box<Sequence>,
    before: u32,
    range: Range,
    after: u32,
    mut right: Box<Sequence>,
) -> Node
    requires before { before ≡ length left.value }
    requires after { after ≡ length right.value }
    requires few { length left.value + length right.value + 1 < 2 ^ 32 }
    ensures counted { IsCounted result }
    ensures same { ranges result ≡ left.value ++ range ∷ right.value }
{
    match mem::replace(&mut *right, Sequence::new()).open() {
        Node::Leaf => Node::Fork(left, before, range, 0, right),
        Node::Fork(mut inner, inner_count, top, outer_count, outer) => {
            if inner_count / 2 < outer_count {
                *right = Sequence::close(Node::Fork(left, before, range, inner_count, inner));
                return Node::Fork(right, before + 1 + inner_count, top, outer_count, outer);
            }
            match mem::replace(&mut *inner, Sequence::new()).open() {
                Node::Leaf => {
                    *right = Sequence::close(Node::Fork(left, before, range, 0, inner));
                    Node::Fork(right, before + 1, top, outer_count, outer)
                }
                Node::Fork(low, low_count, middle, high_count, high) => {
                    *inner = Sequence::close(Node::Fork(high, high_count, top, outer_count, outer));
                    *right = Sequence::close(Node::Fork(left, before, range, low_count, low));
                    Node::Fork(
                        right,
                        before + 1 + low_count,
                        middle,
                        high_count + 1 + outer_count,
                        inner,
                    )
                }
            }
        }
    }
}
