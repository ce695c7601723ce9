// Where the article of one part after another is made.
ghost use Rattle.std.specs.Prelude.{◌≡◌, ◌≤◌, length, Some, OnOk};
ghost use Rattle.input_files.specs.Reading.{reading};
ghost use Rattle.poster.specs.Said.{IsMade};
ghost use Rattle.poster.specs.Posting.{MakeEnds, made_on};
ghost use Rattle.poster.specs.Plan.{IsPlanOf};
ghost use Rattle.poster.specs.Settings.{AreSettings};

use crate::{Plan, Settings, write_article};
use input_files::{ReadError, read_part_into};
use io_traits::Input;
use lists::{Bytes, Lines};
use std::alloc::Global;

// The bytes of a part, and its article, in room that serves again.
#[derive(Drop)]
pub(crate) struct Desk {
    pub(crate) bytes: Bytes,
    // The lines of the article's head.
    pub(crate) head: Lines,
    // The block of the article, as it is sent.
    pub(crate) block: Bytes,
    // How many octets the article has before it is stuffed.
    pub(crate) octets: u64,
}

// Why the article of a part wasn't made.
#[derive(Clone, Copy)]
pub(crate) enum Unmade {
    Memory,
    // A call on the input failed.
    Input,
    // A read gave no byte at this place.
    Short(u64),
}

impl Desk {
    pub(crate) fn new(alloc: Global) -> Self {
        Desk {
            bytes: Bytes::new(alloc),
            head: Lines::new(alloc),
            block: Bytes::new(alloc),
            octets: 0,
        }
    }
}

// Reads a part, counted from 1, of the current file, and makes its article. After an error the desk may hold anything.
pub(crate) fn make_part<I: Input>(
    settings: &Settings,
    plan: &Plan,
    part: u32,
    input: &mut I,
    desk: &mut Desk,
) -> Result<(), Unmade>
    requires settings { AreSettings settings.now }
    requires plan { IsPlanOf settings.now plan.now.size plan.now }
    requires first { 1 ≤ part }
    requires last { part ≤ length plan.now.parts }
    requires current { I.current input.old ≡ Some plan.now.size }
    ensures made { OnOk result (IsMade settings.now plan.now.size (I.content input.old) part (made_on desk.new)) }
    ensures current { I.current input.new ≡ I.current input.old }
    ensures content { I.content input.new ≡ I.content input.old }
    ensures ends { MakeEnds plan.now.size (reading I.Input input.old input.new) result }
{
    let planned = &plan.parts.as_slice()[part as usize - 1];
    let place = planned.first - 1;
    let len = planned.len as usize;
    match read_part_into(place, len, input, &mut desk.bytes) {
        Ok(()) => {}
        Err(ReadError::Memory) => return Err(Unmade::Memory),
        Err(ReadError::Fault) => return Err(Unmade::Input),
        Err(ReadError::Short(at)) => return Err(Unmade::Short(at)),
        Err(ReadError::TooLong) => return Err(Unmade::Input),
    }
    match write_article(
        settings,
        plan,
        part,
        desk.bytes.as_slice(),
        &mut desk.head,
        &mut desk.block,
    ) {
        Ok(octets) => {
            desk.octets = octets;
            Ok(())
        }
        Err(_) => Err(Unmade::Memory),
    }
}
