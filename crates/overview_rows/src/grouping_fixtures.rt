// Lines that are added to a grouper, and the index that it makes of them.
use crate::file_fixtures::{FileSaid, has_files};
use lists::{Bytes, Memory};
use nntp_lines::GroupName;
use numbers::write_dec;
use overview_index::{Added, GroupError, Grouper};
use overview_lines::read_over;
use std::alloc::Global;
use std::process::Abort;

/// A line in which `#` stands for a number, the number, and what a grouper answers of it.
pub(crate) type Add<'a> = (&'a [u8], u64, Result<Added, GroupError>);

/// What is added to a grouper, and what its index holds then.
pub(crate) struct Grouping<'a> {
    /// A line in which `#` stands for a number. It is added first, with each number below the next field, and is new each time.
    pub(crate) repeated: &'a [u8],
    pub(crate) below: u64,
    /// What is added then.
    pub(crate) adds: &'a [Add<'a>],
    /// How many files there are then.
    pub(crate) count: usize,
    /// Some of them.
    pub(crate) files: &'a [FileSaid<'a>],
}

/// Asserts what a grouper of the newsgroup `a.b` answers, and what its index holds.
pub(crate) fn groups<R: Abort + AllocGlobal>(rt: &R, wanted: &Grouping<'_>) {
    let group = GroupName::new(b"a.b").expect(rt, "the name of a newsgroup");
    let mut grouper = Grouper::new(rt.alloc(), group);
    for number in 1..wanted.below {
        grouper = adds(rt, grouper, (wanted.repeated, number, Ok(Added::New)));
    }
    for add in wanted.adds {
        grouper = adds(rt, grouper, *add);
    }
    let index = grouper.finish().expect(rt, "an index");
    assert!(rt; has_files(&index, wanted.count, wanted.files));
}

fn adds<R: Abort + AllocGlobal>(rt: &R, mut grouper: Grouper, add: Add<'_>) -> Grouper {
    let (text, number, wanted) = add;
    let line = line_of(rt.alloc(), text, number).expect(rt, "a line");
    let over = read_over(line.as_slice()).expect(rt, "a line that is read");
    assert_eq!(rt; grouper.add(&over), wanted);
    grouper
}

// A text with this number in place of each `#`.
fn line_of(alloc: Global, text: &[u8], number: u64) -> Result<Bytes, Memory> {
    let mut digits = [0; 20];
    let len = write_dec(number, &mut digits);
    let mut line = Bytes::new(alloc);
    for byte in text {
        if *byte == b'#' {
            line.extend(&digits[..len])?;
        } else {
            line.push(*byte)?;
        }
    }
    Ok(line)
}
