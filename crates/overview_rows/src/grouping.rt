// Articles that are taken together to files.
use crate::file_fixtures::FileSaid;
use crate::grouping_fixtures::{Add, Grouping, groups};
use overview_index::{Added, GroupError};

// A repeat, and a subject without a count.
const OF_ONE_FILE: [Add<'_>; 4] = [
    (
        b"1\t\"x\" yEnc (2/2)\ta\t\t<i1@x>\t\t100\t1",
        0,
        Ok(Added::New),
    ),
    (
        b"2\t\"x\" yEnc (1/2)\ta\t\t<i2@x>\t\t200\t1",
        0,
        Ok(Added::New),
    ),
    (b"3\thello\ta\t\t<i3@x>\t\t300\t1", 0, Ok(Added::NoCount)),
    (
        b"4\t\"x\" yEnc (2/2)\ta\t\t<i4@x>\t\t400\t1",
        0,
        Ok(Added::Repeat),
    ),
];

// A file is known by its poster and its subject, whatever stands in the last count, in the order of first articles.
const OF_SIX_FILES: [Add<'_>; 7] = [
    (
        b"1\t[1/2] y (1/9)\ta\t\t<i1@x>\t\t100\t1",
        0,
        Ok(Added::New),
    ),
    (
        b"2\t[2/2] y (1/9)\ta\t\t<i2@x>\t\t100\t1",
        0,
        Ok(Added::New),
    ),
    (
        b"3\t[1/2] y (1/9)\tb\t\t<i3@x>\t\t100\t1",
        0,
        Ok(Added::New),
    ),
    (
        b"4\t[1/2] y (3/7)\ta\t\t<i4@x>\t\t100\t1",
        0,
        Ok(Added::New),
    ),
    (
        b"5\t[1/2] y (2/9) \ta\t\t<i5@x>\t\t100\t1",
        0,
        Ok(Added::New),
    ),
    (
        b"6\t(1/2) y (2/9)\ta\t\t<i6@x>\t\t100\t1",
        0,
        Ok(Added::New),
    ),
    (
        b"7\t(2/2) y (2/9)\ta\t\t<i7@x>\t\t100\t1",
        0,
        Ok(Added::New),
    ),
];

// The date is that of the first article, and 0 where that isn't read.
const OF_DATES: [Add<'_>; 4] = [
    (
        b"1\tx (1/2)\ta\tMon, 02 Jan 2006 15:04:05 +0000\t<i1@x>\t\t100\t1",
        0,
        Ok(Added::New),
    ),
    (
        b"2\tx (2/2)\ta\tMon, 02 Jan 2006 15:04:06 +0000\t<i2@x>\t\t100\t1",
        0,
        Ok(Added::New),
    ),
    (
        b"3\ty (1/2)\ta\tyesterday\t<i3@x>\t\t100\t1",
        0,
        Ok(Added::New),
    ),
    (
        b"4\ty (2/2)\ta\tMon, 02 Jan 2006 15:04:06 +0000\t<i4@x>\t\t100\t1",
        0,
        Ok(Added::New),
    ),
];

// The part of a number of the file `x`.
const PART: &[u8] = b"1\tx (#/1)\ta\t\t<p#@x>\t\t100\t1";

// The first part of the file of a number, and its second.
const FIRST: &[u8] = b"1\tx# (1/2)\ta\t\t<f#@x>\t\t100\t1";

const SECOND: &[u8] = b"1\tx# (2/2)\ta\t\t<f#@x>\t\t100\t1";

// The 262,145th segment is refused, and what was added stays: a part that is there is a repeat still.
const PAST_SEGMENTS: [Add<'_>; 4] = [
    (PART, 262_145, Err(GroupError::Segments)),
    (PART, 262_145, Err(GroupError::Segments)),
    (FIRST, 1, Err(GroupError::Segments)),
    (PART, 262_144, Ok(Added::Repeat)),
];

// The 10,000th file is refused, and what was added stays: a file that is there takes another part.
const PAST_FILES: [Add<'_>; 4] = [
    (FIRST, 10_000, Err(GroupError::Files)),
    (FIRST, 10_000, Err(GroupError::Files)),
    (FIRST, 9_999, Ok(Added::Repeat)),
    (SECOND, 9_999, Ok(Added::New)),
];

const GROUPINGS: [Grouping<'_>; 6] = [
    Grouping {
        repeated: b"",
        below: 1,
        adds: &[],
        count: 0,
        files: &[],
    },
    Grouping {
        repeated: b"",
        below: 1,
        adds: &OF_ONE_FILE,
        count: 1,
        files: &[FileSaid {
            place: 0,
            poster: b"a",
            date: 0,
            subject: b"\"x\" yEnc (2/2)",
            count: 2,
            segments: &[(0, 1, 200, b"i2@x"), (1, 2, 100, b"i1@x")],
        }],
    },
    Grouping {
        repeated: b"",
        below: 1,
        adds: &OF_SIX_FILES,
        count: 6,
        files: &[
            FileSaid {
                place: 0,
                poster: b"a",
                date: 0,
                subject: b"[1/2] y (1/9)",
                count: 2,
                segments: &[],
            },
            FileSaid {
                place: 1,
                poster: b"a",
                date: 0,
                subject: b"[2/2] y (1/9)",
                count: 1,
                segments: &[],
            },
            FileSaid {
                place: 2,
                poster: b"b",
                date: 0,
                subject: b"[1/2] y (1/9)",
                count: 1,
                segments: &[],
            },
            FileSaid {
                place: 3,
                poster: b"a",
                date: 0,
                subject: b"[1/2] y (2/9) ",
                count: 1,
                segments: &[],
            },
            FileSaid {
                place: 4,
                poster: b"a",
                date: 0,
                subject: b"(1/2) y (2/9)",
                count: 1,
                segments: &[],
            },
            FileSaid {
                place: 5,
                poster: b"a",
                date: 0,
                subject: b"(2/2) y (2/9)",
                count: 1,
                segments: &[],
            },
        ],
    },
    Grouping {
        repeated: b"",
        below: 1,
        adds: &OF_DATES,
        count: 2,
        files: &[
            FileSaid {
                place: 0,
                poster: b"a",
                date: 1_136_214_245,
                subject: b"x (1/2)",
                count: 2,
                segments: &[],
            },
            FileSaid {
                place: 1,
                poster: b"a",
                date: 0,
                subject: b"y (1/2)",
                count: 2,
                segments: &[],
            },
        ],
    },
    Grouping {
        repeated: PART,
        below: 262_145,
        adds: &PAST_SEGMENTS,
        count: 1,
        files: &[FileSaid {
            place: 0,
            poster: b"a",
            date: 0,
            subject: b"x (1/1)",
            count: 262_144,
            segments: &[(262_143, 262_144, 100, b"p262144@x")],
        }],
    },
    Grouping {
        repeated: FIRST,
        below: 10_000,
        adds: &PAST_FILES,
        count: 9_999,
        files: &[
            FileSaid {
                place: 0,
                poster: b"a",
                date: 0,
                subject: b"x1 (1/2)",
                count: 1,
                segments: &[],
            },
            FileSaid {
                place: 9_998,
                poster: b"a",
                date: 0,
                subject: b"x9999 (1/2)",
                count: 2,
                segments: &[],
            },
        ],
    },
];

#[test]
fn articles_are_taken_together_to_files(rt: HostRuntime) {
    for grouping in &GROUPINGS {
        groups(&rt, grouping);
    }
}
