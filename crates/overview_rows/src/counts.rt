// Counts in subjects.
use overview_lines::{Count, count_of};

// Subjects, with where the last count of each starts and ends, and its numbers.
const COUNTS: [(&[u8], usize, usize, u32, u32); 14] = [
    (b"(1/5)", 0, 5, 1, 5),
    (b"a file \"b.bin\" yEnc (1/5)", 20, 25, 1, 5),
    (b"[2/9] - \"b.bin\" (3/5) yEnc", 16, 21, 3, 5),
    (b"(1/2) \"b.bin\" (2/3) yEnc", 14, 19, 2, 3),
    (b"(1/2)(2/3)", 5, 10, 2, 3),
    (b"((1/2)", 1, 6, 1, 2),
    (b"(1/2) (2/3", 0, 5, 1, 2),
    (b"(1/2) (0/3)", 0, 5, 1, 2),
    (b"(3/0)", 0, 5, 3, 0),
    (b"(7/3)", 0, 5, 7, 3),
    (b"(001/003)", 0, 9, 1, 3),
    (b"(9999999/0000000)", 0, 17, 9_999_999, 0),
    (b"x(0000001/9999999)y", 1, 18, 1, 9_999_999),
    (b"(1/(2/3)/4)", 3, 8, 2, 3),
];

// Subjects that have no count.
const WITHOUT: [&[u8]; 20] = [
    b"",
    b"(",
    b"()",
    b"(/)",
    b"(1)",
    b"(1/2",
    b"1/2)",
    b"[1/2]",
    b"(1/)",
    b"(/2)",
    b"(0/3)",
    b"(000/3)",
    b"(10000000/2)",
    b"(00000001/2)",
    b"(1/00000002)",
    b"( 1/2)",
    b"(1/2 )",
    b"(1 of 2)",
    b"(1//2)",
    b"(-1/2)",
];

#[test]
fn the_last_count_is_read(rt: HostRuntime) {
    for (subject, start, end, part, total) in &COUNTS {
        let wanted = Count {
            start: *start,
            end: *end,
            part: *part,
            total: *total,
        };
        assert!(rt; count_of(subject) == Some(wanted));
    }
    for subject in &WITHOUT {
        assert!(rt; count_of(subject).is_none());
    }
}
