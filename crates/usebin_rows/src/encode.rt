// The command `encode`, on the top call over objects in memory.
use crate::fixtures::{ended, input_of, run, run_failing};
use row_fixtures::{PartialInput, Ran};
use std::process::Abort;

#[test]
fn encodes_files_of_one_part(rt: HostRuntime) {
    let rows: [(&str, &[u8], &[u8]); 5] = [
        (
            "e",
            b"",
            b"=ybegin line=128 size=0 name=e\r\n=yend size=0 crc32=00000000\r\n",
        ),
        (
            "d",
            b"123456789",
            b"=ybegin line=128 size=9 name=d\r\n[\\]^_`abc\r\n=yend size=9 crc32=cbf43926\r\n",
        ),
        (
            "four",
            b"\xd6\xe0\xe3\x13",
            b"=ybegin line=128 size=4 name=four\r\n=@=J=M=}\r\n=yend size=4 crc32=7a740808\r\n",
        ),
        (
            "dot",
            b"\x04",
            b"=ybegin line=128 size=1 name=dot\r\n.\r\n=yend size=1 crc32=d56f2b94\r\n",
        ),
        (
            "space",
            b"\xf6",
            b"=ybegin line=128 size=1 name=space\r\n=`\r\n=yend size=1 crc32=86dcb8a4\r\n",
        ),
    ];
    for (name, content, text) in rows {
        let input = input_of(&rt, name, content);
        let ran = run(&rt, &["encode", "--input", name], input);
        ended(&rt, ran, 0, text, "");
    }
}

#[test]
fn names_the_file_by_the_last_part_of_its_path(rt: HostRuntime) {
    let input = input_of(&rt, "a/b c/my file", b"");
    let ran = run(&rt, &["encode", "--input", "a/b c/my file"], input);
    ended(
        &rt,
        ran,
        0,
        b"=ybegin line=128 size=0 name=my file\r\n=yend size=0 crc32=00000000\r\n",
        "",
    );
}

#[test]
fn escapes_a_tab_in_the_last_column(rt: HostRuntime) {
    let mut content = [0; 64];
    content[63] = 0xdf;
    let input = input_of(&rt, "n", &content);
    let ran = run(&rt, &["encode", "--input", "n", "--line", "64"], input);
    ended(
        &rt,
        ran,
        0,
        b"=ybegin line=64 size=64 name=n\r\n\
***************************************************************=I\r\n\
=yend size=64 crc32=63e1ac73\r\n",
        "",
    );
}

const ONCE: &[u8] = b"123456789";

const THRICE: &[u8] = b"123456789123456789123456789";

// The name of a file, its bytes, the words that ask for a part of it, and what is written.
const PARTS: [(&str, &[u8], &[&str], &[u8]); 6] = [
    (
        "t",
        THRICE,
        &["encode", "--input", "t", "--part-size", "9", "--part", "2"],
        b"=ybegin part=2 total=3 line=128 size=27 name=t\r\n=ypart begin=10 end=18\r\n\
[\\]^_`abc\r\n=yend size=9 part=2 pcrc32=cbf43926\r\n",
    ),
    (
        "d",
        ONCE,
        &["encode", "--input", "d", "--part-size", "9"],
        b"=ybegin line=128 size=9 name=d\r\n[\\]^_`abc\r\n=yend size=9 crc32=cbf43926\r\n",
    ),
    (
        "d",
        ONCE,
        &["encode", "--part", "2", "--part-size", "8", "--input", "d"],
        b"=ybegin part=2 total=2 line=128 size=9 name=d\r\n=ypart begin=9 end=9\r\n\
c\r\n=yend size=1 part=2 pcrc32=8d076785\r\n",
    ),
    (
        "t",
        THRICE,
        &[
            "encode",
            "--name",
            "a name",
            "--input",
            "t",
            "--part-size",
            "18",
        ],
        b"=ybegin part=1 total=2 line=128 size=27 name=a name\r\n=ypart begin=1 end=18\r\n\
[\\]^_`abc[\\]^_`abc\r\n=yend size=18 part=1 pcrc32=4b837ae4\r\n",
    ),
    (
        "e",
        b"",
        &["encode", "--input", "e", "--part-size", "1", "--part", "1"],
        b"=ybegin line=128 size=0 name=e\r\n=yend size=0 crc32=00000000\r\n",
    ),
    (
        "d/",
        ONCE,
        &["encode", "--input", "d/", "--name", "d"],
        b"=ybegin line=128 size=9 name=d\r\n[\\]^_`abc\r\n=yend size=9 crc32=cbf43926\r\n",
    ),
];

#[test]
fn encodes_the_asked_part(rt: HostRuntime) {
    for (name, content, words, text) in PARTS {
        let input = input_of(&rt, name, content);
        let ran = run(&rt, words, input);
        ended(&rt, ran, 0, text, "");
    }
}

// Asserts that a run was done, and that its text begins so.
fn begins<R: Abort>(rt: &R, ran: Ran, head: &[u8]) {
    assert!(rt; ran.status == 0 && ran.out.bytes().starts_with(head));
}

#[test]
fn reads_the_asked_part_alone(rt: HostRuntime) {
    let input = PartialInput::sparse(500_000_000_000, 1_998_000_000, 2_000_000_000);
    let ran = run(
        &rt,
        &[
            "encode",
            "--input",
            "big",
            "--part-size",
            "2000000",
            "--part",
            "1000",
        ],
        input,
    );
    let head = b"=ybegin part=1000 total=250000 line=128 size=500000000000 name=big\r\n\
=ypart begin=1998000001 end=2000000000\r\n";
    begins(&rt, ran, head);
}

#[test]
fn names_the_refused_word(rt: HostRuntime) {
    let rows: [(&[&str], &str); 5] = [
        (&[], "usebin: words 1\n"),
        (&["decode"], "usebin: words 2\n"),
        (&["encode", "--input", "d/"], "usebin: words 3\n"),
        (&["encode", "--input", "d", "--line"], "usebin: words 5\n"),
        (
            &["encode", "--input", "d", "--line", "64", "--line", "65"],
            "usebin: words 6\n",
        ),
    ];
    for (words, line) in rows {
        let input = input_of(&rt, "d", b"123456789");
        let ran = run(&rt, words, input);
        ended(&rt, ran, 2, b"", line);
    }
}

#[test]
fn tells_a_fault_of_the_input(rt: HostRuntime) {
    let input = input_of(&rt, "d", b"123456789");
    let ran = run(&rt, &["encode", "--input", "none"], input);
    ended(&rt, ran, 3, b"", "usebin: input fault\n");
}

#[test]
fn tells_a_fault_of_the_output(rt: HostRuntime) {
    let input = input_of(&rt, "d", b"123456789");
    let ran = run_failing(&rt, &["encode", "--input", "d"], input, &[1], &[]);
    ended(&rt, ran, 4, b"", "usebin: output fault\n");
}

#[test]
fn names_the_place_of_a_short_read(rt: HostRuntime) {
    let ran = run(&rt, &["encode", "--input", "d"], PartialInput::shrunk(9, 4));
    ended(&rt, ran, 6, b"", "usebin: short 4\n");
}

#[test]
fn names_the_limit_that_is_passed(rt: HostRuntime) {
    let rows: [(u64, &str, &str, &str); 7] = [
        (27, "9", "4", "usebin: limit part 3\n"),
        (0, "1", "2", "usebin: limit part 1\n"),
        (262_144, "1", "262145", "usebin: limit part 262144\n"),
        (262_145, "1", "1", "usebin: limit segments 262144\n"),
        (262_145, "1", "262146", "usebin: limit segments 262144\n"),
        (
            1_099_511_627_776,
            "16777216",
            "65537",
            "usebin: limit part 65536\n",
        ),
        (
            1_099_511_627_777,
            "1",
            "1",
            "usebin: limit file 1099511627776\n",
        ),
    ];
    for (size, part_size, part, line) in rows {
        let input = PartialInput::shrunk(size, 0);
        let words = [
            "encode",
            "--input",
            "d",
            "--part-size",
            part_size,
            "--part",
            part,
        ];
        let ran = run(&rt, &words, input);
        ended(&rt, ran, 6, b"", line);
    }
}

#[test]
fn names_the_place_of_a_short_read_in_a_part(rt: HostRuntime) {
    let ran = run(
        &rt,
        &["encode", "--input", "d", "--part-size", "4", "--part", "2"],
        PartialInput::shrunk(9, 6),
    );
    ended(&rt, ran, 6, b"", "usebin: short 6\n");
}
