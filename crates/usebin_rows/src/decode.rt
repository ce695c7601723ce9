// The command `decode`, on the top call over objects in memory.
use crate::fixtures::{ended, input_of, repeated, run, run_failing};
use io_memory::MemInput;
use row_fixtures::{PartialInput, Ran};
use std::process::Abort;

const WORDS: [&str; 3] = ["decode", "--input", "saved"];

// Asserts what `decode` of a text answers and writes to the output and to the sink for errors.
fn decodes<R: Abort + AllocGlobal>(rt: &R, text: &[u8], status: u8, out: &[u8], err: &str) {
    let ran = run(rt, &WORDS, input_of(rt, "saved", text));
    ended(rt, ran, status, out, err);
}

#[test]
fn decodes_a_body_with_either_line_end(rt: HostRuntime) {
    let rows: [&[u8]; 3] = [
        b"=ybegin line=128 size=9 name=d\r\n[\\]^_`abc\r\n=yend size=9 crc32=cbf43926\r\n",
        b"=ybegin line=128 size=9 name=d\n[\\]^_`abc\n=yend size=9 crc32=cbf43926\n",
        b"=ybegin line=128 size=9 name=d\n[\\]^_`abc\n=yend size=9 crc32=cbf43926",
    ];
    for text in rows {
        decodes(&rt, text, 0, b"123456789", "range 1-9 of 9\n");
    }
}

#[test]
fn decodes_a_part_and_tells_its_range(rt: HostRuntime) {
    let text =
        b"=ybegin part=2 total=3 line=128 size=27 name=t\r\n=ypart begin=10 end=18\r\n[\\]^_`abc\r\n=yend size=9 part=2 pcrc32=cbf43926\r\n";
    decodes(&rt, text, 0, b"123456789", "range 10-18 of 27\n");
}

#[test]
fn decodes_a_saved_article(rt: HostRuntime) {
    let text =
        b"From: x\n\n=ybegin part=1 total=1 line=128 size=9 name=my file.txt\n=ypart begin=1 end=9\n[\\]^_`abc\n=yend size=9 part=1 pcrc32=CBF43926 crc32=cbf43926\n";
    decodes(&rt, text, 0, b"123456789", "range 1-9 of 9\n");
    let empty = b"=ybegin line=128 size=0 name=e\r\n=yend size=0\r\n";
    decodes(&rt, empty, 0, b"", "range 1-0 of 0\n");
}

// Texts that are refused, and what is said of them.
const REFUSED: [(&[u8], &str); 18] = [
    (b"", "usebin: line 1 column 1 NoBegin\n"),
    (
        b"=ybegin line=128 size=9\n[\\]^_`abc\n=yend size=9 crc32=cbf43926\n",
        "usebin: line 1 column 1 BadBegin NoItem name\n",
    ),
    (
        b"=ybegin size=9x name=d\n",
        "usebin: line 1 column 1 BadBegin BadNumber size\n",
    ),
    (
        b"=ybegin size=9 size=9 name=d\n",
        "usebin: line 1 column 1 BadBegin Repeated size\n",
    ),
    (
        b"=ybegin size=9 name= \n",
        "usebin: line 1 column 1 BadBegin BadName\n",
    ),
    (
        b"=ybegin size=16777217 name=d\n",
        "usebin: line 1 column 1 PartRange\n",
    ),
    (
        b"=ybegin part=1 size=9 name=d\nabc\n",
        "usebin: line 2 column 1 NoPart\n",
    ),
    (
        b"=ybegin part=1 size=9 name=d\n=ypart end=9\n",
        "usebin: line 2 column 1 BadPart NoItem begin\n",
    ),
    (
        b"=ybegin line=128 size=2 name=d\na=\ra\n=yend size=2\n",
        "usebin: line 2 column 3 Stray\n",
    ),
    (
        b"=ybegin line=128 size=2 name=d\na=\n=yend size=2\n",
        "usebin: line 2 column 2 LoneEscape\n",
    ),
    (
        b"=ybegin line=128 size=8 name=d\n[\\]^_`abc\n=yend size=8\n",
        "usebin: line 2 column 9 TooMany\n",
    ),
    (
        b"=ybegin line=128 size=8 name=d\n=yfoo\n",
        "usebin: line 2 column 1 Keyword\n",
    ),
    (
        b"=ybegin line=128 size=9 name=d\n[\\]^_`abc\n",
        "usebin: line 3 column 1 NoEnd\n",
    ),
    (
        b"=ybegin line=128 size=9 name=d\n[\\]^_`abc\n=yend pcrc32=xyz\n",
        "usebin: line 3 column 1 BadEnd BadNumber pcrc32\n",
    ),
    (
        b"=ybegin part=1 size=9 name=d\n=ypart begin=1 end=9\n[\\]^_`abc\n=yend size=9 part=2\n",
        "usebin: line 4 column 1 EndPart 2 1\n",
    ),
    (
        b"=ybegin line=128 size=9 name=d\n[\\]^_`abc\n=yend size=8\n",
        "usebin: line 3 column 1 EndSize 8 9\n",
    ),
    (
        b"=ybegin line=128 size=10 name=d\n[\\]^_`abc\n=yend size=10\n",
        "usebin: line 3 column 1 TooFew 9 10\n",
    ),
    (
        b"=ybegin line=128 size=9 name=d\n[\\]^_`abc\n=yend size=9 crc32=1\n",
        "usebin: line 3 column 1 CrcDiffers 00000001 cbf43926\n",
    ),
];

#[test]
fn names_the_line_the_column_and_the_reason(rt: HostRuntime) {
    for (text, line) in REFUSED {
        decodes(&rt, text, 6, b"", line);
    }
}

#[test]
fn names_a_keyword_line_that_is_too_long(rt: HostRuntime) {
    let front = b"=ybegin line=128 size=0 name=e\n=yend size=0";
    let longest = repeated(&rt, front, b" ", 1012, b"");
    decodes(&rt, longest.as_slice(), 0, b"", "range 1-0 of 0\n");
    let longer = repeated(&rt, front, b" ", 1013, b"");
    let line = "usebin: line 2 column 1025 KeywordTooLong\n";
    decodes(&rt, longer.as_slice(), 6, b"", line);
}

// Asserts that `decode` of what `encode` is asked for gives these bytes of a file.
fn comes_back<R: Abort + AllocGlobal>(rt: &R, file: &[u8], words: &[&str], bytes: &[u8]) {
    let encoded = run(rt, words, input_of(rt, "file", file));
    let ran = run(rt, &WORDS, saved(rt, encoded));
    gave(rt, ran, bytes);
}

// What a run wrote, as a file to decode.
fn saved<R: Abort + AllocGlobal>(rt: &R, ran: Ran) -> MemInput {
    input_of(rt, "saved", ran.out.bytes())
}

// Asserts that a run gave these bytes.
fn gave<R: Abort>(rt: &R, ran: Ran, bytes: &[u8]) {
    assert!(rt; ran.status == 0 && ran.out.bytes() == bytes, "{bytes:?}");
}

// The same of a whole file, with lines of 64 and of 128 characters.
fn comes_back_whole<R: Abort + AllocGlobal>(rt: &R, file: &[u8]) {
    comes_back(rt, file, &["encode", "--input", "file"], file);
    comes_back(
        rt,
        file,
        &["encode", "--input", "file", "--line", "64"],
        file,
    );
}

// The same of the parts of 50 bytes of a file of 101 to 150.
fn comes_back_in_parts<R: Abort + AllocGlobal>(rt: &R, file: &[u8]) {
    for (part, start) in [("1", 0), ("2", 50), ("3", 100)] {
        let words = [
            "encode",
            "--input",
            "file",
            "--part-size",
            "50",
            "--part",
            part,
        ];
        let start = file.len().min(start);
        let end = file.len().min(start + 50);
        comes_back(rt, file, &words, &file[start..end]);
    }
}

#[test]
fn decodes_what_is_encoded(rt: HostRuntime) {
    comes_back_whole(&rt, b"");
    for value in 0..256u32 {
        comes_back_whole(&rt, &[value as u8]);
    }
}

#[test]
fn decodes_what_is_encoded_of_critical_bytes(rt: HostRuntime) {
    // those that are spelled NUL, LF, CR, `=`, TAB, space and `.`
    for value in [214, 224, 227, 19, 223, 246, 4] {
        for len in [63u32, 64, 65, 66] {
            let file = repeated(&rt, b"", &[value], len, b"");
            comes_back_whole(&rt, file.as_slice());
        }
        for len in [127u32, 128, 129, 130] {
            let file = repeated(&rt, b"", &[value], len, b"");
            comes_back_whole(&rt, file.as_slice());
            comes_back_in_parts(&rt, file.as_slice());
        }
    }
}

#[test]
fn a_text_may_have_67108864_bytes(rt: HostRuntime) {
    let ran = run(&rt, &WORDS, PartialInput::shrunk(67_108_865, 0));
    ended(&rt, ran, 6, b"", "usebin: limit text 67108864\n");
    let ran = run(&rt, &WORDS, PartialInput::shrunk(67_108_864, 3));
    ended(&rt, ran, 6, b"", "usebin: short 3\n");
}

// `decode` of a body, where the writes of these numbers fail.
fn decode_failing<R: Abort + AllocGlobal>(rt: &R, failing: &[u64], failing_errors: &[u64]) -> Ran {
    let text = b"=ybegin line=128 size=9 name=d\n[\\]^_`abc\n=yend size=9\n";
    let input = input_of(rt, "saved", text);
    run_failing(rt, &WORDS, input, failing, failing_errors)
}

#[test]
fn tells_the_range_before_a_fault_of_the_output(rt: HostRuntime) {
    let ran = decode_failing(&rt, &[1], &[]);
    ended(&rt, ran, 4, b"", "range 1-9 of 9\nusebin: output fault\n");
    // Where the range can't be told, nothing more is.
    let ran = decode_failing(&rt, &[1], &[1]);
    ended(&rt, ran, 4, b"", "");
    let ran = decode_failing(&rt, &[], &[1]);
    ended(&rt, ran, 0, b"123456789", "");
}

// Asserts what `decode --form wire` of a reply answers and writes.
fn decodes_reply<R: Abort + AllocGlobal>(rt: &R, text: &[u8], status: u8, out: &[u8], err: &str) {
    let words = ["decode", "--form", "wire", "--input", "saved"];
    let ran = run(rt, &words, input_of(rt, "saved", text));
    ended(rt, ran, status, out, err);
}

#[test]
fn decodes_a_reply_off_the_wire(rt: HostRuntime) {
    let reply =
        b"222 0 <a@b>\r\n=ybegin line=128 size=9 name=d\r\n[\\]^_`abc\r\n.=yend size=9 crc32=cbf43926\r\n.\r\n";
    decodes_reply(&rt, reply, 0, b"123456789", "range 1-9 of 9\n");
    // A dot that was doubled is one, and what ends no line is no end.
    let doubled = b"222\r\n=ybegin line=128 size=2 name=d\r\n..+\r\n=yend size=2\r\n.\r\n";
    decodes_reply(&rt, doubled, 0, b"\x04\x01", "range 1-2 of 2\n");
    let form = ["decode", "--form", "file", "--input", "saved"];
    let text = b"=ybegin line=128 size=9 name=d\n[\\]^_`abc\n=yend size=9\n";
    let ran = run(&rt, &form, input_of(&rt, "saved", text));
    ended(&rt, ran, 0, b"123456789", "range 1-9 of 9\n");
}

#[test]
fn names_what_is_wrong_with_a_reply(rt: HostRuntime) {
    let rows: [(&[u8], &str); 12] = [
        (b"", "usebin: reply NoReply\n"),
        (b"222 0", "usebin: reply NoReply\n"),
        // A lone LF ends no line, so that no block follows this one.
        (b"222 0\n.\r\n", "usebin: reply Unfinished\n"),
        (b"hello\r\n.\r\n", "usebin: reply NoReply\n"),
        (b".\r\n", "usebin: reply NoReply\n"),
        (b"430 none\r\n", "usebin: reply Code 430\n"),
        (b"220 0 <a@b>\r\n.\r\n", "usebin: reply Code 220\n"),
        (b"222 0\r\n", "usebin: reply Unfinished\n"),
        (
            b"222 0 <a@b>\r\n=ybegin line=128 size=9 name=d\r\n[\\]^_`abc\r\n.=yend size=9 crc32=cbf43926\r\n.\r",
            "usebin: reply Unfinished\n",
        ),
        (
            b"222 0 <a@b>\r\n=ybegin line=128 size=9 name=d\r\n[\\]^_`abc\r\n.=yend size=9 crc32=cbf43926\r\n.\r\nx",
            "usebin: reply Rest\n",
        ),
        (b"222 0\r\n.\r\n", "usebin: line 1 column 1 NoBegin\n"),
        (
            b"222 0\r\n=ybegin line=128 size=2 name=d\r\na\rb\r\n=yend size=2\r\n.\r\n",
            "usebin: line 2 column 2 Stray\n",
        ),
    ];
    for (text, line) in rows {
        decodes_reply(&rt, text, 6, b"", line);
    }
}

#[test]
fn a_status_line_off_the_wire_has_510_bytes_at_most(rt: HostRuntime) {
    for (len, line) in [
        (510u32, "usebin: line 1 column 1 NoBegin\n"),
        (511, "usebin: reply NoReply\n"),
    ] {
        let text = repeated(&rt, b"222 ", b"x", len - 4, b"\r\n.\r\n");
        decodes_reply(&rt, text.as_slice(), 6, b"", line);
    }
}
