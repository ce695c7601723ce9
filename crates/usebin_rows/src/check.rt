// The command `check`, on the top call over objects in memory.
use crate::fixtures::{ended, input_of, repeated, run, run_failing};
use row_fixtures::PartialInput;
use std::process::Abort;

const WORDS: [&str; 3] = ["check", "--nzb", "a.nzb"];

const EXAMPLE: &[u8] = b"<?xml version=\"1.0\" encoding=\"iso-8859-1\" ?>\n\
<!DOCTYPE nzb PUBLIC \"-//newzBin//DTD NZB 1.1//EN\" \"http://www.newzbin.com/DTD/nzb/nzb-1.1.dtd\">\n\
<nzb xmlns=\"http://www.newzbin.com/DTD/2003/nzb\">\n <head><meta type=\"category\">Test</meta></head>\n \
<file poster=\"A &lt;a@example.org&gt;\" date=\"1071674882\" subject=\"&quot;x.bin&quot; yEnc (1/2)\">\n  \
<groups><group>alt.binaries.test</group></groups>\n  <segments>\n   \
<segment bytes=\"102394\" number=\"1\">123@news.example.org</segment>\n   \
<segment bytes=\"4501\" number=\"2\">987@news.example.org</segment>\n  </segments>\n </file>\n</nzb>\n";

// Asserts what `check` of a text answers and writes to the output and to the sink for errors.
fn checks<R: Abort + AllocGlobal>(rt: &R, text: &[u8], status: u8, out: &[u8], err: &str) {
    let input = input_of(rt, "a.nzb", text);
    let ran = run(rt, &WORDS, input);
    ended(rt, ran, status, out, err);
}

#[test]
fn counts_files_segments_and_bytes(rt: HostRuntime) {
    let rows: [(&[u8], &[u8]); 4] = [
        (EXAMPLE, b"files 1\nsegments 2\nbytes 106895\n"),
        (b"<nzb/>", b"files 0\nsegments 0\nbytes 0\n"),
        (
            b"<nzb><file/><file><segments/></file></nzb>",
            b"files 2\nsegments 0\nbytes 0\n",
        ),
        (
            b"<nzb><file><segments><segment number='1' bytes='999999999999'>a</segment></segments><segments><segment \
              number='1'>b</segment></segments></file><file><segments><segment number='2' bytes='1'>c</segment>\
              </segments></file></nzb>",
            b"files 2\nsegments 3\nbytes 1000000000000\n",
        ),
    ];
    for (text, out) in rows {
        checks(&rt, text, 0, out, "");
    }
}

#[test]
fn names_the_place_and_the_reason(rt: HostRuntime) {
    let rows: [(&[u8], &str); 9] = [
        (b"<nzb>", "usebin: place 5 Ended\n"),
        (b"x", "usebin: place 0 Unexpected\n"),
        (b"<nzb a='&am'", "usebin: place 8 BadReference\n"),
        (b"<nzb><file></nzb>", "usebin: place 11 WrongTag\n"),
        (b"<nzb a='' a=''", "usebin: place 10 DoubleAttribute\n"),
        (
            b"<nzb><file><segments><segment bytes=\"1\">a</segment></segments></file></nzb>",
            "usebin: place 21 NoNumber\n",
        ),
        (b"<nzb><file date='x'", "usebin: place 11 BadNumber\n"),
        (
            b"<nzb><file><segments><segment number='1'> </segment></segments></file></nzb>",
            "usebin: place 21 BadId\n",
        ),
        (b"<!DOCTYPE nzb [", "usebin: place 14 Subset\n"),
    ];
    for (text, err) in rows {
        checks(&rt, text, 6, b"", err);
    }
}

#[test]
fn keeps_to_the_limits(rt: HostRuntime) {
    let files = repeated(&rt, b"<nzb>", b"<file/>", 10_000, b"</nzb>");
    checks(&rt, files.as_slice(), 6, b"", "usebin: limit files 9999\n");
    let segments = repeated(
        &rt,
        b"<nzb><file><segments>",
        b"<segment number='1'>a</segment>",
        262_145,
        b"</segments></file></nzb>",
    );
    checks(
        &rt,
        segments.as_slice(),
        6,
        b"",
        "usebin: limit segments 262144\n",
    );
    // A text that is too long is not read: a read of this input would be a short one.
    let ran = run(&rt, &WORDS, PartialInput::shrunk(67_108_865, 0));
    ended(&rt, ran, 6, b"", "usebin: limit text 67108864\n");
}

#[test]
fn tells_failed_calls_and_short_reads(rt: HostRuntime) {
    let ran = run(&rt, &WORDS, input_of(&rt, "b.nzb", EXAMPLE));
    ended(&rt, ran, 3, b"", "usebin: input fault\n");
    let ran = run(&rt, &WORDS, PartialInput::shrunk(9, 7));
    ended(&rt, ran, 6, b"", "usebin: short 7\n");
    let input = input_of(&rt, "a.nzb", EXAMPLE);
    let ran = run_failing(&rt, &WORDS, input, &[1], &[]);
    ended(&rt, ran, 4, b"", "usebin: output fault\n");
}
