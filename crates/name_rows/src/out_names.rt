// The name of a file in a subject, and the name under which it is written.
use article_head::{out_name, quoted_name};
use std::process::Abort;

#[test]
fn a_name_stands_between_the_first_and_the_last_quote(rt: HostRuntime) {
    let rows: [(&[u8], Option<&[u8]>); 9] = [
        (b"\"d\" yEnc (1/1)", Some(b"d")),
        (b"my files \"a b.bin\" yEnc (2/10)", Some(b"a b.bin")),
        (b"[1/2] \"a\" and \"b\" (1/1)", Some(b"a\" and \"b")),
        (b"\"\"", Some(b"")),
        (b"\"\"\"", Some(b"\"")),
        (b"a \"b", None),
        (b"\"", None),
        (b"a.bin yEnc (1/1)", None),
        (b"", None),
    ];
    for (subject, wanted) in rows {
        assert!(rt; quoted_name(subject) == wanted, "{subject:?}");
    }
}

// Asserts the name of a file.
fn is_named<R: Abort>(rt: &R, file: u32, subject: &[u8], wanted: &str) {
    assert!(rt; file < 9_999);
    assert!(rt; out_name(file, subject).as_str() == wanted, "{subject:?}");
}

#[test]
fn a_file_is_written_under_its_number_and_its_name(rt: HostRuntime) {
    let rows: [(u32, &[u8], &str); 8] = [
        (0, b"\"t\" yEnc (1/3)", "0001-t"),
        (0, b"\"big.bin\" yEnc (1/20)", "0001-big.bin"),
        (1, b"\"my file.txt\" yEnc (1/1)", "0002-my_file.txt"),
        (41, b"\"A-z_0.9\"", "0042-A-z_0.9"),
        (998, b"no quotes", "0999-file"),
        (998, b"\"\" yEnc (1/1)", "0999-file"),
        (9_998, b"\"\xc3\xa4\"", "9999-__"),
        (1_234, b"\"a\" \"b\"", "1235-a___b"),
    ];
    for (file, subject, wanted) in rows {
        is_named(&rt, file, subject, wanted);
    }
}

#[test]
fn no_name_leads_out_of_the_folder(rt: HostRuntime) {
    let rows: [(&[u8], &str); 6] = [
        (b"\"..\"", "0001-.."),
        (b"\".\"", "0001-."),
        (b"\"../../etc/passwd\"", "0001-.._.._etc_passwd"),
        (b"\"/etc/passwd\"", "0001-_etc_passwd"),
        (b"\"a\0b\"", "0001-a_b"),
        (b"\"C:\\a\"", "0001-C__a"),
    ];
    for (subject, wanted) in rows {
        is_named(&rt, 0, subject, wanted);
    }
}

#[test]
fn two_hundred_bytes_of_a_name_are_kept(rt: HostRuntime) {
    let mut subject = [b'n'; 203];
    subject[0] = b'"';
    subject[202] = b'"';
    assert!(rt; out_name(0, &subject).as_str().len() == 205);
    subject[201] = b'"';
    assert!(rt; out_name(0, &subject).as_str().len() == 205);
    subject[200] = b'"';
    subject[201] = b' ';
    subject[202] = b' ';
    assert!(rt; out_name(0, &subject).as_str().len() == 204);
}
