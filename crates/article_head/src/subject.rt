// The subject of a part's article.
ghost use Rattle.std.specs.Prelude.{◌≡◌, ◌≤◌, ◌+◌, ◌++◌, length, take, OnOk, OnErr};
ghost use Rattle.article_head.specs.Field.{IsComment, IsFileName};
ghost use Rattle.article_head.specs.Subject.{comment_text, subject_text};

use crate::field::ROOM;
use lists::{Bytes, Memory};
use numbers::{put, put_number};

/// Appends the subject of a part's article, as `COMMENT "NAME" yEnc (PART/TOTAL)`, or without the comment and the space
/// behind it where the comment is empty (yEnc draft 1.3, "Subject Line Conventions"). Where memory runs out, the bytes
/// are as they were.
///
/// The comment is 0 to 200 printable ASCII characters and the name 1 to 255, neither with a space at an end.
pub fn write_subject(
    comment: &[u8],
    name: &[u8],
    part: u32,
    total: u32,
    out: &mut Bytes,
) -> Result<(), Memory>
    requires comment { IsComment comment.now }
    requires name { IsFileName name.now }
    ensures ok { OnOk result (out.new ≡ out.old ++ subject_text comment.now name.now part total) }
    ensures err { OnErr result (out.new ≡ out.old) }
{
    let mut text = [0; ROOM];
    let len = put_subject(&mut text, 0, comment, name, part, total);
    out.extend(&text[..len])
}

// Puts the subject behind the first `at` bytes of a line, and answers where it ends.
#[tactic(auto, unfolding(crate::specs::Subject::subject_text))]
pub(crate) fn put_subject(
    line: &mut [u8; ROOM],
    at: usize,
    comment: &[u8],
    name: &[u8],
    part: u32,
    total: u32,
) -> usize
    requires at { at ≤ 16 }
    requires comment { length comment.now ≤ 200 }
    requires name { length name.now ≤ 255 }
    ensures text { take result line.new ≡ take at line.old ++ subject_text comment.now name.now part total }
    ensures end { result ≤ 600 }
{
    let at = put_comment(line, at, comment);
    let at = put(line, at, b"\"");
    let at = put(line, at, name);
    let at = put(line, at, b"\" yEnc (");
    let at = put_number(line, at, u64::from(part));
    let at = put(line, at, b"/");
    let at = put_number(line, at, u64::from(total));
    put(line, at, b")")
}

// Puts a comment and the space behind it, or nothing where there is no comment.
fn put_comment(line: &mut [u8; ROOM], at: usize, comment: &[u8]) -> usize
    requires at { at ≤ 16 }
    requires comment { length comment.now ≤ 200 }
    ensures text { take result line.new ≡ take at line.old ++ comment_text comment.now }
    ensures end { result ≤ at + 201 }
{
    if comment.is_empty() {
        return at;
    }
    let at = put(line, at, comment);
    put(line, at, b" ")
}
