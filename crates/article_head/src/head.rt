// The head of a part's article.
ghost use Rattle.std.specs.Prelude.{◌≡◌, ◌≤◌, ◌+◌, ◌∷◌, ◌++◌, [], List, ℕ, length, take, OnOk, OnErr};
ghost use Rattle.article_head.specs.Field.{IsComment, IsFileName};
ghost use Rattle.article_head.specs.Head.{HasValidFields, lines_of_head, message_id_line, subject_line};

use crate::field::ROOM;
use crate::subject::put_subject;
use lists::{Lines, Memory};
use nntp_lines::MessageId;
use numbers::put;

/// What the head of a part's article says.
#[derive(Clone, Copy, Debug)]
pub struct Head<'a> {
    /// Who posts: 1 to 200 printable ASCII characters, with no space at either end (RFC 5536, 3.1.2).
    pub from: &'a [u8],
    /// Where to: 1 to 10 names of newsgroups with commas between them, at most 600 bytes (RFC 5536, 3.1.4).
    pub newsgroups: &'a [u8],
    /// What the subject begins with: 0 to 200 printable ASCII characters, with no space at either end.
    pub comment: &'a [u8],
    /// The name of the file: 1 to 255 printable ASCII characters, with no space at either end.
    pub name: &'a [u8],
    /// The number of the part, from 1.
    pub part: u32,
    /// How many parts the file has.
    pub total: u32,
    /// The message-id (RFC 5536, 3.1.3).
    pub id: &'a MessageId,
}

/// Appends the head of a part's article: the lines of its fields `From`, `Newsgroups`, `Subject` and `Message-ID`, and the
/// empty line behind them (RFC 5536, 2.2 and 3.1; the server adds `Date` and `Path`). Where memory runs out, the lines are
/// as they were.
pub fn write_head(head: &Head<'_>, out: &mut Lines) -> Result<(), Memory>
    requires { HasValidFields head.now }
    ensures ok { OnOk result (out.new ≡ out.old ++ lines_of_head head.now) }
    ensures err { OnErr result (out.new ≡ out.old) }
{
    let before = out.len();
    match append_head(head, out) {
        Ok(()) => Ok(()),
        Err(Memory) => {
            out.truncate(before);
            Err(Memory)
        }
    }
}

// The same, but it leaves the lines that it has appended where memory runs out.
fn append_head(head: &Head<'_>, out: &mut Lines) -> Result<(), Memory>
    requires { HasValidFields head.now }
    ensures ok { OnOk result (out.new ≡ out.old ++ lines_of_head head.now) }
    ensures err { OnErr result ((more : List (List ℕ)) × (out.new ≡ out.old ++ more)) }
{
    push_field(b"From: ", head.from, out)?;
    push_field(b"Newsgroups: ", head.newsgroups, out)?;
    push_subject(head, out)?;
    push_id(head.id, out)?;
    out.push(b"")
}

// Appends the line of a field: its name with the colon and the space behind it, and what it says.
fn push_field(name: &[u8], body: &[u8], out: &mut Lines) -> Result<(), Memory>
    requires { length name.now + length body.now ≤ 998 }
    ensures ok { OnOk result (out.new ≡ out.old ++ (name.now ++ body.now) ∷ []) }
    ensures err { OnErr result (out.new ≡ out.old) }
{
    let mut line = [0; ROOM];
    let at = put(&mut line, 0, name);
    let len = put(&mut line, at, body);
    out.push(&line[..len])
}

fn push_subject(head: &Head<'_>, out: &mut Lines) -> Result<(), Memory>
    requires comment { IsComment head.now.comment.now }
    requires name { IsFileName head.now.name.now }
    ensures ok { OnOk result (out.new ≡ out.old ++ subject_line head.now.comment.now head.now.name.now head.now.part head.now.total ∷ []) }
    ensures err { OnErr result (out.new ≡ out.old) }
{
    let mut line = [0; ROOM];
    let at = put(&mut line, 0, b"Subject: ");
    let len = put_subject(
        &mut line,
        at,
        head.comment,
        head.name,
        head.part,
        head.total,
    );
    out.push(&line[..len])
}

fn push_id(id: &MessageId, out: &mut Lines) -> Result<(), Memory>
    ensures ok { OnOk result (out.new ≡ out.old ++ message_id_line id.now ∷ []) }
    ensures err { OnErr result (out.new ≡ out.old) }
{
    let mut line = [0; ROOM];
    let len = put_id(&mut line, id);
    out.push(&line[..len])
}

// Puts the line of the message-id.
fn put_id(line: &mut [u8; ROOM], id: &MessageId) -> usize
    ensures text { take result line.new ≡ message_id_line id.now }
    ensures room { result ≤ 998 }
{
    let at = put(line, 0, b"Message-ID: <");
    let at = put(line, at, id.as_slice());
    put(line, at, b">")
}
