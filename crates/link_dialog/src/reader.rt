// One status line, read byte by byte.
ghost use Rattle.std.specs.Prelude.{◌≡◌, ◌<◌, ◌≤◌, ◌++◌, ◌∷◌, [], ℕ, List, length, IsTrue};
ghost use Rattle.link_dialog.specs.Judged.{IsJudgedBy};
ghost use Rattle.link_dialog.specs.Replies.{ends_line, is_meant, is_read, judged, refusal_of};

use crate::Awaited;
use nntp_lines::{Why, read_group, read_status};

/// What a byte did.
#[derive(Clone, Copy, Debug)]
pub enum Step {
    /// The status line goes on.
    More,
    /// The status line ended with this byte and has this code, which is meant.
    Line(u16),
    /// The link is over.
    Over(Why),
}

/// What was heard of a status line. Once it has ended, the line without its CRLF.
#[derive(Drop)]
pub struct Reader {
    line: [u8; 512],
    len: usize,
    ghost in_range: { len < 512 },
}

impl Reader {
    ghost use Rattle.link_dialog.specs.Reader.{HoldsRest, Says, GrowsAtMore, heard_len};

    /// Stands before a status line.
    pub fn new() -> Self
        ensures { HoldsRest result [] }
    {
        Reader {
            line: [0; 512],
            len: 0,
        }
    }

    /// Takes the next byte of a status line where a reply of this kind is awaited.
    pub fn step(&mut self, kind: Awaited, byte: u8) -> Step
        ensures grows { GrowsAtMore (heard_len self.old) (heard_len self.new) result }
        ensures says { (rest : List ℕ) → HoldsRest self.old rest → Says kind (rest ++ byte ∷ []) result self.new }
    {
        let rest = &self.line[..self.len];
        if ends_line(rest, byte) {
            let judgement = judged(kind, &rest[..rest.len() - 1]);
            self.len -= 1;
            step_of(judgement)
        } else if self.len == 511 {
            Step::Over(Why::NoReply)
        } else {
            self.line[self.len] = byte;
            self.len += 1;
            Step::More
        }
    }
}

impl Reader {
    ghost use Rattle.std.specs.Prelude.{◌+◌};
    ghost use Rattle.link_dialog.specs.Reader.{held};

    /// The bytes of the line so far, or of all of it without its CRLF.
    pub fn line(&self) -> &[u8]
        ensures { result.now ≡ held self.now }
    {
        &self.line[..self.len]
    }

    /// How many bytes the line has with its CRLF.
    pub fn len_with_end(&self) -> usize
        ensures { result ≡ length (held self.now) + 2 }
    {
        self.len + 2
    }
}

/// What a piece did: how many of its bytes were used, and what the last of them did.
#[derive(Clone, Copy)]
pub struct Fed {
    pub used: usize,
    pub step: Step,
}

impl Reader {
    ghost use Rattle.link_dialog.specs.Reader.{HoldsRest, heard_len, GrowsAtPiece};
    ghost use Rattle.link_dialog.specs.Fed.{IsFed, IsRead, EndsAt};
    ghost use Rattle.link_dialog.specs.Replies.{Reply};
    ghost use Rattle.link_dialog.specs.Moments.{IsListening, state_of};
    ghost use Rattle.io_traits.specs.declared.links.LinkEvent.{LinkEvent};

    /// Takes a piece of what is heard where a reply of this kind is awaited, up to the end of its status line.
    pub fn feed(&mut self, kind: Awaited, piece: &[u8]) -> Fed
        ensures used { result.used ≤ length piece.now }
        ensures some { 0 < length piece.now → 0 < result.used }
        ensures small { heard_len self.new < 512 }
        ensures grows { GrowsAtPiece (heard_len self.old) (heard_len self.new) (length piece.now) result.step }
        ensures reads { (rest : List ℕ) → HoldsRest self.old rest → IsRead kind rest piece.now result.used result.step self.new }
        ensures ends { (rest : List ℕ) → HoldsRest self.old rest → EndsAt kind rest piece.now result.used result.step }
        ensures fed { (patience link : ℕ) (asked : List ℕ → List Awaited) (moment : List LinkEvent) (replies : List Reply) (rest : List ℕ) →
            0 < patience → HoldsRest self.old rest → IsListening patience asked moment (state_of replies (kind ∷ []) rest) →
            IsFed patience link asked moment replies kind rest piece.now result.used result.step }
    {
        for i in 0..piece.len() {
            match self.step(kind, piece[i]) {
                Step::More => {}
                Step::Line(code) => {
                    return Fed {
                        used: i + 1,
                        step: Step::Line(code),
                    };
                }
                Step::Over(why) => {
                    return Fed {
                        used: i + 1,
                        step: Step::Over(why),
                    };
                }
            }
        }
        Fed {
            used: piece.len(),
            step: Step::More,
        }
    }
}

// What the end of a line does that was judged.
fn step_of(judgement: Result<u16, Why>) -> Step
    ensures { IsJudgedBy judgement result }
{
    match judgement {
        Ok(code) => Step::Line(code),
        Err(why) => Step::Over(why),
    }
}

// Whether a byte ends the line that these bytes begin.
fn ends_line(rest: &[u8], byte: u8) -> bool
    ensures value { result ≡ ends_line rest.now byte }
    ensures some { IsTrue result → 0 < length rest.now }
{
    byte == b'\n' && rest.len() > 0 && rest[rest.len() - 1] == b'\r'
}

// The code of a whole status line where a reply of this kind is awaited, or why it ends the link.
fn judged(kind: Awaited, line: &[u8]) -> Result<u16, Why>
    ensures { result ≡ judged kind line.now }
{
    match read_status(line) {
        Err(_) => Err(Why::NoReply),
        Ok(code) => {
            if !is_meant(kind, code) {
                Err(refusal(kind, code))
            } else if is_read(kind, code, line) {
                Ok(code)
            } else {
                Err(Why::NoReply)
            }
        }
    }
}

// Whether a code is taken as a reply of this kind.
fn is_meant(kind: Awaited, code: u16) -> bool
    ensures { result ≡ is_meant kind code }
{
    match kind {
        Awaited::Greeting => code == 200 || code == 201,
        Awaited::User => code == 281 || code == 381,
        Awaited::Pass => code == 281,
        Awaited::Post => code != 400,
        Awaited::Article => code == 240 || code == 441,
        Awaited::Group => code == 211 || (code >= 400 && code <= 599),
        Awaited::Over => code == 224 || (code >= 400 && code <= 599),
        Awaited::Body => code == 222 || (code >= 401 && code <= 499),
        Awaited::Quit => code == 205,
    }
}

// Whether a line with a code that is meant is read as a reply: one that chooses a newsgroup has its numbers.
fn is_read(kind: Awaited, code: u16, line: &[u8]) -> bool
    ensures { result ≡ is_read kind code line.now }
{
    match kind {
        Awaited::Group => code != 211 || read_group(line).is_some(),
        _ => true,
    }
}

// Why a link is over at a code that isn't meant.
fn refusal(kind: Awaited, code: u16) -> Why
    ensures { result ≡ refusal_of kind code }
{
    match kind {
        Awaited::Greeting => Why::Greeting(code),
        Awaited::User | Awaited::Pass => Why::Login(code),
        _ => Why::Odd(code),
    }
}
