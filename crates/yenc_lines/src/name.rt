// The name in a header line.
ghost use Rattle.std.specs.Prelude.{◌≡◌, ◌≤◌, ◌↔◌, length, IsTrue, IsSome, IfSome};
ghost use Rattle.yenc_lines.specs.Name.{IsName, has_no_line_end, is_line_end, is_trimmed};

use lists::Short;
use std::marker::Model;

// The greatest length in bytes.
const MOST: usize = 255;

/// The name of a file as a header line carries it (yEnc draft 1.3, "Headers and Trailers"): 1 to 255 bytes, no NUL, CR
/// or LF, and no space at either end. Contracts see the list of bytes.
#[derive(Clone, Debug, Drop)]
pub struct Name {
    text: Short<MOST>,
}

impl Model for Name {
    ghost use Rattle.std.specs.Prelude.{ℕ, List};
    ghost use Rattle.yenc_lines.specs.Name.{IsName};

    ghost Value = { List ℕ };

    ghost view = { λ name. name.text };

    ghost invariant = { λ name. IsName name.text };
}

impl Name {
    /// These bytes as a name, or `None` where they break the rule.
    pub fn new(bytes: &[u8]) -> Option<Name>
        ensures rule { IsSome result ↔ IsName bytes.now }
        ensures same { IfSome result (λ name. name ≡ bytes.now) }
    {
        if !is_name(bytes) {
            return None;
        }
        let text = Short::new(bytes)?;
        Some(Name { text })
    }

    /// All bytes, in order.
    pub fn as_slice(&self) -> &[u8]
        ensures bytes { result.now ≡ self.now }
        ensures rule { IsName self.now }
    {
        self.text.as_slice()
    }
}

fn is_name(bytes: &[u8]) -> bool
    ensures { IsTrue result ↔ IsName bytes.now }
{
    !bytes.is_empty() && bytes.len() <= MOST && has_no_line_end(bytes) && is_trimmed(bytes)
}

fn has_no_line_end(bytes: &[u8]) -> bool
    ensures { result ≡ has_no_line_end bytes.now }
{
    bytes.iter().all(|byte| !is_line_end(*byte))
}

fn is_line_end(byte: u8) -> bool
    ensures { result ≡ is_line_end byte }
{
    matches!(byte, 0 | b'\n' | b'\r')
}

fn is_trimmed(bytes: &[u8]) -> bool
    requires { 1 ≤ length bytes.now }
    ensures { result ≡ is_trimmed bytes.now }
{
    bytes[0] != b' ' && bytes[bytes.len() - 1] != b' '
}
