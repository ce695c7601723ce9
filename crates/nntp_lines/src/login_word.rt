// The name of a user, or a password.
ghost use Rattle.std.specs.Prelude.{◌≡◌, ◌↔◌, IsTrue, IsSome, IfSome};
ghost use Rattle.std.specs.Char.{is_ascii_graphic};
ghost use Rattle.std.specs.List.{list_all};
ghost use Rattle.nntp_lines.specs.LoginWord.{IsLoginWord};

use lists::Short;
use std::fmt;
use std::marker::Model;

// The greatest length in bytes.
const MOST: usize = 200;

/// The name of a user or a password, as a login sends it (RFC 4643, 2.3): 1 to 200 printable ASCII characters and no
/// space. Contracts see the list of bytes. Its `Debug` text doesn't show them, since they may be a password.
#[derive(Clone, Drop)]
pub struct LoginWord {
    text: Short<MOST>,
}

impl Model for LoginWord {
    ghost use Rattle.std.specs.Prelude.{ℕ, List};
    ghost use Rattle.nntp_lines.specs.LoginWord.{IsLoginWord};

    ghost Value = { List ℕ };

    ghost view = { λ word. word.text };

    ghost invariant = { λ word. IsLoginWord word.text };
}

// What it says isn't shown, since it may be a password.
impl fmt::Debug for LoginWord {
    fn fmt<W: fmt::Write>(&self, f: &mut fmt::Formatter<W>) -> fmt::Result {
        f.write_str("LoginWord(..)")
    }
}

impl LoginWord {
    /// These bytes as a word of a login, or `None` where they break the rule.
    pub fn new(bytes: &[u8]) -> Option<LoginWord>
        ensures rule { IsSome result ↔ IsLoginWord bytes.now }
        ensures same { IfSome result (λ word. word ≡ bytes.now) }
    {
        if !is_login_word(bytes) {
            return None;
        }
        let text = Short::new(bytes)?;
        Some(LoginWord { text })
    }

    /// All bytes, in order.
    pub fn as_slice(&self) -> &[u8]
        ensures bytes { result.now ≡ self.now }
        ensures rule { IsLoginWord self.now }
    {
        self.text.as_slice()
    }
}

fn is_login_word(bytes: &[u8]) -> bool
    ensures { IsTrue result ↔ IsLoginWord bytes.now }
{
    !bytes.is_empty() && bytes.len() <= MOST && are_graphic(bytes)
}

fn are_graphic(bytes: &[u8]) -> bool
    ensures { result ≡ list_all is_ascii_graphic bytes.now }
{
    bytes.iter().all(|byte| byte.is_ascii_graphic())
}
