// Where a line stands that has begun.
ghost use Rattle.std.specs.Prelude.{◌≡◌, ◌++◌, [], ◌∷◌, List, ℕ, IsTrue, ◌↔◌};
ghost use Rattle.dot_blocks.specs.Heard.{IsAt, EndsWithReturn};

/// What has come of a line, as far as it matters for its end.
#[derive(Clone, Copy, Debug, PartialEq, Eq)]
pub(crate) enum Place {
    /// Nothing.
    Start,
    /// A dot alone.
    Dot,
    /// A dot and a CR.
    DotReturn,
    /// Anything else with a CR at its end.
    Return,
    /// Anything else.
    Middle,
}

impl Place {
    /// Whether the line ends with a CR so far, so that a LF would end it.
    pub(crate) fn is_returned(self) -> bool
        ensures { (begun : List ℕ) → IsAt self begun → (IsTrue result ↔ EndsWithReturn begun) }
    {
        matches!(self, Place::DotReturn | Place::Return)
    }

    /// The place behind more bytes of the line. Behind three of them only the last one tells.
    pub(crate) fn after(self, bytes: &[u8]) -> Place
        ensures { (begun : List ℕ) → IsAt self begun → IsAt result (begun ++ bytes.now) }
    {
        match bytes.len() {
            0 => self,
            1 => self.next(bytes[0]),
            2 => self.next(bytes[0]).next(bytes[1]),
            len => {
                if bytes[len - 1] == b'\r' {
                    Place::Return
                } else {
                    Place::Middle
                }
            }
        }
    }

    // The place behind one more byte.
    fn next(self, byte: u8) -> Place
        ensures { (begun : List ℕ) → IsAt self begun → IsAt result (begun ++ byte ∷ []) }
    {
        match (self, byte) {
            (Place::Start, b'.') => Place::Dot,
            (Place::Dot, b'\r') => Place::DotReturn,
            (_, b'\r') => Place::Return,
            _ => Place::Middle,
        }
    }
}
