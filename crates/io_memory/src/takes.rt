// How much of its piece each send on links in memory takes.
ghost use Rattle.std.specs.Prelude.{◌≡◌, drop};

use lists::List;

/// The most that each send takes, in turn; behind the last one a send takes all.
#[derive(Drop)]
pub(crate) struct Takes {
    most: List<usize>,
    place: usize,
}

impl Takes {
    ghost use Rattle.io_memory.specs.Sends.{taken, takes_left};

    /// Takes of which none is over.
    pub(crate) fn new(most: List<usize>) -> Self
        ensures { takes_left result ≡ most }
    {
        Takes { most, place: 0 }
    }

    /// How many bytes of so many the next send takes: at least one, where there is one.
    pub(crate) fn next(&mut self, len: usize) -> usize
        ensures taken { result ≡ taken (takes_left self.old) len }
        ensures left { takes_left self.new ≡ drop 1 (takes_left self.old) }
    {
        let most = self.most.as_slice();
        if self.place >= most.len() {
            return len;
        }
        let most = most[self.place];
        self.place += 1;
        len.min(most.max(1))
    }
}
