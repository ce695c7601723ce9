// A file that is not what its opening says.
ghost use Rattle.std.specs.Prelude.{None};

use io_traits::{Failed, Input};

/// A file that has bytes at some places of its length alone: a read elsewhere gives none.
#[derive(Drop)]
pub struct PartialInput {
    size: u64,
    from: u64,
    to: u64,
    gives_one: bool,
    open_len: Option<u64>,
    shorts: u64,
    short_place: u64,
}

impl PartialInput {
    /// A file of which the opening says so many bytes, and which has so many. A read gives one of them.
    pub fn shrunk(said: u64, has: u64) -> Self {
        PartialInput::new(said, 0, has, true)
    }

    /// A file of this length, of which the bytes from one place up to another can be read.
    pub fn sparse(size: u64, from: u64, to: u64) -> Self {
        PartialInput::new(size, from, to, false)
    }

    fn new(size: u64, from: u64, to: u64, gives_one: bool) -> Self {
        PartialInput {
            size,
            from,
            to,
            gives_one,
            open_len: None,
            shorts: 0,
            short_place: 0,
        }
    }
}

impl Input for PartialInput {
    ghost faults = { λ s. 0 };

    ghost shorts = { λ s. s.shorts };

    ghost short_place = { λ s. s.short_place };

    ghost current = { λ s. s.open_len };

    ghost content = { λ s. None };

    ghost files = { λ s. None };

    ghost blame = { λ s. None };

    fn open(&mut self, _name: &str) -> Result<u64, Failed> {
        self.open_len = Some(self.size);
        Ok(self.size)
    }

    fn read_at(&mut self, pos: u64, buf: &mut [u8]) -> Result<usize, Failed> {
        if pos < self.from || self.to <= pos {
            self.shorts = self.shorts.saturating_add(1);
            self.short_place = pos;
            return Ok(0);
        }
        buf[0] = b'x';
        if self.gives_one {
            return Ok(1);
        }
        Ok(buf.len().min((self.to - pos) as usize))
    }
}
