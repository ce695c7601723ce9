// What a run came to.
use io_memory::MemSink;

/// What a run of the program answered and wrote.
#[derive(Drop)]
pub struct Ran {
    /// The status.
    pub status: u8,
    /// What was written to the output.
    pub out: MemSink,
    /// What was written to the sink for errors.
    pub err: MemSink,
}

impl Ran {
    /// Whether it answered this status and wrote these texts.
    pub fn ended(&self, status: u8, out: &[u8], err: &[u8]) -> bool {
        self.status == status && self.out.bytes() == out && self.err.bytes() == err
    }
}
