// Why an article isn't added.
ghost use Rattle.std.specs.Prelude.{◌≡◌};

use lists::Memory;

/// Why an article isn't added to a spool.
#[derive(Clone, Copy, Debug, PartialEq, Eq)]
pub enum SpoolError {
    /// No memory was left.
    Memory,
    /// The spool holds an article with this message-id.
    Known,
}

impl From<Memory> for SpoolError {
    ghost use Rattle.news_spool.specs.declared.error.SpoolError.TheVariants as errors;

    ghost from_gives = { λ _ error. error ≡ errors.Memory };

    fn from(_: Memory) -> Self {
        SpoolError::Memory
    }
}
