// Counts that never fall, and stand still at the greatest number.
ghost use Rattle.std.specs.Prelude.{◌≡◌, ◌≤◌};
ghost use Rattle.io_traits.specs.Causes.{Rose, next_count};

/// One more, up to the greatest number.
pub fn raised(count: u64) -> u64
    ensures value { result ≡ next_count count }
    ensures later { count ≤ result }
    ensures rose { Rose count result }
{
    count.saturating_add(1)
}
