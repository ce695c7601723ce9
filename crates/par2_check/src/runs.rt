// Runs of numbers.
ghost use Rattle.std.specs.Prelude.{◌≡◌, ◌<◌, ◌^◌, OnOk};
ghost use Rattle.par2_check.specs.Runs.{with_number};

use lists::{List, Memory};

/// Puts a number behind runs of lesser numbers: to the last run where it stands next to it, and else as a run of its own.
pub fn add_number(number: u64, runs: &mut List<(u64, u64)>) -> Result<(), Memory>
    ensures { OnOk result (runs.new ≡ with_number number runs.old) }
{
    let count = runs.len();
    if count == 0 {
        return runs.push((number, number));
    }
    let (first, last) = runs.as_slice()[count - 1];
    if number.saturating_sub(last) == 1 {
        runs.set(count - 1, (first, number));
        return Ok(());
    }
    runs.push((number, number))
}
