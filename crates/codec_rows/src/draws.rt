// Numbers that are drawn, the same in each run.

/// The next number below 65,536.
pub(crate) fn drawn(random: &mut u32) -> u32 {
    *random = random.wrapping_mul(1_664_525).wrapping_add(1_013_904_223);
    *random >> 16
}
