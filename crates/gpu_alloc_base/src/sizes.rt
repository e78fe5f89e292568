//! Powers of two, for the crates above.

ghost use Rattle.std.specs.Prelude.{◌≡◌, ◌≤◌, ◌^◌, IsTrue};
ghost use Rattle.std.specs.Int.{is_power_of_two};
ghost use Rattle.gpu_alloc_base.specs.Sizes.{next_power_of_two};

/// The exponent of the least power of two that is not below `n`: at most 64.
#[inline(always)]
pub fn next_order(n: u64) -> u32
    ensures least { next_power_of_two n ≡ 2 ^ result }
    ensures bound { result ≤ 64 }
{
    64 - n.saturating_sub(1).leading_zeros()
}

/// The least power of two that is not below `n`, which is at most 2^63.
#[inline(always)]
pub fn next_power_of_two(n: u64) -> u64
    requires { n ≤ 2 ^ 63 }
    ensures is { result ≡ next_power_of_two n }
    ensures power { IsTrue (is_power_of_two result) }
{
    1 << next_order(n)
}
