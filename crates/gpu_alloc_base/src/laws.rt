//! Laws of the definitions that contracts cite. The functions are lemmas: they do nothing at run time.

ghost use Rattle.std.specs.Prelude.{◌≡◌, ◌-◌, ◌<◌, ◌≤◌, ◌^◌, ℕ};
ghost use Rattle.gpu_alloc_base.specs.AlignMasks.{IsAlignMask};
ghost use Rattle.gpu_alloc_base.specs.Sizes.{IsNextPowerOfTwo, next_power_of_two, grown_chunk, IsLeastProduct};

/// The chunk for a block that fits the largest chunk holds the block. It is the least that does so of the next chunk's
/// size, its double, and so on, each capped at the largest. No other number is.
pub fn free_list_chunk_is_least()
    ensures is { (next final size : ℕ) → 0 < next → next ≤ final → final ≤ 2 ^ 62 → size ≤ final
        → IsLeastProduct next final size (grown_chunk next final size) }
    ensures only { (next final size chunk other : ℕ) → IsLeastProduct next final size chunk
        → IsLeastProduct next final size other → chunk ≡ other }
{}

/// The next power of two is the least one that is not below the number.
pub fn next_power_of_two_is_least()
    ensures { (x : ℕ) → x ≤ 2 ^ 64 → IsNextPowerOfTwo x (next_power_of_two x) }
{}

/// One less than each power of two from 1 to 2^63 is an alignment mask.
pub fn align_masks_of_powers()
    ensures { (k : ℕ) → k ≤ 63 → IsAlignMask (2 ^ k - 1) }
{}
