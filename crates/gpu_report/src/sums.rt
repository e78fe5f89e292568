//! Sums over sizes.

ghost use Rattle.std.specs.Prelude.{◌≡◌, ◌≤◌, ◌*◌, ◌+◌, ◌<◌, ◌^◌, sum, length};
ghost use Rattle.gpu_report.specs.Free.{largest, scattered, shorter, thousandths};

/// A size as a summand, with what bounds a sum of such.
pub(crate) fn widened(size: u64) -> u128
    ensures is { result ≡ size }
    ensures bound { result < 2 ^ 64 }
{
    u128::from(size)
}

/// The sum of sizes.
pub(crate) fn total(sizes: &[u64]) -> u128
    ensures is { result ≡ sum sizes.now }
    ensures bound { result < 2 ^ 124 }
{
    let mut total: u128 = 0;
    for size in sizes {
        total += u128::from(*size);
    }
    total
}

/// The greatest of the sizes, 0 where there are none.
pub(crate) fn greatest(sizes: &[u64]) -> u64
    ensures { result ≡ largest sizes.now }
{
    let mut greatest = 0;
    for size in sizes {
        greatest = greatest.max(*size);
    }
    greatest
}

/// The sum of the sizes that are less than half of `most`.
fn short(sizes: &[u64], most: u64) -> u128
    ensures is { result ≡ sum (shorter most sizes.now) }
    ensures part { result ≤ sum sizes.now }
{
    let mut total: u128 = 0;
    for size in sizes {
        if 2 * u128::from(*size) < u128::from(most) {
            total += u128::from(*size);
        }
    }
    total
}

/// The share of the bytes that lie in sizes less than half of the greatest one, in thousandths.
pub(crate) fn scattered(sizes: &[u64]) -> u64
    ensures { result ≡ scattered sizes.now }
{
    let whole = total(sizes);
    let part = short(sizes, greatest(sizes));
    thousandths(part, whole)
}

/// A part's share of a whole, in thousandths: three digits, one after the other.
fn thousandths(part: u128, whole: u128) -> u64
    requires part { part ≤ whole }
    requires bound { whole < 2 ^ 124 }
    ensures { result ≡ thousandths part whole }
{
    if whole == 0 {
        return 0;
    }
    let tenths = 10 * part / whole;
    let left = 10 * part % whole;
    let hundredths = 10 * left / whole;
    let last = 10 * (10 * left % whole) / whole;
    (100 * tenths + 10 * hundredths + last) as u64
}
