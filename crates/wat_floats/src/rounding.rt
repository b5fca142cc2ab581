//! Rounding of an integer times a power of 2.
ghost use Rattle.std.specs.Prelude.{◌≡◌, ℕ, ◌+◌, ◌/◌, ◌^◌, ◌<◌, ◌≤◌};
ghost use Rattle.std.specs.Float.Ieee.{prec};
ghost use Rattle.core.specs.Dec2flt.Rounding.{IsNearestBits};
ghost use Rattle.wat_floats.specs.Rounding.{format, goes_up, rounded_bits, AreCapped, IsScaled};

use crate::precision::Precision;

/// Returns `count` without its `dropped` lowest bits.
fn without_lowest(count: u64, dropped: u64) -> u64
    requires dropped { (0 < dropped) × (dropped ≤ 64) }
    ensures { result ≡ count / 2 ^ dropped }
{
    (count >> (dropped - 1)) >> 1
}

/// Returns `true` if rounding away the `dropped` lowest bits goes up. The dropped part, to which
/// `more` adds something below 1, must be more than half of the lowest kept bit, or exactly half of
/// it if that bit is set.
fn goes_up(count: u64, more: bool, dropped: u64) -> bool
    requires dropped { (0 < dropped) × (dropped ≤ 64) }
    ensures { result ≡ goes_up count more dropped }
{
    let half = count >> (dropped - 1);
    half % 2 == 1
        && (more || count % (1 << (dropped - 1)) != 0 || without_lowest(count, dropped) % 2 == 1)
}

/// Returns the bits of the number that results from rounding away the `dropped` lowest bits. The
/// lowest kept bit is worth 2^`exponent` times the least positive number.
fn rounded_bits(precision: Precision, count: u64, more: bool, dropped: u64, exponent: u64) -> u64
    requires dropped { (0 < dropped) × (dropped ≤ 64) }
    requires significand { count / 2 ^ dropped < 2 ^ prec (format precision) }
    requires exponent { exponent < 2047 }
    ensures { result ≡ rounded_bits (format precision) count more dropped exponent }
{
    let kept = without_lowest(count, dropped);
    let significand = if goes_up(count, more, dropped) {
        kept + 1
    } else {
        kept
    };
    (exponent * precision.exponent_bit() + significand).min(precision.infinity())
}

/// Returns the bits of the number nearest to `count` * 2^`up` / 2^`down`. If `more` is set, the
/// exact value exceeds this by less than 2^`up` / 2^`down`.
pub(crate) fn nearest_of_scaled(
    precision: Precision,
    count: u64,
    more: bool,
    up: u128,
    down: u128,
) -> u64
    requires count { 2 ^ 60 ≤ count }
    requires sizes { (up < 2 ^ 120) × (down < 2 ^ 120) }
    ensures { (num den u v : ℕ) → 0 < den → IsScaled num den count more u v → AreCapped u v up down
        → IsNearestBits (format precision) num den result }
{
    let digits = precision.digits();
    let surplus = 64 - u64::from(count.leading_zeros()) - digits;
    let least = up + (precision.least() + surplus) as u128;
    if least >= down + 2047 {
        return precision.infinity();
    }
    let below = down.saturating_sub(least);
    if below > digits as u128 {
        return 0;
    }
    let dropped = surplus + below as u64;
    rounded_bits(
        precision,
        count,
        more,
        dropped,
        least.saturating_sub(down) as u64,
    )
}
