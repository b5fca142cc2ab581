//! Conversion of hexadecimal literals.
ghost use Rattle.std.specs.Prelude.{◌≡◌, ℕ, ◌+◌, ◌*◌, ◌^◌, ◌<◌, ◌≤◌, false, true};
ghost use Rattle.std.specs.Float.Ieee.{round};
ghost use Rattle.std.specs.Prelude.{◌⊎◌, to_bits, length, IfSome, IfNone};
ghost use Rattle.std.specs.Char.{digit_value};
ghost use Rattle.std.specs.Str.Parse.{digits_value_after};
ghost use Rattle.core.specs.Dec2flt.Rounding.{IsNearestBits};
ghost use Rattle.wat_lex.specs.grammar.Numbers.{is_digit};
ghost use Rattle.wat_floats.specs.Literals.{after_digits, after_fraction, digits, fraction};
ghost use Rattle.wat_floats.specs.Literals.{exponent, nearest, up_power, down_power};
ghost use Rattle.wat_floats.specs.Rounding.{format, IsCapped, IsLeading};

use crate::exponent::Power;
use crate::precision::Precision;
use crate::rounding::nearest_of_scaled;

/// The digits parsed so far. Their value is `count` * 16^`dropped`; if `more` is set, it exceeds
/// this by less than 16^`dropped`.
#[derive(Clone, Copy)]
pub(crate) struct Leading {
    pub(crate) count: u64,
    pub(crate) dropped: u128,
    pub(crate) more: bool,
}

/// Returns the value of a hexadecimal digit, or `None` for any other byte.
fn hex_digit(byte: u8) -> Option<u64>
    ensures some { IfSome result
        (λ d. (is_digit true byte ≡ true) × (d ≡ digit_value byte) × (d < 16)) }
    ensures none { IfNone result (is_digit true byte ≡ false) }
{
    match byte {
        b'0'..=b'9' => Some(u64::from(byte - b'0')),
        b'A'..=b'F' => Some(u64::from(byte - b'A') + 10),
        b'a'..=b'f' => Some(u64::from(byte - b'a') + 10),
        _ => None,
    }
}

impl Leading {
    /// Returns the value 0, before the first digit.
    pub(crate) fn none() -> Leading
        ensures value { IsLeading 0 result.count result.dropped result.more }
        ensures dropped { result.dropped ≡ 0 }
    {
        Leading {
            count: 0,
            dropped: 0,
            more: false,
        }
    }

    /// Appends a digit.
    fn with_digit(self, digit: u64) -> Leading
        requires digit { digit < 16 }
        requires room { self.dropped < 2 ^ 100 }
        ensures value { (n : ℕ) → IsLeading n self.count self.dropped self.more
            → IsLeading (n * 16 + digit) result.count result.dropped result.more }
        ensures dropped { result.dropped ≤ self.dropped + 1 }
    {
        if self.count < 1 << 60 {
            Leading {
                count: self.count * 16 + digit,
                dropped: self.dropped,
                more: self.more,
            }
        } else {
            Leading {
                count: self.count,
                dropped: self.dropped + 1,
                more: self.more || digit != 0,
            }
        }
    }
}

/// Appends the digits at the start of the text, and returns the text after them.
pub(crate) fn with_digits<'t>(leading: Leading, text: &'t [u8]) -> (Leading, &'t [u8])
    requires room { leading.dropped ≤ 2 ^ 70 }
    ensures value { (n : ℕ) → IsLeading n leading.count leading.dropped leading.more
        → IsLeading (digits_value_after 16 n (digits true text.now))
        result.0.count result.0.dropped result.0.more }
    ensures dropped { result.0.dropped ≤ leading.dropped + length text.now }
    ensures rest { result.1.now ≡ after_digits true text.now }
{
    let mut leading = leading;
    for i in 0..text.len() {
        match hex_digit(text[i]) {
            Some(digit) => {
                leading = leading.with_digit(digit);
            }
            None => return (leading, &text[i..]),
        }
    }
    (leading, &text[text.len()..])
}

/// Appends the digits of the fraction at the start of the text, and returns their number and the
/// text after the fraction.
fn with_fraction<'t>(leading: Leading, text: &'t [u8]) -> (Leading, usize, &'t [u8])
    requires room { leading.dropped ≤ 2 ^ 70 }
    ensures value { (n : ℕ) → IsLeading n leading.count leading.dropped leading.more
        → IsLeading (digits_value_after 16 n (fraction true text.now))
        result.0.count result.0.dropped result.0.more }
    ensures dropped { result.0.dropped ≤ leading.dropped + length text.now }
    ensures places { result.1 ≡ length (fraction true text.now) }
    ensures rest { result.2.now ≡ after_fraction true text.now }
{
    match text {
        [b'.', after @ ..] => {
            let (leading, rest) = with_digits(leading, after);
            (leading, after.len() - rest.len(), rest)
        }
        _ => (leading, 0, text),
    }
}

/// Returns the bits of the number nearest to a hexadecimal literal, given its text after `0x`.
pub(crate) fn hexadecimal(precision: Precision, text: &[u8]) -> u64
    ensures { result ≡ nearest (format precision) true text.now }
{
    let (whole, rest) = with_digits(Leading::none(), text);
    let (leading, places, rest) = with_fraction(whole, rest);
    if leading.count == 0 {
        return 0;
    }
    scaled(precision, leading, places, Power::read(rest))
}

/// Returns the bits of the number nearest to the digits times the power, if `places` of the digits
/// follow the dot.
fn scaled(precision: Precision, leading: Leading, places: usize, power: Power) -> u64
    requires count { (0 < leading.count) × (0 < leading.dropped → 2 ^ 60 ≤ leading.count) }
    requires room { leading.dropped ≤ 2 ^ 80 }
    requires power { (power.up_power < 2 ^ 110) × (power.down_power < 2 ^ 110) }
    ensures { (n r l : ℕ) → IsLeading n leading.count leading.dropped leading.more
        → IsCapped r power.up_power → IsCapped l power.down_power → ((r ≡ 0) ⊎ (l ≡ 0))
        → IsNearestBits (format precision) (n * 2 ^ r) (16 ^ places * 2 ^ l) result }
{
    let places = places as u128 * 4 + power.down_power;
    if leading.dropped > 0 {
        return nearest_of_scaled(
            precision,
            leading.count,
            leading.more,
            leading.dropped * 4 + power.up_power,
            places,
        );
    }
    let shift = leading.count.leading_zeros();
    nearest_of_scaled(
        precision,
        leading.count << shift,
        false,
        power.up_power,
        u128::from(shift) + places,
    )
}

/// Returns the bits of the number nearest to an integer.
pub(crate) fn whole(precision: Precision, number: u64) -> u64
    ensures { result ≡ to_bits (format precision) (round (format precision) false number 1) }
{
    if number == 0 {
        return 0;
    }
    let leading = Leading {
        count: number,
        dropped: 0,
        more: false,
    };
    scaled(precision, leading, 0, Power::none())
}
