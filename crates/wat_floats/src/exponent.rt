//! Exponents of hexadecimal literals, with any number of digits.
ghost use Rattle.std.specs.Prelude.{◌≡◌, ◌^◌, ◌<◌, true, false};
ghost use Rattle.std.specs.Str.Parse.{digits_value};
ghost use Rattle.wat_lex.specs.grammar.Numbers.{is_digit, is_exponent_letter, unsigned};
ghost use Rattle.wat_lex.specs.grammar.Numbers.{is_negative};
ghost use Rattle.wat_floats.specs.Literals.{digits, exponent, size, up_power, down_power};
ghost use Rattle.wat_floats.specs.Rounding.{IsCapped};

/// A power of 2: 2^`up_power` / 2^`down_power`. If one of them is `LARGE` or more, it may be less
/// than the one that was parsed.
#[derive(Clone, Copy)]
pub(crate) struct Power {
    pub(crate) up_power: u128,
    pub(crate) down_power: u128,
}

/// An exponent that is too large for the digits of any text to compensate for it.
const LARGE: u128 = 1 << 100;

/// Returns the word without its sign.
pub(crate) fn unsigned(word: &[u8]) -> &[u8]
    ensures { result.now ≡ unsigned word.now }
{
    match word {
        [b'+' | b'-', rest @ ..] => rest,
        _ => word,
    }
}

/// Returns `true` if the word begins with `-`.
pub(crate) fn is_negative(word: &[u8]) -> bool
    ensures { result ≡ is_negative word.now }
{
    match word {
        [b'-', ..] => true,
        _ => false,
    }
}

/// Returns the part of an exponent after its letter, or an empty text without an exponent.
fn after_letter(text: &[u8]) -> &[u8]
    ensures { result.now ≡ exponent true text.now }
{
    match text {
        [b'p' | b'P', rest @ ..] => rest,
        _ => &[],
    }
}

/// Returns the value of the decimal digits at the start of the text. Instead of a value above
/// `LARGE`, it may return a smaller one that is at least `LARGE`.
fn size_of(text: &[u8]) -> u128
    ensures capped { IsCapped (digits_value 10 (digits false text.now)) result }
    ensures most { result < 2 ^ 110 }
{
    let mut size = 0;
    for byte in text {
        if !byte.is_ascii_digit() {
            return size;
        }
        if size < LARGE {
            size = size * 10 + u128::from(*byte - b'0');
        }
    }
    size
}

impl Power {
    /// Returns the power 1.
    pub(crate) fn none() -> Power
        ensures { (result.up_power ≡ 0) × (result.down_power ≡ 0) }
    {
        Power {
            up_power: 0,
            down_power: 0,
        }
    }

    /// Parses the exponent at the start of the text as a power of 2.
    pub(crate) fn read(text: &[u8]) -> Power
        ensures up_power { IsCapped (up_power (exponent true text.now)) result.up_power }
        ensures down_power { IsCapped (down_power (exponent true text.now)) result.down_power }
        ensures most { (result.up_power < 2 ^ 110) × (result.down_power < 2 ^ 110) }
    {
        let written = after_letter(text);
        let size = size_of(unsigned(written));
        if is_negative(written) {
            Power {
                up_power: 0,
                down_power: size,
            }
        } else {
            Power {
                up_power: size,
                down_power: 0,
            }
        }
    }
}
