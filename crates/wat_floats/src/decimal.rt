//! Conversion of decimal literals.
ghost use Rattle.std.specs.Prelude.{◌≡◌, false};
ghost use Rattle.wat_floats.specs.Literals.{nearest};
ghost use Rattle.wat_floats.specs.Rounding.{format};

use crate::precision::Precision;
use fast_float::Numeral;

/// Returns the bits of the number nearest to a decimal literal without sign and underscores.
pub(crate) fn decimal(precision: Precision, text: &[u8]) -> u64
    ensures { result ≡ nearest (format precision) false text.now }
{
    let numeral = Numeral::scan(text);
    match precision {
        Precision::Single => {
            let number: f32 = numeral.to_float(false);
            u64::from(number.to_bits())
        }
        Precision::Double => {
            let number: f64 = numeral.to_float(false);
            number.to_bits()
        }
    }
}
