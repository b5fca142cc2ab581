//! The two floating-point formats.
ghost use Rattle.std.specs.Prelude.{◌≡◌};
ghost use Rattle.std.specs.Float.Ieee.{prec, low, hid};
ghost use Rattle.wat_floats.specs.Literals.{infinity, sign_bit};
ghost use Rattle.wat_floats.specs.Rounding.{format};

/// A floating-point format: `f32` or `f64`.
#[derive(Clone, Copy, Debug, PartialEq)]
pub(crate) enum Precision {
    Single,
    Double,
}

impl Precision {
    /// Returns the number of binary digits of a significand, including the one that is not stored.
    pub(crate) fn digits(self) -> u64
        ensures { result ≡ prec (format self) }
    {
        match self {
            Precision::Single => 24,
            Precision::Double => 53,
        }
    }

    /// Returns the exponent `n` for which the least positive number is 2^-`n`.
    pub(crate) fn least(self) -> u64
        ensures { result ≡ low (format self) }
    {
        match self {
            Precision::Single => 149,
            Precision::Double => 1074,
        }
    }

    /// Returns the lowest bit of the exponent, which is the one above the stored significand.
    pub(crate) fn exponent_bit(self) -> u64
        ensures { result ≡ hid (format self) }
    {
        match self {
            Precision::Single => 1 << 23,
            Precision::Double => 1 << 52,
        }
    }

    /// Returns the bits of positive infinity.
    pub(crate) fn infinity(self) -> u64
        ensures { result ≡ infinity (format self) }
    {
        match self {
            Precision::Single => 0x7f80_0000,
            Precision::Double => 0x7ff0_0000_0000_0000,
        }
    }

    /// Returns the sign bit.
    pub(crate) fn sign_bit(self) -> u64
        ensures { result ≡ sign_bit (format self) }
    {
        match self {
            Precision::Single => 1 << 31,
            Precision::Double => 1 << 63,
        }
    }
}
