//! Encoding of values in the binary format.

ghost use Rattle.std.specs.Prelude.{◌≡◌, ◌++◌, ◌^◌, ◌<◌, ◌≤◌, ◌↔◌, ℕ, List, [], ◌∷◌};
ghost use Rattle.std.specs.Prelude.{IsErrOf, IsTrue, OnErr, OnOk};
ghost use Rattle.std.specs.Prelude.{length, string_bytes, take, vec_len};
ghost use Rattle.wat_lex.specs.binary.Encoding.{ListFits, StringFits, StringTooLong, TextFits};
ghost use Rattle.wat_lex.specs.binary.Encoding.{TextTooLong, list_encoding, string_encoding};
ghost use Rattle.wat_lex.specs.binary.Encoding.{text_encoding, vec_encoding};
ghost use Rattle.wat_lex.specs.binary.Leb128.{IsSignedEncoded, IsUnsignedEncoded, high_bits_of};
ghost use Rattle.wat_lex.specs.binary.Leb128.{low_bits_of, signed_leb128, unsigned_leb128};

use std::alloc::{AllocError, AllocFailed};

/// The reason why a value was not encoded.
#[derive(Clone, Copy, Debug, PartialEq, Eq)]
pub enum EncodeError {
    /// An allocation failure.
    Memory,
    /// A length or a `usize` is above `u32::MAX`.
    TooLong,
}

impl From<AllocError> for EncodeError {
    ghost use Rattle.std.specs.Prelude.{◌≡◌};
    ghost use Rattle.wat_lex.specs.declared.encode.EncodeError.TheVariants.{Memory};

    ghost from_gives = { λ _ error. error ≡ Memory };

    /// Converts an allocation failure to `EncodeError::Memory`.
    fn from(_: AllocError) -> EncodeError {
        EncodeError::Memory
    }
}

impl<T: Drop> From<AllocFailed<T>> for EncodeError {
    ghost use Rattle.std.specs.Prelude.{◌≡◌};
    ghost use Rattle.wat_lex.specs.declared.encode.EncodeError.TheVariants.{Memory};

    ghost from_gives = { λ _ error. error ≡ Memory };

    /// Converts an allocation failure to `EncodeError::Memory`, and drops the value.
    fn from(failed: AllocFailed<T>) -> EncodeError {
        EncodeError::from(AllocError::from(failed))
    }
}

/// A value that has an encoding in the binary format.
pub trait Encode {
    /// The encoding of a value, as bytes.
    ghost encoding: { Self → List ℕ };

    /// The condition that each length and each `usize` in a value is at most `u32::MAX`.
    ghost fits: { Self → Type 0 };

    /// Returns `true` if each length and each `usize` in the value is at most `u32::MAX`, and for
    /// types without any.
    fn fits(&self) -> bool
        ensures { IsTrue result ↔ fits self.now };

    /// Appends the encoding of the value. The buffer is unchanged on an error.
    ///
    /// # Errors
    ///
    /// Returns [`EncodeError::TooLong`] if and only if the value does not fit, and
    /// [`EncodeError::Memory`] if an allocation fails for a value that fits.
    fn encode(&self, e: &mut Vec<u8>) -> Result<(), EncodeError>
        ensures ok { OnOk result (e.new.items ≡ e.old.items ++ encoding self.now) }
        ensures fitting { OnOk result (fits self.now) }
        ensures too_long { IsErrOf result EncodeError.TooLong ↔ ¬ fits self.now }
        ensures memory { IsErrOf result EncodeError.Memory → fits self.now }
        ensures err { OnErr result (e.new.items ≡ e.old.items) };
}

/// Truncates the buffer to `start`, its length before a write, if the write failed. Returns the
/// result of the write.
fn truncate_on_error(
    written: Result<(), EncodeError>,
    start: usize,
    e: &mut Vec<u8>,
) -> Result<(), EncodeError>
    ensures same { result ≡ written }
    ensures ok { OnOk result (e.new.items ≡ e.old.items) }
    ensures err { OnErr result (e.new.items ≡ take start e.old.items) }
{
    if written.is_err() {
        e.truncate(start);
    }
    written
}

/// Appends the unsigned LEB128 encoding of an integer. A part of it may remain on an error.
fn push_unsigned(mut rest: u64, e: &mut Vec<u8>) -> Result<(), EncodeError>
    ensures ok { OnOk result (e.new.items ≡ e.old.items ++ unsigned_leb128 rest) }
    ensures memory { OnErr result (result ≡ Err EncodeError.Memory) }
    ensures prefix { take (vec_len e.old) e.new.items ≡ e.old.items }
{
    while rest >= 0x80 {
        e.push((rest & 0x7f) as u8 | 0x80)?;
        rest >>= 7;
    }
    e.push(rest as u8)?;
    Ok(())
}

/// Appends the signed LEB128 encoding of an integer. A part of it may remain on an error.
fn push_signed(mut rest: i64, e: &mut Vec<u8>) -> Result<(), EncodeError>
    ensures ok { OnOk result (e.new.items ≡ e.old.items ++ signed_leb128 rest) }
    ensures memory { OnErr result (result ≡ Err EncodeError.Memory) }
    ensures prefix { take (vec_len e.old) e.new.items ≡ e.old.items }
{
    while rest < -0x40 || rest >= 0x40 {
        e.push(low_bits(rest) | 0x80)?;
        rest = high_bits(rest);
    }
    e.push(low_bits(rest))?;
    Ok(())
}

/// Returns the 7 least significant bits of an integer.
fn low_bits(number: i64) -> u8
    ensures { result ≡ low_bits_of number }
{
    (number & 0x7f) as u8
}

/// Returns an integer shifted right by 7 bits, arithmetically.
fn high_bits(number: i64) -> i64
    ensures { result ≡ high_bits_of number }
{
    number >> 7
}

/// Appends the unsigned LEB128 encoding of an integer. The buffer is unchanged on an error.
fn encode_unsigned(number: u64, e: &mut Vec<u8>) -> Result<(), EncodeError>
    ensures ok { OnOk result (e.new.items ≡ e.old.items ++ unsigned_leb128 number) }
    ensures memory { OnErr result (result ≡ Err EncodeError.Memory) }
    ensures err { OnErr result (e.new.items ≡ e.old.items) }
{
    let start = e.len();
    let written = push_unsigned(number, e);
    truncate_on_error(written, start, e)
}

/// Appends the signed LEB128 encoding of an integer. The buffer is unchanged on an error.
fn encode_signed(number: i64, e: &mut Vec<u8>) -> Result<(), EncodeError>
    ensures ok { OnOk result (e.new.items ≡ e.old.items ++ signed_leb128 number) }
    ensures memory { OnErr result (result ≡ Err EncodeError.Memory) }
    ensures err { OnErr result (e.new.items ≡ e.old.items) }
{
    let start = e.len();
    let written = push_signed(number, e);
    truncate_on_error(written, start, e)
}

/// Returns `true` if a length is at most `u32::MAX`.
fn length_fits(length: usize) -> bool
    ensures { IsTrue result ↔ (length < 2 ^ 32) }
{
    u32::try_from(length).is_ok()
}

/// Appends a length as an unsigned LEB128 integer. The buffer is unchanged on an error.
fn encode_length(length: usize, e: &mut Vec<u8>) -> Result<(), EncodeError>
    ensures ok { OnOk result (e.new.items ≡ e.old.items ++ unsigned_leb128 length) }
    ensures fitting { OnOk result (length < 2 ^ 32) }
    ensures too_long { IsErrOf result EncodeError.TooLong ↔ (2 ^ 32 ≤ length) }
    ensures memory { IsErrOf result EncodeError.Memory → length < 2 ^ 32 }
    ensures err { OnErr result (e.new.items ≡ e.old.items) }
{
    if !length_fits(length) {
        return Err(EncodeError::TooLong);
    }
    encode_unsigned(length as u64, e)
}

/// A `u8` is encoded as one byte.
impl Encode for u8 {
    ghost use Rattle.std.specs.Prelude.{[], ◌∷◌};

    ghost encoding = { λ byte. byte ∷ [] };

    ghost fits = { λ _. Unit {0} };

    fn fits(&self) -> bool {
        true
    }

    fn encode(&self, e: &mut Vec<u8>) -> Result<(), EncodeError>
        ensures ok { OnOk result (e.new.items ≡ e.old.items ++ self.now ∷ []) }
        ensures memory { OnErr result (result ≡ Err EncodeError.Memory) }
        ensures err { OnErr result (e.new.items ≡ e.old.items) }
    {
        e.push(*self)?;
        Ok(())
    }
}

/// A `u32` is encoded as the shortest unsigned LEB128 integer.
impl Encode for u32 {
    ghost use Rattle.wat_lex.specs.binary.Leb128.{unsigned_leb128};

    ghost encoding = { unsigned_leb128 };

    ghost fits = { λ _. Unit {0} };

    fn fits(&self) -> bool {
        true
    }

    fn encode(&self, e: &mut Vec<u8>) -> Result<(), EncodeError>
        ensures ok { OnOk result (e.new.items ≡ e.old.items ++ unsigned_leb128 self.now) }
        ensures memory { OnErr result (result ≡ Err EncodeError.Memory) }
        ensures err { OnErr result (e.new.items ≡ e.old.items) }

        // The bytes are the unique shortest encoding of the integer.
        ensures law { IsUnsignedEncoded self.now }
    {
        encode_unsigned(u64::from(*self), e)
    }
}

/// A `u64` is encoded as the shortest unsigned LEB128 integer.
impl Encode for u64 {
    ghost use Rattle.wat_lex.specs.binary.Leb128.{unsigned_leb128};

    ghost encoding = { unsigned_leb128 };

    ghost fits = { λ _. Unit {0} };

    fn fits(&self) -> bool {
        true
    }

    fn encode(&self, e: &mut Vec<u8>) -> Result<(), EncodeError>
        ensures ok { OnOk result (e.new.items ≡ e.old.items ++ unsigned_leb128 self.now) }
        ensures memory { OnErr result (result ≡ Err EncodeError.Memory) }
        ensures err { OnErr result (e.new.items ≡ e.old.items) }

        // The bytes are the unique shortest encoding of the integer.
        ensures law { IsUnsignedEncoded self.now }
    {
        encode_unsigned(*self, e)
    }
}

/// An `i32` is encoded as the shortest signed LEB128 integer.
impl Encode for i32 {
    ghost use Rattle.wat_lex.specs.binary.Leb128.{signed_leb128};

    ghost encoding = { signed_leb128 };

    ghost fits = { λ _. Unit {0} };

    fn fits(&self) -> bool {
        true
    }

    fn encode(&self, e: &mut Vec<u8>) -> Result<(), EncodeError>
        ensures ok { OnOk result (e.new.items ≡ e.old.items ++ signed_leb128 self.now) }
        ensures memory { OnErr result (result ≡ Err EncodeError.Memory) }
        ensures err { OnErr result (e.new.items ≡ e.old.items) }

        // The bytes are the unique shortest encoding of the integer.
        ensures law { IsSignedEncoded self.now }
    {
        encode_signed(i64::from(*self), e)
    }
}

/// An `i64` is encoded as the shortest signed LEB128 integer.
impl Encode for i64 {
    ghost use Rattle.wat_lex.specs.binary.Leb128.{signed_leb128};

    ghost encoding = { signed_leb128 };

    ghost fits = { λ _. Unit {0} };

    fn fits(&self) -> bool {
        true
    }

    fn encode(&self, e: &mut Vec<u8>) -> Result<(), EncodeError>
        ensures ok { OnOk result (e.new.items ≡ e.old.items ++ signed_leb128 self.now) }
        ensures memory { OnErr result (result ≡ Err EncodeError.Memory) }
        ensures err { OnErr result (e.new.items ≡ e.old.items) }

        // The bytes are the unique shortest encoding of the integer.
        ensures law { IsSignedEncoded self.now }
    {
        encode_signed(*self, e)
    }
}

/// A `usize` is encoded like the `u32` of the same value.
impl Encode for usize {
    ghost use Rattle.std.specs.Prelude.{◌<◌, ◌^◌};
    ghost use Rattle.wat_lex.specs.binary.Leb128.{unsigned_leb128};

    ghost encoding = { unsigned_leb128 };

    ghost fits = { λ length. length < 2 ^ 32 };

    fn fits(&self) -> bool {
        length_fits(*self)
    }

    fn encode(&self, e: &mut Vec<u8>) -> Result<(), EncodeError>
        ensures ok { OnOk result (e.new.items ≡ e.old.items ++ unsigned_leb128 self.now) }
        ensures fitting { OnOk result (self.now < 2 ^ 32) }
        ensures too_long { IsErrOf result EncodeError.TooLong ↔ (2 ^ 32 ≤ self.now) }
        ensures memory { IsErrOf result EncodeError.Memory → self.now < 2 ^ 32 }
        ensures err { OnErr result (e.new.items ≡ e.old.items) }

        // The bytes are the unique shortest encoding of the integer.
        ensures law { IsUnsignedEncoded self.now }
    {
        encode_length(*self, e)
    }
}

/// Returns `true` if a list has an encoding: its length, and each length and each `usize` in its
/// items, is at most `u32::MAX`.
pub fn slice_fits<T: Encode>(items: &[T]) -> bool
    ensures { IsTrue result ↔ ListFits T.fits items.now }
{
    if !length_fits(items.len()) {
        return false;
    }
    for item in items {
        if !item.fits() {
            return false;
        }
    }
    true
}

/// Appends the encoding of a list: its length as a `u32`, and then its items. The buffer is
/// unchanged on an error.
///
/// # Errors
///
/// Returns [`EncodeError::TooLong`] if and only if the list does not fit, and
/// [`EncodeError::Memory`] if an allocation fails for a list that fits.
pub fn encode_slice<T: Encode>(items: &[T], e: &mut Vec<u8>) -> Result<(), EncodeError>
    ensures ok { OnOk result (e.new.items ≡ e.old.items ++ list_encoding T.encoding items.now) }
    ensures fitting { OnOk result (ListFits T.fits items.now) }
    ensures too_long { IsErrOf result EncodeError.TooLong ↔ ¬ ListFits T.fits items.now }
    ensures too_many { 2 ^ 32 ≤ length items.now → IsErrOf result EncodeError.TooLong }
    ensures memory { IsErrOf result EncodeError.Memory → ListFits T.fits items.now }
    ensures err { OnErr result (e.new.items ≡ e.old.items) }

    // The leading bytes are the unique shortest encoding of the length.
    ensures law { IsUnsignedEncoded (length items.now) }
{
    if !slice_fits(items) {
        return Err(EncodeError::TooLong);
    }
    let start = e.len();
    let written = push_items(items, e);
    truncate_on_error(written, start, e)
}

/// Appends the encoding of a list: its length as a `u32`, and then its items. A part of it may
/// remain on an error.
fn push_items<T: Encode>(items: &[T], e: &mut Vec<u8>) -> Result<(), EncodeError>
    ensures ok { OnOk result (e.new.items ≡ e.old.items ++ list_encoding T.encoding items.now) }
    ensures too_long { IsErrOf result EncodeError.TooLong → ¬ ListFits T.fits items.now }
    ensures prefix { take (vec_len e.old) e.new.items ≡ e.old.items }
{
    encode_length(items.len(), e)?;
    for item in items {
        item.encode(e)?;
    }
    Ok(())
}

/// Returns `true` if a text has an encoding: its length in bytes is at most `u32::MAX`.
pub fn str_fits(text: &str) -> bool
    ensures { IsTrue result ↔ TextFits text.now }
{
    length_fits(text.len())
}

/// Appends the encoding of a text: its length in bytes as a `u32`, and then its bytes. The buffer
/// is unchanged on an error.
///
/// # Errors
///
/// Returns [`EncodeError::TooLong`] if and only if the text does not fit, and
/// [`EncodeError::Memory`] if an allocation fails for a text that fits.
pub fn encode_str(text: &str, e: &mut Vec<u8>) -> Result<(), EncodeError>
    ensures ok { OnOk result (e.new.items ≡ e.old.items ++ text_encoding text.now) }
    ensures fitting { OnOk result (TextFits text.now) }
    ensures too_long { IsErrOf result EncodeError.TooLong ↔ TextTooLong text.now }
    ensures memory { IsErrOf result EncodeError.Memory → TextFits text.now }
    ensures err { OnErr result (e.new.items ≡ e.old.items) }

    // The leading bytes are the unique shortest encoding of the length.
    ensures law { IsUnsignedEncoded (length text.now) }
{
    let start = e.len();
    let written = push_text(text, e);
    truncate_on_error(written, start, e)
}

/// Appends the encoding of a text: its length in bytes as a `u32`, and then its bytes. A part of it
/// may remain on an error.
fn push_text(text: &str, e: &mut Vec<u8>) -> Result<(), EncodeError>
    ensures ok { OnOk result (e.new.items ≡ e.old.items ++ text_encoding text.now) }
    ensures fitting { OnOk result (TextFits text.now) }
    ensures too_long { IsErrOf result EncodeError.TooLong ↔ TextTooLong text.now }
    ensures memory { IsErrOf result EncodeError.Memory → TextFits text.now }
    ensures prefix { take (vec_len e.old) e.new.items ≡ e.old.items }
{
    encode_length(text.len(), e)?;
    e.extend_from_slice(text.as_bytes())?;
    Ok(())
}

/// A `Vec` is encoded as the list of its items.
impl<T: Encode> Encode for Vec<T> {
    ghost use Rattle.wat_lex.specs.binary.Encoding.{ListFits, vec_encoding};

    ghost encoding = { vec_encoding T.encoding };

    ghost fits = { λ list. ListFits T.fits list.items };

    fn fits(&self) -> bool {
        slice_fits(self.as_slice())
    }

    fn encode(&self, e: &mut Vec<u8>) -> Result<(), EncodeError>
        ensures ok { OnOk result (e.new.items ≡ e.old.items ++ vec_encoding T.encoding self.now) }
        ensures fitting { OnOk result (ListFits T.fits self.now.items) }
        ensures too_long { IsErrOf result EncodeError.TooLong ↔ ¬ ListFits T.fits self.now.items }
        ensures too_many { 2 ^ 32 ≤ vec_len self.now → IsErrOf result EncodeError.TooLong }
        ensures memory { IsErrOf result EncodeError.Memory → ListFits T.fits self.now.items }
        ensures err { OnErr result (e.new.items ≡ e.old.items) }

        // The leading bytes are the unique shortest encoding of the length.
        ensures law { IsUnsignedEncoded (vec_len self.now) }
    {
        encode_slice(self.as_slice(), e)
    }
}

/// A `String` is encoded as its text.
impl Encode for String {
    ghost use Rattle.wat_lex.specs.binary.Encoding.{StringFits, string_encoding};

    ghost encoding = { string_encoding };

    ghost fits = { StringFits };

    fn fits(&self) -> bool {
        str_fits(self.as_str())
    }

    fn encode(&self, e: &mut Vec<u8>) -> Result<(), EncodeError>
        ensures ok { OnOk result (e.new.items ≡ e.old.items ++ string_encoding self.now) }
        ensures fitting { OnOk result (StringFits self.now) }
        ensures too_long { IsErrOf result EncodeError.TooLong ↔ StringTooLong self.now }
        ensures memory { IsErrOf result EncodeError.Memory → StringFits self.now }
        ensures err { OnErr result (e.new.items ≡ e.old.items) }

        // The leading bytes are the unique shortest encoding of the length.
        ensures law { IsUnsignedEncoded (length (string_bytes self.now)) }
    {
        encode_str(self.as_str(), e)
    }
}

/// A reference is encoded as the value that it refers to.
impl<'a, T: Encode> Encode for &'a T {
    ghost encoding = { λ value. T.encoding value.now };

    ghost fits = { λ value. T.fits value.now };

    fn fits(&self) -> bool {
        T::fits(*self)
    }

    fn encode(&self, e: &mut Vec<u8>) -> Result<(), EncodeError> {
        T::encode(*self, e)
    }
}

/// A `Box` is encoded as its value.
impl<T: Encode> Encode for Box<T> {
    ghost encoding = { λ value. T.encoding value.value };

    ghost fits = { λ value. T.fits value.value };

    fn fits(&self) -> bool {
        T::fits(&**self)
    }

    fn encode(&self, e: &mut Vec<u8>) -> Result<(), EncodeError> {
        T::encode(&**self, e)
    }
}

/// A pair is encoded as its first part, and then its second.
impl<T: Encode, U: Encode> Encode for (T, U) {
    ghost use Rattle.std.specs.Prelude.{◌++◌};

    ghost encoding = { λ pair. T.encoding pair.0 ++ U.encoding pair.1 };

    ghost fits = { λ pair. T.fits pair.0 × U.fits pair.1 };

    fn fits(&self) -> bool {
        self.0.fits() && self.1.fits()
    }

    fn encode(&self, e: &mut Vec<u8>) -> Result<(), EncodeError> {
        if !self.fits() {
            return Err(EncodeError::TooLong);
        }
        let start = e.len();
        self.0.encode(e)?;
        let written = self.1.encode(e);
        truncate_on_error(written, start, e)
    }
}

/// A triple is encoded as its first part, its second, and then its third.
impl<T: Encode, U: Encode, V: Encode> Encode for (T, U, V) {
    ghost use Rattle.std.specs.Prelude.{◌++◌};

    ghost encoding = { λ parts. T.encoding parts.0 ++ U.encoding parts.1 ++ V.encoding parts.2 };

    ghost fits = { λ parts. T.fits parts.0 × U.fits parts.1 × V.fits parts.2 };

    fn fits(&self) -> bool {
        let (first, second, third) = self;
        first.fits() && second.fits() && third.fits()
    }

    fn encode(&self, e: &mut Vec<u8>) -> Result<(), EncodeError> {
        let (first, second, third) = self;
        ((first, second), third).encode(e)
    }
}
