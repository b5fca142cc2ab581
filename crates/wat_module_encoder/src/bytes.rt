//! Appends integers, byte strings and sections to the bytes of a module.
ghost use Rattle.std.specs.Prelude.{◌≡◌, ◌<◌, pos, ◌++◌, ◌^◌, ◌∷◌, [], OnOk};
ghost use Rattle.wat_lex.specs.binary.Encoding.{text_encoding};
ghost use Rattle.wat_lex.specs.binary.Leb128.{signed_leb128, unsigned_leb128};
ghost use Rattle.wat_module_encoder.specs.Views.{counted_section, section_head};

use std::alloc::{AllocError, Global};
use wat_lex::encode::{Encode, EncodeError};

/// Converts the error of encoding an integer, which must be an allocation failure.
fn refused(error: EncodeError) -> AllocError
    requires { error ≡ EncodeError.Memory }
{
    let _ = error;
    AllocError
}

/// Appends an unsigned integer in the shortest LEB128 encoding.
pub(crate) fn put(out: &mut Vec<u8>, n: usize) -> Result<(), AllocError>
    ensures { OnOk result (out.new.items ≡ out.old.items ++ unsigned_leb128 n) }
{
    match (n as u64).encode(out) {
        Ok(()) => Ok(()),
        Err(error) => Err(refused(error)),
    }
}

/// Appends a byte as it is.
pub(crate) fn put_byte(out: &mut Vec<u8>, byte: u8) -> Result<(), AllocError>
    ensures { OnOk result (out.new.items ≡ out.old.items ++ byte ∷ []) }
{
    out.push(byte)?;
    Ok(())
}

/// Appends bytes, without their length.
pub(crate) fn put_bytes(out: &mut Vec<u8>, bytes: &[u8]) -> Result<(), AllocError>
    ensures { OnOk result (out.new.items ≡ out.old.items ++ bytes.now) }
{
    out.extend_from_slice(bytes)?;
    Ok(())
}

/// Appends the length of `bytes`, and then `bytes`.
pub(crate) fn put_sized(out: &mut Vec<u8>, bytes: &[u8]) -> Result<(), AllocError>
    ensures { OnOk result (out.new.items ≡ out.old.items ++ text_encoding bytes.now) }
{
    put(out, bytes.len())?;
    put_bytes(out, bytes)
}

/// Appends two unsigned integers, each in the shortest LEB128 encoding.
pub(crate) fn put_pair(out: &mut Vec<u8>, first: usize, second: usize) -> Result<(), AllocError>
    ensures { OnOk result (out.new.items ≡
        out.old.items ++ (unsigned_leb128 first ++ unsigned_leb128 second)) }
{
    put(out, first)?;
    put(out, second)
}

/// Appends a signed integer in the shortest signed LEB128 encoding.
pub(crate) fn put_integer(out: &mut Vec<u8>, n: i64) -> Result<(), AllocError>
    ensures { OnOk result (out.new.items ≡ out.old.items ++ signed_leb128 n) }
{
    match n.encode(out) {
        Ok(()) => Ok(()),
        Err(error) => Err(refused(error)),
    }
}

/// Appends a nonnegative integer, which must be below 2^63, in the shortest signed LEB128 encoding.
pub(crate) fn put_signed(out: &mut Vec<u8>, n: usize) -> Result<(), AllocError>
    requires { n < 2 ^ 63 }
    ensures { OnOk result (out.new.items ≡ out.old.items ++ signed_leb128 (pos n)) }
{
    put_integer(out, n as i64)
}

/// Appends a section: its id `number`, its size, the count of its items, and `items`, the
/// concatenated encodings of its `count` items. Appends nothing if `count` is 0.
pub(crate) fn put_section(
    alloc: Global,
    out: &mut Vec<u8>,
    number: u8,
    count: usize,
    items: &[u8],
) -> Result<(), AllocError>
    ensures { OnOk result (out.new.items ≡
        out.old.items ++ counted_section number count items.now) }
{
    if count == 0 {
        return Ok(());
    }
    put_head(alloc, out, number, count, items.len())?;
    out.extend_from_slice(items)?;
    Ok(())
}

/// Appends the beginning of a section: its id `number`, its size in bytes, and the count of its
/// items. The caller appends the items, whose encodings have `len` bytes together. If `len` is
/// 2^63 or more, which no `Vec` can have, the result is unspecified.
pub(crate) fn put_head(
    alloc: Global,
    out: &mut Vec<u8>,
    number: u8,
    count: usize,
    len: usize,
) -> Result<(), AllocError>
    ensures { OnOk result (len < 2 ^ 63 →
        out.new.items ≡ out.old.items ++ section_head number count len) }
{
    let mut counted = Vec::new(alloc);
    put(&mut counted, count)?;
    out.push(number)?;
    put(out, counted.len().saturating_add(len))?;
    out.extend_from_slice(&counted)?;
    Ok(())
}
