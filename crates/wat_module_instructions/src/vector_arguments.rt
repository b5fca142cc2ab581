//! Parses the immediates of vector instructions.
ghost use Rattle.std.specs.Prelude.{◌≡◌, ◌<◌, ◌≤◌, ◌^◌, ◌*◌, Ok, Err, suc, IfOk, IfSome};
ghost use Rattle.std.specs.Prelude.{MatchOption, MatchResult};
ghost use Rattle.wat_module_ast.specs.Grammar as grammar;
ghost use Rattle.wat_module_tokens.specs.TokenCursor.{terminals_of};
ghost use Rattle.wat_module_instructions.specs.Parts.{Faults, IsIndex, IsLane, ReadsAs};
ghost use Rattle.wat_module_instructions.specs.Parts.{ReadsExactly};

use crate::faults::{fault, integer_range, unexpected};
use crate::floats::{float_32, float_64};
use crate::memory::{align_at, offset_at};
use std::alloc::Global;
use wat_module_ast::error::{Expected, Fault, FaultKind, ParseFailure, Range};
use wat_module_ast::instruction::Argument;
use wat_module_ast::vectors::{Lane, VectorBytes};
use wat_module_tokens::stream::TokenCursor;
use wat_module_tokens::token::{DecodedToken, Sign};

/// Parses a lane index: an unsigned 8-bit integer.
fn lane_index<'p, 'a>(
    cursor: TokenCursor<'p, 'a>,
) -> Result<(u8, TokenCursor<'p, 'a>), Fault<'p, 'a>>
    ensures { ReadsExactly (λ v. v) (grammar.lane_index (terminals_of cursor.entry)) result }
{
    match cursor.first() {
        Some((DecodedToken::Integer(Sign::Absent, n), rest)) => {
            if n < 0x100 {
                Ok((n as u8, rest))
            } else {
                Err(fault(FaultKind::OutOfRange(Range::Unsigned(0x80)), cursor))
            }
        }
        _ => Err(unexpected(Expected::LaneIndex, cursor)),
    }
}

/// Parses a lane index as an immediate.
pub(crate) fn lane<'p, 'a>(
    cursor: TokenCursor<'p, 'a>,
) -> Result<(Argument, TokenCursor<'p, 'a>), Fault<'p, 'a>>
    ensures { ReadsExactly (λ v. v)
        (grammar.with_lane (grammar.lane_index (terminals_of cursor.entry))) result }
{
    let (n, rest) = lane_index(cursor)?;
    Ok((Argument::Lane(n), rest))
}

/// Parses a memory argument and a lane index. The default alignment has the exponent `natural`.
pub(crate) fn memory_lane<'p, 'a>(
    natural: u8,
    cursor: TokenCursor<'p, 'a>,
) -> Result<(Argument, TokenCursor<'p, 'a>), Fault<'p, 'a>>
    ensures { ReadsExactly (λ v. v) (grammar.memory_lane natural (terminals_of cursor.entry))
        result }
{
    let (offset, rest) = offset_at(cursor);
    let (align, rest) = align_at(natural, rest);
    let (n, rest) = lane_index(rest)?;
    Ok((Argument::MemoryLane(align, offset, n), rest))
}

/// The number of lanes, or lane indices, not yet parsed, and the remaining tokens.
#[derive(Clone, Copy)]
struct Left<'p, 'a> {
    lanes: usize,
    cursor: TokenCursor<'p, 'a>,
}

/// Parses the 16 lane indices of `i8x16.shuffle`.
fn lane_indices<'p, 'a>(
    alloc: Global,
    cursor: TokenCursor<'p, 'a>,
) -> Result<(Vec<u8>, TokenCursor<'p, 'a>), ParseFailure<'p, 'a>>
    ensures { ReadsAs (λ v. v.items) (grammar.lane_indices 16 (terminals_of cursor.entry)) result }
{
    let mut indices = Vec::new(alloc);
    let mut left = Left { lanes: 16, cursor };
    'indices: loop {
        match next_index(&mut indices, left) {
            Ok(Some(next)) => {
                left = next;
            }
            Ok(None) => return Ok((indices, left.cursor)),
            Err(refusal) => return Err(refusal),
        }
    }
}

/// Parses a lane index and appends it to `indices`. Returns `None` if all indices are parsed.
fn next_index<'p, 'a>(
    indices: &mut Vec<u8>,
    left: Left<'p, 'a>,
) -> Result<Option<Left<'p, 'a>>, ParseFailure<'p, 'a>>
    ensures { MatchResult result
        (λ o. MatchOption o
        ((left.entry.lanes ≡ 0) × (indices.new.items ≡ indices.old.items))
        (λ l. (left.entry.lanes ≡ suc l.lanes) ×
        IsIndex (terminals_of left.entry.cursor) indices.old.items indices.new.items
        (terminals_of l.cursor)))
        (λ e. (0 < left.entry.lanes) ×
        Faults (grammar.lane_index (terminals_of left.entry.cursor)) e) }
{
    if left.lanes == 0 {
        return Ok(None);
    }
    let (index, rest) = lane_index(left.cursor)?;
    indices.push(index)?;
    Ok(Some(Left {
        lanes: left.lanes - 1,
        cursor: rest,
    }))
}

/// Parses the lane indices of `i8x16.shuffle` as an immediate, with a byte for each index.
pub(crate) fn shuffle<'p, 'a>(
    alloc: Global,
    cursor: TokenCursor<'p, 'a>,
) -> Result<(Argument, TokenCursor<'p, 'a>), ParseFailure<'p, 'a>>
    ensures { ReadsAs (λ v. v) (grammar.shuffle (terminals_of cursor.entry)) result }
{
    let (indices, rest) = lane_indices(alloc, cursor)?;
    let bytes = VectorBytes::new(alloc, indices)?;
    Ok((Argument::Bytes(bytes), rest))
}

/// Returns the bits of an integer, in two's complement if it is negative. `half` is the value of
/// the highest bit. Returns `None` if the integer does not fit.
fn integer_bits(half: u64, sign: Sign, size: u64) -> Option<u64>
    requires { (0 < half) × (half ≤ 2 ^ 63) }
    ensures is { result ≡ grammar.integer_bits half sign size }
    ensures small { IfSome result (λ n. n < half * 2) }
{
    match sign {
        Sign::Absent => {
            if u128::from(size) < u128::from(half) * 2 {
                Some(size)
            } else {
                None
            }
        }
        Sign::Plus => { if size < half { Some(size) } else { None } }
        Sign::Minus => {
            if size == 0 {
                Some(0)
            } else if size <= half {
                Some(half - size + half)
            } else {
                None
            }
        }
    }
}

/// Parses an integer, which may be negative, and returns its bits. `half` is the value of the
/// highest bit.
fn integer<'p, 'a>(
    half: u64,
    cursor: TokenCursor<'p, 'a>,
) -> Result<(u64, TokenCursor<'p, 'a>), Fault<'p, 'a>>
    requires { (0 < half) × (half ≤ 2 ^ 63) }
    ensures is { ReadsExactly (λ v. v) (grammar.integer half (terminals_of cursor.entry)) result }
    ensures small { IfOk result (λ r. r.0 < half * 2) }
{
    match cursor.first() {
        Some((DecodedToken::Integer(sign, size), rest)) => match integer_bits(half, sign, size) {
            Some(n) => Ok((n, rest)),
            None => Err(fault(FaultKind::OutOfRange(integer_range(half, sign)), cursor)),
        },
        _ => Err(unexpected(Expected::Integer, cursor)),
    }
}

/// Parses a lane and appends its bytes in little-endian order.
fn add_lane<'p, 'a>(
    alloc: Global,
    lane: Lane,
    bytes: &mut Vec<u8>,
    cursor: TokenCursor<'p, 'a>,
) -> Result<TokenCursor<'p, 'a>, ParseFailure<'p, 'a>>
    ensures { MatchResult result
        (λ r. IsLane lane (terminals_of cursor.entry) bytes.old.items bytes.new.items
        (terminals_of r))
        (λ e. Faults (grammar.lane_of lane (terminals_of cursor.entry)) e) }
{
    match lane {
        Lane::I8 => {
            let (n, rest) = integer(0x80, cursor)?;
            bytes.extend_from_slice(&(n as u8).to_le_bytes())?;
            Ok(rest)
        }
        Lane::I16 => {
            let (n, rest) = integer(0x8000, cursor)?;
            bytes.extend_from_slice(&(n as u16).to_le_bytes())?;
            Ok(rest)
        }
        Lane::I32 => {
            let (n, rest) = integer(0x8000_0000, cursor)?;
            bytes.extend_from_slice(&(n as u32).to_le_bytes())?;
            Ok(rest)
        }
        Lane::I64 => {
            let (n, rest) = integer(0x8000_0000_0000_0000, cursor)?;
            bytes.extend_from_slice(&n.to_le_bytes())?;
            Ok(rest)
        }
        Lane::F32 => add_float_32(alloc, bytes, cursor),
        Lane::F64 => add_float_64(alloc, bytes, cursor),
    }
}

/// Parses a lane that is a 32-bit float, and appends its bytes in little-endian order.
fn add_float_32<'p, 'a>(
    alloc: Global,
    bytes: &mut Vec<u8>,
    cursor: TokenCursor<'p, 'a>,
) -> Result<TokenCursor<'p, 'a>, ParseFailure<'p, 'a>>
    ensures { MatchResult result
        (λ r. IsLane Lane.F32 (terminals_of cursor.entry) bytes.old.items bytes.new.items
        (terminals_of r))
        (λ e. Faults (grammar.lane_of Lane.F32 (terminals_of cursor.entry)) e) }
{
    let (n, rest) = float_32(alloc, cursor)?;
    bytes.extend_from_slice(&n.to_le_bytes())?;
    Ok(rest)
}

/// Parses a lane that is a 64-bit float, and appends its bytes in little-endian order.
fn add_float_64<'p, 'a>(
    alloc: Global,
    bytes: &mut Vec<u8>,
    cursor: TokenCursor<'p, 'a>,
) -> Result<TokenCursor<'p, 'a>, ParseFailure<'p, 'a>>
    ensures { MatchResult result
        (λ r. IsLane Lane.F64 (terminals_of cursor.entry) bytes.old.items bytes.new.items
        (terminals_of r))
        (λ e. Faults (grammar.lane_of Lane.F64 (terminals_of cursor.entry)) e) }
{
    let (n, rest) = float_64(alloc, cursor)?;
    bytes.extend_from_slice(&n.to_le_bytes())?;
    Ok(rest)
}

/// Returns the number of lanes of a vector with this lane type.
fn lane_count(lane: Lane) -> usize
    ensures { result ≡ grammar.lane_count lane }
{
    match lane {
        Lane::I8 => 16,
        Lane::I16 => 8,
        Lane::I32 | Lane::F32 => 4,
        Lane::I64 | Lane::F64 => 2,
    }
}

/// Parses all lanes of a vector. Returns their 16 bytes and the remaining tokens.
fn lanes<'p, 'a>(
    alloc: Global,
    lane: Lane,
    cursor: TokenCursor<'p, 'a>,
) -> Result<(Vec<u8>, TokenCursor<'p, 'a>), ParseFailure<'p, 'a>>
    ensures { ReadsAs (λ v. v.items)
        (grammar.lanes_from lane (grammar.lane_count lane) (terminals_of cursor.entry)) result }
{
    let mut bytes = Vec::new(alloc);
    let mut left = Left {
        lanes: lane_count(lane),
        cursor,
    };
    'lanes: loop {
        match next_lane(alloc, lane, &mut bytes, left) {
            Ok(Some(next)) => {
                left = next;
            }
            Ok(None) => return Ok((bytes, left.cursor)),
            Err(refusal) => return Err(refusal),
        }
    }
}

/// Parses a lane and appends its bytes to `bytes`. Returns `None` if all lanes are parsed.
fn next_lane<'p, 'a>(
    alloc: Global,
    lane: Lane,
    bytes: &mut Vec<u8>,
    left: Left<'p, 'a>,
) -> Result<Option<Left<'p, 'a>>, ParseFailure<'p, 'a>>
    ensures { MatchResult result
        (λ o. MatchOption o
        ((left.entry.lanes ≡ 0) × (bytes.new.items ≡ bytes.old.items))
        (λ l. (left.entry.lanes ≡ suc l.lanes) ×
        IsLane lane (terminals_of left.entry.cursor) bytes.old.items bytes.new.items
        (terminals_of l.cursor)))
        (λ e. (0 < left.entry.lanes) ×
        Faults (grammar.lane_of lane (terminals_of left.entry.cursor)) e) }
{
    if left.lanes == 0 {
        return Ok(None);
    }
    let cursor = add_lane(alloc, lane, bytes, left.cursor)?;
    Ok(Some(Left {
        lanes: left.lanes - 1,
        cursor,
    }))
}

/// Parses the lanes of a vector as an immediate.
pub(crate) fn vector<'p, 'a>(
    alloc: Global,
    lane: Lane,
    cursor: TokenCursor<'p, 'a>,
) -> Result<(Argument, TokenCursor<'p, 'a>), ParseFailure<'p, 'a>>
    ensures { ReadsAs (λ v. v) (grammar.vector_of lane (terminals_of cursor.entry)) result }
{
    let (bytes, rest) = lanes(alloc, lane, cursor)?;
    let bytes = VectorBytes::new(alloc, bytes)?;
    Ok((Argument::Bytes(bytes), rest))
}

/// Returns the lane type of a vector shape, or `None` for any other keyword.
fn shape(word: &str) -> Option<Lane>
    ensures { result ≡ grammar.shape word.now }
{
    if word == "i8x16" {
        Some(Lane::I8)
    } else if word == "i16x8" {
        Some(Lane::I16)
    } else if word == "i32x4" {
        Some(Lane::I32)
    } else if word == "i64x2" {
        Some(Lane::I64)
    } else if word == "f32x4" {
        Some(Lane::F32)
    } else if word == "f64x2" {
        Some(Lane::F64)
    } else {
        None
    }
}

/// Parses the shape and the lanes of `v128.const`.
pub(crate) fn constant<'p, 'a>(
    alloc: Global,
    cursor: TokenCursor<'p, 'a>,
) -> Result<(Argument, TokenCursor<'p, 'a>), ParseFailure<'p, 'a>>
    ensures { ReadsAs (λ v. v) (grammar.constant (terminals_of cursor.entry)) result }
{
    match cursor.first() {
        Some((DecodedToken::Word(word), rest)) => match shape(word) {
            Some(lane) => vector(alloc, lane, rest),
            None => Err(ParseFailure::Text(fault(FaultKind::UnknownWord(Expected::Shape), cursor))),
        },
        _ => Err(ParseFailure::Text(unexpected(Expected::Shape, cursor))),
    }
}
