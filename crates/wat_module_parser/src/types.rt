//! Parses limits, the types of tables and globals, and the keywords of index spaces.
ghost use Rattle.std.specs.Prelude.{◌≡◌, true, Ok, Err, Some};
ghost use Rattle.wat_module_ast.specs.Fields.{space_of};
ghost use Rattle.wat_module_parser.specs.Reading as reading;
ghost use Rattle.wat_module_ast.specs.Grammar.{small};
ghost use Rattle.wat_module_tokens.specs.TokenCursor.{terminals_of};
ghost use Rattle.wat_module_instructions.specs.Parts.{ReadsExactly, SkipsExactly};

use crate::header::{closed, closed_or};
use wat_module_ast::error::{Expected, Fault, FaultKind, Range, Space};
use wat_module_ast::fields::{GlobalType, IndexSpace, Limits, TableType};
use wat_module_ast::instruction::{ReferenceType, ValueType};
use wat_module_instructions::faults::{fault, unexpected};
use wat_module_instructions::reading::{self, value_type};
use wat_module_tokens::stream::TokenCursor;
use wat_module_tokens::token::{DecodedToken, Sign};

/// Returns the index space that a keyword names, or `None` for any other keyword.
pub(crate) fn space_of(word: &str) -> Option<IndexSpace>
    ensures { result ≡ space_of word.now }
{
    if word == "func" {
        Some(IndexSpace::Func)
    } else if word == "table" {
        Some(IndexSpace::Table)
    } else if word == "memory" {
        Some(IndexSpace::Mem)
    } else if word == "global" {
        Some(IndexSpace::Global)
    } else {
        None
    }
}

/// Checks that an integer is below 2^32 and has no sign. Returns it with the tokens after it. `all`
/// starts at the integer, for errors.
fn small<'p, 'a>(
    sign: Sign,
    n: u64,
    all: TokenCursor<'p, 'a>,
    rest: TokenCursor<'p, 'a>,
) -> Result<(u32, TokenCursor<'p, 'a>), Fault<'p, 'a>>
    ensures { ReadsExactly (λ v. v)
        (small sign n (terminals_of all.entry) (terminals_of rest.entry)) result }
{
    match sign {
        Sign::Absent => {
            if n < 0x1_0000_0000 {
                Ok((n as u32, rest))
            } else {
                Err(fault(FaultKind::OutOfRange(Range::Unsigned(0x8000_0000)), all))
            }
        }
        Sign::Plus | Sign::Minus => Err(unexpected(Expected::Unsigned, all)),
    }
}

/// Parses limits: a minimum, and a maximum if an integer comes next. Without a minimum the error
/// says that `expected` is accepted there.
#[tactic(auto, unfolding(crate::specs::Reading::limits_at))]
pub(crate) fn limits<'p, 'a>(
    expected: Expected,
    cursor: TokenCursor<'p, 'a>,
) -> Result<(Limits, TokenCursor<'p, 'a>), Fault<'p, 'a>>
    ensures { ReadsExactly (λ v. v) (reading.limits_at expected (terminals_of cursor.entry))
        result }
{
    match cursor.first() {
        Some((DecodedToken::Integer(sign, n), rest)) => {
            let (min, rest) = small(sign, n, cursor, rest)?;
            maximum(min, rest)
        }
        _ => Err(unexpected(expected, cursor)),
    }
}

/// Parses limits after their minimum: a maximum if an integer comes next.
fn maximum<'p, 'a>(
    min: u32,
    cursor: TokenCursor<'p, 'a>,
) -> Result<(Limits, TokenCursor<'p, 'a>), Fault<'p, 'a>>
    ensures { ReadsExactly (λ v. v) (reading.max_at min (terminals_of cursor.entry)) result }
{
    match cursor.first() {
        Some((DecodedToken::Integer(sign, n), rest)) => {
            let (max, rest) = small(sign, n, cursor, rest)?;
            let max = Some(max);
            Ok((Limits { min, max }, rest))
        }
        _ => Ok((Limits { min, max: None }, cursor)),
    }
}

/// Returns what the grammar accepts after the limits of a memory with this maximum.
pub(crate) fn after_memory_limits(max: Option<u32>) -> Expected
    ensures { result ≡ reading.after_memory_limits max }
{
    match max {
        None => Expected::MaximumOrClose,
        Some(_) => Expected::Close,
    }
}

/// Returns what the grammar accepts after the limits of a table with this maximum.
fn after_table_limits(max: Option<u32>) -> Expected
    ensures { result ≡ reading.after_table_limits max }
{
    match max {
        None => Expected::MaximumOrReferenceType,
        Some(_) => Expected::ReferenceType,
    }
}

/// Parses the type of a table: its limits and the reference type of its elements. Without limits
/// the error says that `expected` is accepted there.
#[tactic(auto, unfolding(crate::specs::Reading::table_type_at))]
pub(crate) fn table_type<'p, 'a>(
    expected: Expected,
    cursor: TokenCursor<'p, 'a>,
) -> Result<(TableType, TokenCursor<'p, 'a>), Fault<'p, 'a>>
    ensures { ReadsExactly (λ v. v) (reading.table_type_at expected (terminals_of cursor.entry))
        result }
{
    let (limits, rest) = limits(expected, cursor)?;
    let (element, rest) = reference_type(limits.max, rest)?;
    Ok((TableType { limits, element }, rest))
}

/// Parses a reference type after the limits of a table with this maximum.
#[tactic(auto, unfolding(crate::specs::Reading::reference_at))]
fn reference_type<'p, 'a>(
    max: Option<u32>,
    cursor: TokenCursor<'p, 'a>,
) -> Result<(ReferenceType, TokenCursor<'p, 'a>), Fault<'p, 'a>>
    ensures { ReadsExactly (λ v. v)
        (reading.reference_at (reading.after_table_limits max) (terminals_of cursor.entry))
        result }
{
    match cursor.first() {
        Some((DecodedToken::Word(word), rest)) => match reading::reference_type(word) {
            Some(of) => Ok((of, rest)),
            None => Err(fault(FaultKind::UnknownWord(after_table_limits(max)), cursor)),
        },
        _ => Err(unexpected(after_table_limits(max), cursor)),
    }
}

/// Parses the type of a global: a value type, which `(mut )` encloses if the global is mutable.
/// Without one the error says that `expected` is accepted there.
#[tactic(auto, unfolding(crate::specs::Reading::global_type_at))]
pub(crate) fn global_type<'p, 'a>(
    expected: Expected,
    cursor: TokenCursor<'p, 'a>,
) -> Result<(GlobalType, TokenCursor<'p, 'a>), Fault<'p, 'a>>
    ensures { ReadsExactly (λ v. v) (reading.global_type_at expected (terminals_of cursor.entry))
        result }
{
    match cursor.first() {
        Some((DecodedToken::Word(word), rest)) => match value_type(word) {
            Some(value) => {
                let is_mutable = false;
                Ok((GlobalType { is_mutable, value }, rest))
            }
            None => Err(fault(FaultKind::UnknownWord(expected), cursor)),
        },
        Some((DecodedToken::Open, rest)) => mutable(rest),
        _ => Err(unexpected(expected, cursor)),
    }
}

/// Parses the type of a mutable global after its opening parenthesis.
fn mutable<'p, 'a>(
    cursor: TokenCursor<'p, 'a>,
) -> Result<(GlobalType, TokenCursor<'p, 'a>), Fault<'p, 'a>>
    ensures { ReadsExactly (λ v. v) (reading.mutable_at (terminals_of cursor.entry)) result }
{
    match cursor.first() {
        Some((DecodedToken::Word(word), rest)) => {
            if word == "mut" {
                mutable_type(rest)
            } else {
                Err(unexpected(Expected::Mut, cursor))
            }
        }
        _ => Err(unexpected(Expected::Mut, cursor)),
    }
}

/// Parses the type of a mutable global after `(mut`: a value type and the closing parenthesis.
fn mutable_type<'p, 'a>(
    cursor: TokenCursor<'p, 'a>,
) -> Result<(GlobalType, TokenCursor<'p, 'a>), Fault<'p, 'a>>
    ensures { ReadsExactly (λ v. v) (reading.mutable_type (terminals_of cursor.entry)) result }
{
    match cursor.first() {
        Some((DecodedToken::Word(word), rest)) => match value_type(word) {
            Some(of) => closing_mutable(of, rest),
            None => Err(fault(FaultKind::UnknownWord(Expected::ValueType), cursor)),
        },
        _ => Err(unexpected(Expected::ValueType, cursor)),
    }
}

/// Parses the type of a mutable global after its value type: the closing parenthesis.
fn closing_mutable<'p, 'a>(
    of: ValueType,
    cursor: TokenCursor<'p, 'a>,
) -> Result<(GlobalType, TokenCursor<'p, 'a>), Fault<'p, 'a>>
    ensures { ReadsExactly (λ v. v)
        (reading.mutable_by (Some of) (terminals_of cursor.entry) (terminals_of cursor.entry))
        result }
{
    let rest = closed(cursor)?;
    let is_mutable = true;
    Ok((
        GlobalType {
            is_mutable,
            value: of,
        },
        rest,
    ))
}

/// Skips two closing parentheses, which must come next, and which alone the grammar accepts there.
pub(crate) fn skip_two_closes<'p, 'a>(
    cursor: TokenCursor<'p, 'a>,
) -> Result<TokenCursor<'p, 'a>, Fault<'p, 'a>>
    ensures { SkipsExactly (reading.skip_two_closes (terminals_of cursor.entry)) result }
{
    skip_two_closes_or(Expected::Close, cursor)
}

/// Skips two closing parentheses, which must come next. Without the first the error says that
/// `expected` is accepted there.
#[inline(always)]
pub(crate) fn skip_two_closes_or<'p, 'a>(
    expected: Expected,
    cursor: TokenCursor<'p, 'a>,
) -> Result<TokenCursor<'p, 'a>, Fault<'p, 'a>>
    ensures { SkipsExactly (reading.skip_two_closes_or expected (terminals_of cursor.entry))
        result }
{
    let rest = closed_or(expected, cursor)?;
    closed(rest)
}
