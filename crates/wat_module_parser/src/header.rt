//! Parses inline exports, and groups of parameters, results and locals.
ghost use Rattle.std.specs.Prelude.{◌≡◌, [], ◌++◌, ◌∷◌, Ok, Err, map, true, false};
ghost use Rattle.std.specs.Prelude.{None, Some, MatchOption, MatchResult};
ghost use Rattle.std.specs.Str.{is_utf8};
ghost use Rattle.wat_module_parser.specs.Groups.{AreListed, IsListed, NoneListed};
ghost use Rattle.wat_module_parser.specs.Reading as reading;
ghost use Rattle.wat_module_ast.specs.Views.{text_of};
ghost use Rattle.wat_module_parser.specs.Views.{IsItem, ItemFaults, NoItem};
ghost use Rattle.wat_module_tokens.specs.TokenCursor.{terminals_of};
ghost use Rattle.wat_module_instructions.specs.Parts.{Faults, ReadsAs, ReadsExactly, SkipsExactly};

use crate::variables::Variables;
use std::alloc::Global;
use std::str;
use wat_module_ast::error::{Expected, Fault, FaultKind, ParseFailure};
use wat_module_ast::instruction::ValueType;
use wat_module_instructions::faults::{fault, unexpected};
use wat_module_instructions::reading::{after, value_type};
use wat_module_tokens::stream::TokenCursor;
use wat_module_tokens::token::DecodedToken;

/// Parses inline exports `(export "name")` as long as one comes next. Returns their names.
pub(crate) fn exports<'p, 'a>(
    alloc: Global,
    cursor: TokenCursor<'p, 'a>,
) -> Result<(Vec<&'a [u8]>, TokenCursor<'p, 'a>), ParseFailure<'p, 'a>>
    ensures { ReadsAs (λ v. map text_of v.items)
        (reading.all reading.export_item (terminals_of cursor.entry)) result }
{
    let mut found = Vec::new(alloc);
    let mut left = cursor;
    'exports: loop {
        match next_export(&mut found, left) {
            Ok(Some(next)) => {
                left = next;
            }
            Ok(None) => return Ok((found, left)),
            Err(refusal) => return Err(refusal),
        }
    }
}

/// Parses groups of variables as long as one comes next. A group begins with an opening parenthesis
/// and `word`, which is `param`, `result` or `local`. A variable may have an identifier only if
/// `may_have_name`.
pub(crate) fn variables<'p, 'a>(
    alloc: Global,
    word: &str,
    may_have_name: bool,
    cursor: TokenCursor<'p, 'a>,
) -> Result<(Variables<'a>, TokenCursor<'p, 'a>), ParseFailure<'p, 'a>>
    ensures { ReadsAs (λ v. v)
        (reading.all (reading.group_item word.now may_have_name) (terminals_of cursor.entry))
        result }
{
    let mut found = Variables::none(alloc);
    let mut left = cursor;
    'groups: loop {
        match next_group(word, may_have_name, &mut found, left) {
            Ok(Some(next)) => {
                left = next;
            }
            Ok(None) => return Ok((found, left)),
            Err(refusal) => return Err(refusal),
        }
    }
}

/// Parses value types as long as a keyword comes next, which must be that of a value type. Appends
/// a variable of each type, without an identifier, to `found`.
fn values<'p, 'a>(
    found: &mut Variables<'a>,
    cursor: TokenCursor<'p, 'a>,
) -> Result<TokenCursor<'p, 'a>, ParseFailure<'p, 'a>>
    ensures { MatchResult result
        (λ l. AreListed (terminals_of cursor.entry) found.old
        found.new (terminals_of l))
        (λ e. Faults (reading.all reading.value_item (terminals_of cursor.entry)) e) }
{
    let mut left = cursor;
    'values: loop {
        match next_value(found, left) {
            Ok(Some(next)) => {
                left = next;
            }
            Ok(None) => return Ok(left),
            Err(refusal) => return Err(refusal),
        }
    }
}

/// Skips a closing parenthesis, which must come next, and which alone the grammar accepts there.
pub(crate) fn closed<'p, 'a>(
    cursor: TokenCursor<'p, 'a>,
) -> Result<TokenCursor<'p, 'a>, Fault<'p, 'a>>
    ensures { SkipsExactly (reading.closed (terminals_of cursor.entry)) result }
{
    closed_or(Expected::Close, cursor)
}

/// Skips a closing parenthesis, which must come next. Otherwise the error says that `expected` is
/// accepted there.
#[inline(always)]
pub(crate) fn closed_or<'p, 'a>(
    expected: Expected,
    cursor: TokenCursor<'p, 'a>,
) -> Result<TokenCursor<'p, 'a>, Fault<'p, 'a>>
    ensures { SkipsExactly (reading.closed_or expected (terminals_of cursor.entry)) result }
{
    match cursor.first() {
        Some((DecodedToken::Close, rest)) => Ok(rest),
        _ => Err(unexpected(expected, cursor)),
    }
}

/// Returns `true` if the bytes are UTF-8.
fn is_utf8(bytes: &[u8]) -> bool
    ensures { result ≡ is_utf8 bytes.now }
{
    match str::from_utf8(bytes) {
        Ok(_) => true,
        Err(_) => false,
    }
}

/// Parses a name: a string whose bytes are UTF-8.
pub(crate) fn utf8_text<'p, 'a>(
    cursor: TokenCursor<'p, 'a>,
) -> Result<(&'a [u8], TokenCursor<'p, 'a>), Fault<'p, 'a>>
    ensures { ReadsExactly (λ v. v.now) (reading.utf8_text (terminals_of cursor.entry)) result }
{
    match cursor.first() {
        Some((DecodedToken::Text(text), rest)) => {
            if is_utf8(text) {
                Ok((text, rest))
            } else {
                Err(fault(FaultKind::NotUtf8, cursor))
            }
        }
        _ => Err(unexpected(Expected::Text, cursor)),
    }
}

/// Parses an inline export after `(export`: its name and its closing parenthesis.
#[tactic(auto, unfolding(crate::specs::Reading::export))]
fn export<'p, 'a>(
    cursor: TokenCursor<'p, 'a>,
) -> Result<(&'a [u8], TokenCursor<'p, 'a>), Fault<'p, 'a>>
    ensures { ReadsExactly (λ v. v.now ∷ []) (reading.export (terminals_of cursor.entry)) result }
{
    let (name, rest) = utf8_text(cursor)?;
    let rest = closed(rest)?;
    Ok((name, rest))
}

/// Parses an inline export and appends its name to `found`. Returns the tokens after it, or `None`
/// if no inline export comes next.
#[tactic(auto, unfolding(crate::specs::Reading::export_item))]
fn next_export<'p, 'a>(
    found: &mut Vec<&'a [u8]>,
    left: TokenCursor<'p, 'a>,
) -> Result<Option<TokenCursor<'p, 'a>>, ParseFailure<'p, 'a>>
    ensures { MatchResult result
        (λ o. MatchOption o
        (NoItem (reading.export_item (terminals_of left.entry)) (map text_of found.old.items)
        (map text_of found.new.items))
        (λ l. IsItem (reading.export_item (terminals_of left.entry))
        (map text_of found.old.items) (map text_of found.new.items) (terminals_of l)))
        (λ e. ItemFaults (reading.export_item (terminals_of left.entry)) e) }
{
    match after("export", left) {
        Some(rest) => {
            let (name, cursor) = export(rest)?;
            found.push(name)?;
            Ok(Some(cursor))
        }
        None => Ok(None),
    }
}

/// Parses a group of variables and appends them to `found`. Returns the tokens after the group, or
/// `None` if no group of this keyword comes next.
#[tactic(auto, unfolding(crate::specs::Reading::group_item))]
fn next_group<'p, 'a>(
    word: &str,
    may_have_name: bool,
    found: &mut Variables<'a>,
    left: TokenCursor<'p, 'a>,
) -> Result<Option<TokenCursor<'p, 'a>>, ParseFailure<'p, 'a>>
    ensures { MatchResult result
        (λ o. MatchOption o
        (NoItem (reading.group_item word.now may_have_name (terminals_of left.entry))
        found.old found.new)
        (λ l. IsItem (reading.group_item word.now may_have_name (terminals_of left.entry))
        found.old found.new
        (terminals_of l)))
        (λ e. ItemFaults (reading.group_item word.now may_have_name (terminals_of left.entry)) e) }
{
    match after(word, left) {
        Some(rest) => {
            let next = group(may_have_name, found, rest)?;
            Ok(Some(next))
        }
        None => Ok(None),
    }
}

/// Parses a value type and appends a variable of this type, without an identifier, to `found`.
/// Returns the tokens after it, or `None` if no keyword comes next.
#[tactic(auto, unfolding(crate::specs::Reading::value_item))]
fn next_value<'p, 'a>(
    found: &mut Variables<'a>,
    left: TokenCursor<'p, 'a>,
) -> Result<Option<TokenCursor<'p, 'a>>, ParseFailure<'p, 'a>>
    ensures { MatchResult result
        (λ o. MatchOption o
        (NoneListed (terminals_of left.entry) found.old
        found.new)
        (λ l. IsListed (terminals_of left.entry) found.old
        found.new (terminals_of l)))
        (λ e. ItemFaults (reading.value_item (terminals_of left.entry)) e) }
{
    match left.first() {
        Some((DecodedToken::Word(word), cursor)) => match value_type(word) {
            Some(of) => {
                found.push(of)?;
                Ok(Some(cursor))
            }
            None => {
                let kind = FaultKind::UnknownWord(Expected::ValueTypeOrClose);
                Err(ParseFailure::Text(fault(kind, left)))
            }
        },
        _ => Ok(None),
    }
}

/// Parses a group of variables after its keyword and appends them to `found`: an identifier and a
/// type, or any number of types; and the closing parenthesis.
#[tactic(auto, unfolding(crate::specs::Reading::group))]
fn group<'p, 'a>(
    may_have_name: bool,
    found: &mut Variables<'a>,
    cursor: TokenCursor<'p, 'a>,
) -> Result<TokenCursor<'p, 'a>, ParseFailure<'p, 'a>>
    ensures { MatchResult result
        (λ l. IsItem (Some (reading.group may_have_name (terminals_of cursor.entry)))
        found.old found.new (terminals_of l))
        (λ e. Faults (reading.group may_have_name (terminals_of cursor.entry)) e) }
{
    match cursor.first() {
        Some((DecodedToken::Id(name), rest)) => {
            if may_have_name {
                named_group(name, found, rest)
            } else {
                Err(ParseFailure::Text(unexpected(Expected::ValueTypeOrClose, cursor)))
            }
        }
        _ => listed(may_have_name, found, cursor),
    }
}

/// Parses a group of one variable after its identifier, and appends it to `found`: a type and the
/// closing parenthesis.
fn named_group<'p, 'a>(
    name: &'a str,
    found: &mut Variables<'a>,
    cursor: TokenCursor<'p, 'a>,
) -> Result<TokenCursor<'p, 'a>, ParseFailure<'p, 'a>>
    ensures { MatchResult result
        (λ l. IsItem (Some (reading.named_group name.now (terminals_of cursor.entry)))
        found.old found.new (terminals_of l))
        (λ e. Faults (reading.named_group name.now (terminals_of cursor.entry)) e) }
{
    match cursor.first() {
        Some((DecodedToken::Word(word), rest)) => match value_type(word) {
            Some(of) => named_type(name, of, found, rest),
            None => {
                let kind = FaultKind::UnknownWord(Expected::ValueType);
                Err(ParseFailure::Text(fault(kind, cursor)))
            }
        },
        _ => Err(ParseFailure::Text(unexpected(Expected::ValueType, cursor))),
    }
}

/// Parses a group of one variable after its identifier and type, and appends it to `found`: the
/// closing parenthesis.
fn named_type<'p, 'a>(
    name: &'a str,
    of: ValueType,
    found: &mut Variables<'a>,
    cursor: TokenCursor<'p, 'a>,
) -> Result<TokenCursor<'p, 'a>, ParseFailure<'p, 'a>>
    ensures { MatchResult result
        (λ l. IsItem
        (Some (reading.named_type name.now (Some of) (terminals_of cursor.entry)
        (terminals_of cursor.entry)))
        found.old found.new (terminals_of l))
        (λ e. Faults
        (reading.named_type name.now (Some of) (terminals_of cursor.entry)
        (terminals_of cursor.entry))
        e) }
{
    let rest = closed(cursor)?;
    found.push_named(name, of)?;
    Ok(rest)
}

/// Parses a group of variables without identifiers, and appends them to `found`: types and the
/// closing parenthesis. `may_have_name` says whether an identifier is accepted before the first
/// type, for errors.
#[tactic(auto, using(crate::proofs::Listing::listed_is), unfolding(crate::specs::Reading::listed))]
fn listed<'p, 'a>(
    may_have_name: bool,
    found: &mut Variables<'a>,
    cursor: TokenCursor<'p, 'a>,
) -> Result<TokenCursor<'p, 'a>, ParseFailure<'p, 'a>>
    ensures { MatchResult result
        (λ l. IsItem (Some (reading.listed may_have_name (terminals_of cursor.entry)))
        found.old found.new (terminals_of l))
        (λ e. Faults (reading.listed may_have_name (terminals_of cursor.entry)) e) }
{
    let rest = values(found, cursor)?;
    let rest = values_closed(may_have_name, cursor, rest)?;
    Ok(rest)
}

/// Skips the closing parenthesis of a group whose value types begin at `start` and end at `cursor`.
fn values_closed<'p, 'a>(
    may_have_name: bool,
    start: TokenCursor<'p, 'a>,
    cursor: TokenCursor<'p, 'a>,
) -> Result<TokenCursor<'p, 'a>, Fault<'p, 'a>>
    ensures { SkipsExactly
        (reading.closed_or (reading.after_values may_have_name (terminals_of start.entry))
        (terminals_of cursor.entry))
        result }
{
    match cursor.first() {
        Some((DecodedToken::Close, rest)) => Ok(rest),
        _ => Err(unexpected(after_values(may_have_name, start), cursor)),
    }
}

/// Returns what the grammar accepts after the value types of a group, which begin at `start`. An
/// identifier is accepted before the first one if `may_have_name` is `true`.
fn after_values(may_have_name: bool, start: TokenCursor<'_, '_>) -> Expected
    ensures { result ≡ reading.after_values may_have_name (terminals_of start.entry) }
{
    if !may_have_name {
        return Expected::ValueTypeOrClose;
    }
    match start.first() {
        Some((DecodedToken::Word(_), _)) => Expected::ValueTypeOrClose,
        _ => Expected::VariableOrClose,
    }
}
