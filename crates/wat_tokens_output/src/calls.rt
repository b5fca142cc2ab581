//! Parses the command-line arguments that name calls of a parser.
ghost use Rattle.std.specs.Prelude.{IfOk, OnErr, MatchOption};
ghost use Rattle.std.specs.Option.{SomeIff};
ghost use Rattle.std.specs.Str.Parse.{digits_value};
ghost use Rattle.wat_tokens_output.specs.Calls.{IsCount, NamesCall, NamesNoCall, HasName};

use std::alloc::{AllocError, Global};
use wat_lexer_parser::parser::Call;

/// Number of digits of the longest count.
const MOST_DIGITS: usize = 9;

/// Parses a count of one to nine decimal digits.
fn read_count(digits: &str) -> Option<usize>
    ensures { SomeIff result (IsCount digits.now) (digits_value 10 digits.now) }
{
    // `parse` accepts a sign too.
    if digits.len() > MOST_DIGITS || digits.starts_with('+') {
        return None;
    }
    digits.parse().ok()
}

/// Parses an argument that names a call: `look`, `take`, `comment`, `reg=NAME`, `unreg=NAME` or
/// `parens=COUNT`. Returns `None` for any other argument.
///
/// # Errors
///
/// Fails if the allocation of a name fails.
pub fn read_call(alloc: Global, word: &str) -> Result<Option<Call>, AllocError>
    ensures spelled { IfOk result (λ call.
        MatchOption call (NamesNoCall word.now) (NamesCall word.now)) }

    // No other argument allocates.
    ensures refused { OnErr result (HasName word.now) }
{
    if let Some(name) = word.strip_prefix("reg=") {
        return Ok(Some(Call::Register(String::from_str(alloc, name)?)));
    }
    if let Some(name) = word.strip_prefix("unreg=") {
        return Ok(Some(Call::Unregister(String::from_str(alloc, name)?)));
    }
    if let Some(digits) = word.strip_prefix("parens=") {
        return Ok(read_count(digits).map(|count| Call::Parens(count)));
    }
    Ok(match word {
        "look" => Some(Call::Look),
        "take" => Some(Call::Take),
        "comment" => Some(Call::Comment),
        _ => None,
    })
}
