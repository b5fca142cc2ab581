//! Finds the fields of a module.
ghost use Rattle.std.specs.Prelude.{◌≡◌, ◌∷◌, MatchOption, None, Some};
ghost use Rattle.std.specs.Option.{option_map};
ghost use Rattle.wat_module_ast.specs.Grammar.{label_of};
ghost use Rattle.wat_module_places.specs.Fields.{fields_in, nth_field};
ghost use Rattle.wat_module_tokens.specs.TokenCursor.{terminals_of};

use wat_module_tokens::stream::TokenCursor;
use wat_module_tokens::token::DecodedToken;

/// Returns the tokens from the first field of a module on. `tokens` has all tokens of the text.
pub(crate) fn first_field<'p, 'a>(tokens: TokenCursor<'p, 'a>) -> TokenCursor<'p, 'a>
    ensures { terminals_of result ≡ fields_in (terminals_of tokens.entry) }
{
    match tokens.first() {
        Some((DecodedToken::Open, inside)) => match inside.first() {
            Some((DecodedToken::Word(word), rest)) if word == "module" => after_name(rest),
            _ => tokens,
        },
        _ => tokens,
    }
}

/// Returns the tokens after an optional identifier.
fn after_name<'p, 'a>(tokens: TokenCursor<'p, 'a>) -> TokenCursor<'p, 'a>
    ensures { terminals_of result ≡ (label_of (terminals_of tokens.entry)).1 }
{
    match tokens.first() {
        Some((DecodedToken::Id(_), rest)) => rest,
        _ => tokens,
    }
}

/// Returns the tokens of a field by its index, from its keyword on, or `None` if there are not that
/// many groups. `fields` starts at the first field.
pub(crate) fn nth_field<'p, 'a>(
    fields: TokenCursor<'p, 'a>,
    index: usize,
) -> Option<TokenCursor<'p, 'a>>
    ensures { option_map terminals_of result ≡ nth_field index (terminals_of fields.entry) }
{
    let mut before = index;
    let mut left = fields;
    'field: loop {
        let Some((inside, rest)) = left.group() else {
            return None;
        };
        if before == 0 {
            return Some(inside);
        }
        before -= 1;
        left = rest;
    }
}
