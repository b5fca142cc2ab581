//! Finds the position of a field of a module, and of an instruction in it.
ghost use Rattle.std.specs.Prelude.{◌≡◌, List, IfOk};
ghost use Rattle.std.specs.Option.{option_map};
ghost use Rattle.wat_module_ast.specs.Fields.{Field};
ghost use Rattle.wat_module_ast.specs.Modules.{Module};
ghost use Rattle.wat_module_places.specs.Places.{keyword_in, place_in};
ghost use Rattle.wat_module_tokens.specs.TokenCursor.{terminals_of};

use crate::fields::{first_field, nth_field};
use crate::walk::place_at;
use std::alloc::{AllocError, Global};
use wat_module_tokens::stream::TokenCursor;

/// Returns the tokens from the keyword of a field on, by the index of the field, or `None` if there
/// is no such field. `tokens` has all tokens of the text, which should be a module: for others the
/// result has no meaning.
pub fn place_of_field<'p, 'a>(
    tokens: TokenCursor<'p, 'a>,
    field: usize,
) -> Option<TokenCursor<'p, 'a>>
    ensures { (fs : List Field) (m : Module (terminals_of tokens.entry) fs) →
        option_map terminals_of result ≡ keyword_in m field }
{
    nth_field(first_field(tokens), field)
}

/// Returns the tokens from the position of an instruction on, by the index of its field and its
/// index among the instructions of the expressions in the field. Returns the tokens from the
/// keyword of the field on if the instruction has no position, or `None` if there is no such field.
/// `tokens` has all tokens of the text, which should be a module: for others the result has no
/// meaning.
pub fn place_in_module<'p, 'a>(
    alloc: Global,
    tokens: TokenCursor<'p, 'a>,
    field: usize,
    instruction: usize,
) -> Result<Option<TokenCursor<'p, 'a>>, AllocError>
    ensures { (fs : List Field) (m : Module (terminals_of tokens.entry) fs) →
        IfOk result (λ found.
        option_map terminals_of found ≡ place_in m field instruction) }
{
    let Some(keyword) = place_of_field(tokens, field) else {
        return Ok(None);
    };
    match place_at(alloc, keyword, instruction)? {
        Some(place) => Ok(Some(place)),
        None => Ok(Some(keyword)),
    }
}
