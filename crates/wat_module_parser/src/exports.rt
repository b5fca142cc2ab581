//! Parses export fields: `(export "name" (func 0))`.
ghost use Rattle.std.specs.Prelude.{◌≡◌, [], ◌∷◌, Some};
ghost use Rattle.wat_module_parser.specs.Reading as reading;
ghost use Rattle.wat_module_ast.specs.Views.{field_of};
ghost use Rattle.wat_module_parser.specs.Views.{context_of};
ghost use Rattle.wat_module_tokens.specs.TokenCursor.{terminals_of};
ghost use Rattle.wat_module_instructions.specs.Parts.{ReadsExactly};

use crate::header::utf8_text;
use crate::names::{Names, names_in};
use crate::types::{skip_two_closes, space_of};
use wat_module_ast::error::{Expected, Fault, Space};
use wat_module_ast::fields::{Export, Field, IndexSpace};
use wat_module_instructions::faults::unexpected;
use wat_module_instructions::reading;
use wat_module_tokens::stream::TokenCursor;
use wat_module_tokens::token::DecodedToken;

/// Parses an export field after its keyword.
pub(crate) fn export_at<'p, 'a>(
    names: &Names<'a>,
    cursor: TokenCursor<'p, 'a>,
) -> Result<(Field<'a>, TokenCursor<'p, 'a>), Fault<'p, 'a>>
    ensures { ReadsExactly (λ v. field_of v ∷ [])
        (reading.export_at (context_of names.now) (terminals_of cursor.entry)) result }
{
    let (name, rest) = utf8_text(cursor)?;
    external(names, name, rest)
}

/// Parses the description of an export, which begins with an opening parenthesis, after its name.
#[tactic(auto, unfolding(crate::specs::Reading::external_at))]
fn external<'p, 'a>(
    names: &Names<'a>,
    name: &'a [u8],
    cursor: TokenCursor<'p, 'a>,
) -> Result<(Field<'a>, TokenCursor<'p, 'a>), Fault<'p, 'a>>
    ensures { ReadsExactly (λ v. field_of v ∷ [])
        (reading.external_at (context_of names.now) name.now (terminals_of cursor.entry)) result }
{
    match cursor.first() {
        Some((DecodedToken::Open, rest)) => external_word(names, name, rest),
        _ => Err(unexpected(Expected::ExportDescription, cursor)),
    }
}

/// Parses the description of an export after its opening parenthesis.
fn external_word<'p, 'a>(
    names: &Names<'a>,
    name: &'a [u8],
    cursor: TokenCursor<'p, 'a>,
) -> Result<(Field<'a>, TokenCursor<'p, 'a>), Fault<'p, 'a>>
    ensures { ReadsExactly (λ v. field_of v ∷ [])
        (reading.external_word (context_of names.now) name.now (terminals_of cursor.entry)) result }
{
    match cursor.first() {
        Some((DecodedToken::Word(word), rest)) => match space_of(word) {
            Some(space) => external_index(names, name, space, rest),
            None => Err(unexpected(Expected::ItemKind, cursor)),
        },
        _ => Err(unexpected(Expected::ItemKind, cursor)),
    }
}

/// Returns the index space of errors for the items of an index space.
fn kind_of(space: IndexSpace) -> Space
    ensures { result ≡ reading.kind_of space }
{
    match space {
        IndexSpace::Func => Space::Func,
        IndexSpace::Table => Space::Table,
        IndexSpace::Mem => Space::Memory,
        IndexSpace::Global => Space::Global,
    }
}

/// Parses the description of an export after `func`, `table`, `memory` or `global`, and the closing
/// parentheses of the description and of the field.
fn external_index<'p, 'a>(
    names: &Names<'a>,
    name: &'a [u8],
    space: IndexSpace,
    cursor: TokenCursor<'p, 'a>,
) -> Result<(Field<'a>, TokenCursor<'p, 'a>), Fault<'p, 'a>>
    ensures { ReadsExactly (λ v. field_of v ∷ [])
        (reading.external_by (context_of names.now) name.now (Some space)
        (terminals_of cursor.entry) (terminals_of cursor.entry))
        result }
{
    let (index, rest) = reading::index(kind_of(space), names_in(names, space), cursor)?;
    let rest = skip_two_closes(rest)?;
    Ok((Field::Export(Export { name, space, index }), rest))
}
