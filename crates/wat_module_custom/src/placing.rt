//! The custom sections among the items of a text.
ghost use Rattle.std.specs.Prelude.{◌≡◌, ◌<◌, ◌^◌, ◌==◌, ◌&&◌, suc, [], ◌∷◌, map, true, MatchOption};
ghost use Rattle.wat_lexer_parser.specs.parser.State.{Answers};
ghost use Rattle.wat_lex.specs.errors.Errors.{IsUnlessMemory};
ghost use Rattle.wat_module_custom.specs.Customs.{head, level, misplaced, pieces, placed_by};
ghost use Rattle.wat_module_custom.specs.Customs.{sections_in};
ghost use Rattle.wat_module_custom.specs.Values.{item_of, section_of};

use crate::reading::{Item, Piece};
use crate::sections::CustomSection;
use std::alloc::Global;
use wat_lexer_parser::Error;
use wat_lexer_parser::token::Span;

/// Returns the first token outside of custom annotations, and the items after it.
fn next_piece<'p, 'a>(items: &'p [Item<'a>]) -> Option<(Piece, &'p [Item<'a>])>
    ensures { MatchOption result
        (pieces (map item_of items.now) ≡ [])
        (λ r. pieces (map item_of items.now) ≡ r.0 ∷ pieces (map item_of r.1.now)) }
{
    for index in 0..items.len() {
        if let Item::Plain(piece) = &items[index] {
            return Some((*piece, &items[index + 1..]));
        }
    }
    None
}

/// Returns the number of tokens before the first field of a module.
fn head(items: &[Item<'_>]) -> usize
    ensures { result ≡ head (pieces (map item_of items.now)) }
{
    let Some((Piece::Open, after)) = next_piece(items) else {
        return 0;
    };
    let Some((Piece::Module, after)) = next_piece(after) else {
        return 0;
    };
    match next_piece(after) {
        Some((Piece::Id, _)) => 3,
        _ => 2,
    }
}

/// Returns the custom sections of the items of a module, or an error at the first annotation where
/// no field may be.
pub fn placed<'a>(
    alloc: Global,
    text: &str,
    items: Vec<Item<'a>>,
) -> Result<Vec<CustomSection<'a>>, Error>
    ensures { Answers true (λ v. map section_of v.items)
        (placed_by text.now (sections_in (map item_of items.entry.items))) result }
{
    let mut left = head(&items);
    let mut depth = 1_usize;
    let mut sections = Vec::new(alloc);
    for item in items {
        match item {
            Item::Plain(piece) => {
                if left > 0 {
                    left -= 1;
                } else {
                    depth = level(piece, depth);
                }
            }
            Item::Annotated(section, at) => {
                if !is_field_place(left, depth) {
                    return Err(misplaced(alloc, text, at));
                }
                sections.push(section)?;
            }
        }
    }
    Ok(sections)
}

/// Returns the number of open groups after a token.
fn level(piece: Piece, depth: usize) -> usize
    ensures { suc depth < 2 ^ 64 → result ≡ level piece depth }
{
    match piece {
        Piece::Open => depth.saturating_add(1),
        Piece::Close => depth.saturating_sub(1),
        Piece::Module | Piece::Id | Piece::Other => depth,
    }
}

/// Returns `true` if a field may be where `left` tokens follow before the first field, and
/// `depth` groups are open.
fn is_field_place(left: usize, depth: usize) -> bool
    ensures { result ≡ ((left == 0) && (depth == 1)) }
{
    left == 0 && depth == 1
}

/// Creates the error for an annotation at an offset where no field may be.
fn misplaced(alloc: Global, text: &str, at: usize) -> Error
    ensures { IsUnlessMemory result (misplaced text.now at) }
{
    match String::from_str(alloc, "annotation `@custom` where no field may be") {
        Ok(message) => Error::parse(alloc, Span::from_offset(at), text, message),
        Err(refused) => Error::from(refused),
    }
}
