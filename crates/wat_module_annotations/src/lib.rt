//! Name annotations: the names that the annotations `(@name ".."` of the source text of a module
//! give to its items.
#![tactic(auto)]

ghost use Rattle.std.specs.Prelude.{◌≡◌, map, true};
ghost use Rattle.wat_lexer_parser.specs.parser.State.{Answers};
ghost use Rattle.wat_lexer_parser.specs.places.Source.{IsRead, Source};
ghost use Rattle.wat_module_annotations.specs.Renaming.{names_of};
ghost use Rattle.wat_module_annotations.specs.Values.{module_names_of};

mod context;
pub mod laws;
pub mod names;
mod placing;
pub mod reading;
pub mod renaming;
#[cfg(test)]
mod tests;

use crate::names::ModuleNames;
use crate::placing::names_in;
use crate::reading::AllItems;
use std::alloc::Global;
use wat_lexer_parser::Error;
use wat_lexer_parser::parser::LazyBuffer;
use wat_module_custom::search::{Sought, may_have};

/// Returns the names that the annotations `(@name ..)` of a module give to its items. The text of
/// the buffer should be a module: for any other text the result has no meaning.
///
/// # Errors
///
/// Returns an error at the first token that an annotation must not contain, or, if there is none,
/// at the first annotation where no identifier may be. Fails if an allocation fails.
pub fn names_of<'b>(alloc: Global, buffer: &'b LazyBuffer<'_>) -> Result<ModuleNames<'b>, Error>
    ensures names { (s : Source) → IsRead s → s.setting ≡ buffer.now.setting →
        s.track ≡ buffer.now.track →
        Answers true (λ m. module_names_of m) (names_of s) result }
    ensures read { IsRead buffer.now }
{
    buffer.lemma_sound();
    let lexer = buffer.lexer();
    let text = lexer.input();
    if may_have(text, Sought::Names) {
        return match buffer.parse::<AllItems<'b>>() {
            Ok(items) => names_in(alloc, text, items.items.items),
            Err(error) => Err(error),
        };
    }
    Ok(ModuleNames::none(alloc))
}
