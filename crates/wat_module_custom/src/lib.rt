//! Custom annotations: the custom sections that the source text of a module defines, and their
//! placements in the binary format.
#![tactic(auto)]

ghost use Rattle.std.specs.Prelude.{◌≡◌, ◌<◌, ◌^◌, length, map, false, true};
ghost use Rattle.wat_lexer_parser.specs.parser.State.{Answers};
ghost use Rattle.wat_lexer_parser.specs.places.Source.{IsRead, Source};
ghost use Rattle.wat_module_custom.specs.Customs.{custom_sections, plain};
ghost use Rattle.wat_module_custom.specs.Values.{section_of};

pub mod kw;
pub mod laws;
mod placing;
pub mod reading;
pub mod search;
pub mod sections;
#[cfg(test)]
mod tests;

use crate::placing::placed;
use crate::reading::AllItems;
use crate::search::{Sought, may_have};
use crate::sections::CustomSection;
use std::alloc::Global;
use wat_lexer_parser::Error;
use wat_lexer_parser::lexer::{Lexer, Settings};
use wat_lexer_parser::parser::LazyBuffer;

/// Lexer settings: confusing Unicode characters are allowed in comments and strings, and an
/// underscore right after another inside `\u{..}` is an error.
const SETTINGS: Settings = Settings {
    allow: true,
    strict: true,
};

/// Creates a buffer of the text of a module, with the lexer settings of the compiler of modules.
/// The text must be shorter than 2^32 bytes.
pub fn buffer(alloc: Global, text: &str) -> LazyBuffer<'_>
    requires { length text.now < 2 ^ 32 }
    ensures setting { result.setting ≡ plain text.now }
    ensures track { result.track ≡ false }
    ensures read { IsRead result }
{
    LazyBuffer::new_with_lexer(alloc, Lexer::with_settings(text, SETTINGS))
}

/// Returns the custom sections that the annotations `(@custom ..)` of a module define, in source
/// order. The text of the buffer should be a module: for any other text the result has no meaning.
///
/// # Errors
///
/// Returns an error at the first token that an annotation must not contain, or at an annotation
/// where no field may be. Fails if an allocation fails.
pub fn custom_sections<'b>(
    alloc: Global,
    buffer: &'b LazyBuffer<'_>,
) -> Result<Vec<CustomSection<'b>>, Error>
    ensures sections { (s : Source) → IsRead s → s.setting ≡ buffer.now.setting →
        s.track ≡ buffer.now.track →
        Answers true (λ v. map section_of v.items) (custom_sections s) result }
    ensures read { IsRead buffer.now }
{
    buffer.lemma_sound();
    let lexer = buffer.lexer();
    let text = lexer.input();
    if may_have(text, Sought::Customs) {
        return match buffer.parse::<AllItems<'b>>() {
            Ok(items) => placed(alloc, text, items.items.items),
            Err(error) => Err(error),
        };
    }
    Ok(Vec::new(alloc))
}
