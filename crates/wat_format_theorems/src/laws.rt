//! Theorems about formatted texts and parsers, for every UTF-8 text without lexical errors and all
//! settings. The functions have no effect; the contract of each is a theorem.
ghost use Rattle.std.specs.Prelude.{ℕ};
ghost use Rattle.wat_format_theorems.specs.FunctionTypes.{LayoutsSpellTheSame};
ghost use Rattle.wat_format_theorems.specs.Moved.{LayoutsShowTheSame};
ghost use Rattle.wat_format_theorems.specs.Reads.{LayoutsAreSameTexts, LayoutsReadTheSame};
ghost use Rattle.wat_format_theorems.specs.Reads.{MapsAreOne, MovesReading};
ghost use Rattle.wat_format_theorems.specs.lemmas.Types.{stays};
ghost use Rattle.wat_types.specs.Meanings.{module_types};

use wat_lexer_parser::parser::Parse;

/// Theorem: under each set of names, the visible tokens of a formatted text are those of the text,
/// with the same bytes, and the same end or error follows. One map, independent of the names, takes
/// each offset to the corresponding offset in the formatted text.
pub fn shown()
    ensures { LayoutsShowTheSame }
{
    wat_format::laws::kept_tokens();
    wat_lex::laws::one_tiling();
    wat_lex::laws::tokens();
    wat_lexer_parser::laws::shown();
    wat_lexer_parser::laws::all_shown();
    wat_lexer_parser::laws::counting();
}

/// Theorem: a type reads the same value from a formatted text as from the text, with its spans
/// mapped, or the same error at the corresponding byte. It holds for each type whose reading is
/// independent of the start offset, as all terms of the language of readings are (`specs/lemmas`).
pub fn read<'a, T: Parse<'a>>()
    ensures { (n : ℕ) (moved : (ℕ → ℕ) → T.Value → T.Value) →
        MovesReading n moved T.meaning → LayoutsReadTheSame moved T.meaning }
{
    same_texts();
    wat_lexer_parser::laws::shown();
    wat_lexer_parser::laws::counting();
}

/// Theorem: the significant tokens of a formatted text are those of the text, mapped by the map of
/// the visible tokens. They have the same kinds and bytes, and the same parentheses are followed
/// immediately by `@`. The map is unique at the start offsets of these tokens.
pub fn same_texts()
    ensures same { LayoutsAreSameTexts }
    ensures one { MapsAreOne }
{
    wat_format::laws::kept_tokens();
    wat_lex::laws::one_tiling();
    wat_lex::laws::tokens();
    wat_lexer_parser::laws::shown();
    wat_lexer_parser::laws::all_shown();
    wat_lexer_parser::laws::counting();
}

/// Theorem (no effect): for a source without a lexical error, the formatted text reads as the same
/// function types, or as the same error. Hence both match the grammar with the same function types,
/// and `compile_types` returns the same bytes for both.
pub fn function_types()
    ensures read { LayoutsReadTheSame stays module_types }
    ensures spell { LayoutsSpellTheSame }
{
    same_texts();
    wat_format::laws::kept_tokens();
    wat_lex::laws::one_tiling();
    wat_lexer_parser::laws::shown();
    wat_lexer_parser::laws::counting();
    wat_types::laws::reading_is_spelling();
}
