//! The theorem that relates the parser with the grammar of the format.
ghost use Rattle.example_imports.specs.Spelling.{ReadingIsSpelling};

/// Theorem (no effect): parsing a source returns these entries if and only if its visible tokens,
/// without registered names, match the grammar with these entries.
pub fn reading_is_spelling()
    ensures { ReadingIsSpelling }
{
    wat_lex::laws::one_tiling();
    wat_lexer_parser::laws::shown();
    wat_lexer_parser::laws::all_shown();
}
