//! The theorem that relates the parser with the grammar of the format.
ghost use Rattle.example_sums.specs.Spelling.{ReadingIsSpelling, SpellingIsOne};

/// Theorem (no effect): parsing a source returns these terms if and only if its visible tokens
/// match the grammar with these terms. A source that only begins with a sum is rejected at the
/// token after that sum. The terms of a source are unique.
pub fn reading_is_spelling()
    ensures same { ReadingIsSpelling }
    ensures one { SpellingIsOne }
{
    wat_lex::laws::one_tiling();
    wat_lexer_parser::laws::shown();
    wat_lexer_parser::laws::all_shown();
}
