//! The theorem that relates the parser with the grammar of modules.
ghost use Rattle.wat_types.specs.Compiling.{ReadingIsSpelling, SpellingIsOne};

/// Theorem (no effect): parsing a text as a module returns these function types if and only if the
/// grammar derives them for its visible tokens. The function types of a text are unique.
pub fn reading_is_spelling()
    ensures same { ReadingIsSpelling }
    ensures one { SpellingIsOne }
{
    wat_lex::laws::one_tiling();
    wat_lexer_parser::laws::shown();
    wat_lexer_parser::laws::all_shown();
}
