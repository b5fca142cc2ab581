//! Theorems about types of this repository and formatted texts, for every UTF-8 text without
//! lexical errors and all settings. The functions have no effect; the contract of each is a
//! theorem.
ghost use Rattle.std.specs.Prelude.{codes};
ghost use Rattle.wat_format_examples.specs.Formats.{imports_moved};
ghost use Rattle.wat_format_theorems.specs.Reads.{LayoutsReadTheSame};
ghost use Rattle.wat_format_theorems.specs.lemmas.Types.{stays};
ghost use Rattle.example_imports.specs.Imports.{imports};
ghost use Rattle.wat_lexer_parser.specs.readings.Readings.{under};
ghost use Rattle.example_sums.specs.Sums.{sum};

/// Theorem: a formatted text reads as the same sum as the text, with the same terms, or as the same
/// error.
pub fn sums()
    ensures { LayoutsReadTheSame stays sum.reading }
{
    wat_format_theorems::laws::read::<example_sums::Sum>();
    wat_lexer_parser::laws::shown();
    wat_lexer_parser::laws::counting();
}

/// Theorem: a formatted text reads as the same import list as the text, or as the same error. Only
/// the spans of identifiers are mapped. It also holds if annotations with the name `name` are
/// visible.
pub fn imports()
    ensures read { LayoutsReadTheSame imports_moved imports.reading }
    ensures named { LayoutsReadTheSame imports_moved (under (codes "name") imports.reading) }
{
    wat_format_theorems::laws::read::<example_imports::Imports>();
    wat_format_theorems::laws::same_texts();
    wat_lexer_parser::laws::shown();
    wat_lexer_parser::laws::counting();
}
