//! Theorems about the definitions.
ghost use Rattle.wat_module_custom.specs.Placements.{SectionsArePlaced};
ghost use Rattle.wat_module_custom.specs.Unannotated.{UnannotatedHasNone};

/// Theorem (no effect): the custom sections of the items of a text, or the error in them, are
/// decided by the tokens before each annotation.
pub fn sections_are_placed()
    ensures { SectionsArePlaced }
{}

/// Theorem (no effect): a text none of whose tokens is an annotation of the name `custom` has no
/// custom sections, and reading it finds none.
pub fn unannotated_has_none()
    ensures { UnannotatedHasNone }
{
    wat_lex::laws::one_tiling();
    wat_lexer_parser::laws::shown();
}
