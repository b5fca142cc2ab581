//! Theorems about the definitions of positions. Each function has no effect: its contract is the
//! theorem.
ghost use Rattle.wat_module_places.specs.Examples.{Examples};
ghost use Rattle.wat_module_places.specs.Law.{FieldsArePlaced, InstructionsArePlaced};
ghost use Rattle.wat_module_places.specs.Law.{PositionsAreInText, PositionsAreTokens};
ghost use Rattle.wat_module_places.specs.Law.{PositionsAreUnique};
ghost use Rattle.wat_module_places.specs.Law.{WalkIsGrammar};

/// Theorem: the instructions of an expression that have positions are those that the grammar
/// derives.
pub fn instructions_are_placed()
    ensures { InstructionsArePlaced }
{}

/// Theorem: the fields that have positions are those of the module, one after another.
pub fn fields_are_placed()
    ensures { FieldsArePlaced }
{}

/// Theorem: the position of a field is its keyword, and that of an instruction is in its field, at
/// tokens with which such an instruction begins.
pub fn positions_are_tokens()
    ensures { PositionsAreTokens }
{}

/// Theorem: a position that `place_in_module` returns for a module is in its tokens.
pub fn positions_are_in_text()
    ensures { PositionsAreInText }
{}

/// Theorem: the positions do not depend on the derivation of the module.
pub fn positions_are_unique()
    ensures { PositionsAreUnique }
{}

/// Theorem: the positions that the code finds are those of the grammar.
pub fn walk_is_grammar()
    ensures { WalkIsGrammar }
{}

/// Theorem: the positions of the instructions of four texts.
pub fn examples()
    ensures { Examples }
{}
