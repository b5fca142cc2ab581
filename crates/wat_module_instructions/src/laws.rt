//! Theorems about the definitions. Each function has no effect: its contract is the theorem.
ghost use Rattle.std.specs.Prelude.{List};
ghost use Rattle.wat_module_ast.specs.Names.{RepeatedIsFirst};
ghost use Rattle.wat_module_tokens.specs.Terminals.{Label};
ghost use Rattle.wat_module_instructions.specs.Law.{FoldedIsGrammar, InstructionsAreBalanced};
ghost use Rattle.wat_module_instructions.specs.Law.{InstructionsTakeTokens, MachineIsGrammar};
ghost use Rattle.wat_module_ast.specs.Uses.{MoreTypesKeep, UnknownTypesBring};

/// Theorem: the parser of a body accepts the tokens that the grammar derives, with the same
/// instructions and the same remaining tokens.
pub fn machine_is_grammar()
    ensures { MachineIsGrammar }
{}

/// Theorem: the parser of one folded instruction accepts the tokens that the grammar derives, with
/// the same instructions and the same remaining tokens.
pub fn folded_is_grammar()
    ensures { FoldedIsGrammar }
{}

/// Theorem: the tokens of instructions have balanced parentheses, and parsing them leaves at most
/// as many tokens as there were.
pub fn instructions_are_balanced()
    ensures balanced { InstructionsAreBalanced }
    ensures taken { InstructionsTakeTokens }
{}

/// Theorem: instructions stay the same if types are appended to the context. Without the types of
/// the context, the same tokens are instructions that add the same types to a module.
pub fn types_are_looked_up()
    ensures more { MoreTypesKeep }
    ensures unknown { UnknownTypesBring }
{}

/// Theorem: the first repetition of an identifier among items, which errors report, is that of the
/// relation `Repeats`. There is one unless the identifiers are distinct.
pub fn repetitions_are_first()
    ensures { (labels : List Label) → RepeatedIsFirst labels }
{}
