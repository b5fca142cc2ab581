//! Theorems about the definitions of this crate.
ghost use Rattle.wat_module_parser.specs.Law.{ReadingIsGrammar};

/// Theorem (no effect): tokens are parsed as a module with certain fields if and only if the
/// grammar derives them as a module with these fields.
pub fn reading_is_grammar()
    ensures { ReadingIsGrammar }
{
    wat_module_instructions::laws::machine_is_grammar();
    wat_module_instructions::laws::folded_is_grammar();
    wat_module_instructions::laws::instructions_are_balanced();
    wat_module_instructions::laws::types_are_looked_up();
}
