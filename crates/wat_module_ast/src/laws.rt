//! Theorems about the definitions of this crate.
ghost use Rattle.wat_module_ast.specs.Law.{TypesAreThere};

/// Theorem (no effect): each function type that a type use without an index adds is among the types
/// of its module, at its least index.
pub fn types_are_there()
    ensures { TypesAreThere }
{}
