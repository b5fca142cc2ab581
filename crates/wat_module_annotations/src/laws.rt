//! Theorems about the definitions.
ghost use Rattle.wat_module_annotations.specs.Examples.{Examples};
ghost use Rattle.wat_module_annotations.specs.Placed.{NamesArePlaced};

/// Theorem (no effect): the names of the annotations of a module are decided by where these are in
/// its grammar.
pub fn names_are_placed()
    ensures { NamesArePlaced }
{}

/// Theorem (no effect): the names that the annotations of some texts give.
pub fn examples()
    ensures { Examples }
{}
