//! Theorems about the definitions. Each function has no effect: its contract is the theorem.
ghost use Rattle.std.specs.Prelude.{List};
ghost use Rattle.wat_module_names_theorems.specs.BlockLabels.{LabelsAreListed};
ghost use Rattle.wat_module_names_theorems.specs.Bodies.{BodiesHaveStructure};
ghost use Rattle.wat_module_names_theorems.specs.Examples.{Examples};
ghost use Rattle.wat_module_names_theorems.specs.IndirectNameMaps.{IndirectAssociationsAreNameMap};
ghost use Rattle.wat_module_names_theorems.specs.NameMaps.{AssociationsAreNameMap};
ghost use Rattle.wat_module_names_theorems.specs.Repetitions.{FirstIsRepeated};
ghost use Rattle.wat_module_names_theorems.specs.TokenExamples.{TokenExamples};
ghost use Rattle.wat_module_names_theorems.specs.TokenForms.{AnnotatedModulesHaveForm};
ghost use Rattle.wat_module_names_theorems.specs.TokenForms.{BodiesHaveForm, ModulesHaveForm};
ghost use Rattle.wat_module_tokens.specs.Terminals.{Label};

use wat_module_annotations::laws::names_are_placed;

/// Theorem: the labels of a body, from which the name section is made, are those of its structured
/// control instructions, in the order of the binary format.
pub fn labels_are_listed()
    ensures { LabelsAreListed }
{}

/// Theorem: the tokens of each body in the grammar have structured control instructions, with the
/// opcodes of those of the body, in their order. The name map of the body has the labels of these.
pub fn bodies_have_structure()
    ensures { BodiesHaveStructure }
{}

/// Theorem: the structured control instructions and the labels of three texts.
pub fn examples()
    ensures { Examples }
{}

/// Theorem: the associations of an index and an identifier that the name section has for items are
/// their name map: its indices increase, and it has exactly the items with an identifier.
pub fn associations_are_name_map()
    ensures { AssociationsAreNameMap }
{}

/// Theorem: the associations of a function and a name map that the name section has for functions
/// are their indirect name map: its indices increase, and it has exactly the functions whose name
/// map is not empty.
pub fn indirect_associations_are_name_map()
    ensures { IndirectAssociationsAreNameMap }
{}

/// Theorem: a first repetition of an identifier is the one that errors report, and there is none if
/// the identifiers are distinct.
pub fn first_is_repeated()
    ensures { (labels : List Label) → FirstIsRepeated labels }
{}

/// Theorem: the items of each body in the grammar are instructions, in the grammar of name
/// annotations.
pub fn bodies_have_form()
    ensures { BodiesHaveForm }
{}

/// Theorem: the items of each module in the grammar are a module, in the grammar of name
/// annotations.
pub fn modules_have_form()
    ensures { ModulesHaveForm }
{}

/// Theorem: the items of each module in the grammar have the form of a module, also with
/// annotations. If names are computed for them, their annotations give these names, and none is
/// misplaced.
pub fn annotated_modules_have_form()
    ensures { AnnotatedModulesHaveForm }
{
    names_are_placed();
}

/// Theorem: the items of the tokens of four texts.
pub fn token_examples()
    ensures { TokenExamples }
{}
