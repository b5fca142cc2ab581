//! Theorems about the definitions of this crate.
ghost use Rattle.wat_valid.specs.Examples.{BodyExamples, ModuleExamples, ReasonExamples};
ghost use Rattle.wat_valid.specs.Law.{AlgorithmIsExact, EachHasAType, FirstErrorIsExact};

/// Theorem (no effect): the list of types has each plain instruction of the table of keywords and
/// opcodes, in its order, and no other.
pub fn each_has_a_type()
    ensures { EachHasAType }
{}

/// Theorem (no effect): the validation algorithm accepts the body of a function if and only if
/// the rules of validation give it the results of the function.
pub fn algorithm_is_exact()
    ensures { AlgorithmIsExact }
{}

/// Theorem (no effect): the validation algorithm finds no error in instructions if and only if they
/// begin a valid body. So its first error is at the first instruction that no valid body has after
/// the instructions before it.
pub fn first_error_is_exact()
    ensures { FirstErrorIsExact }
{}

/// Theorem (no effect): each of the bodies of the worked examples is valid or not, as its example
/// says.
pub fn bodies_of_examples()
    ensures { BodyExamples }
{}

/// Theorem (no effect): each of the modules of the worked examples is valid or not, as its example
/// says.
pub fn modules_of_examples()
    ensures { ModuleExamples }
{}

/// Theorem (no effect): each of the modules of the worked examples of reasons has the first field
/// that is not valid, and the reason, as its example says.
pub fn reasons_of_examples()
    ensures { ReasonExamples }
{}
