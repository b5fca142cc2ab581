//! A theorem about the definition of literals.
ghost use Rattle.wat_floats.specs.Samples.{Samples};

/// Theorem: the definition gives the known bits of each literal in `Samples`.
pub fn samples()
    ensures { Samples }
{}
