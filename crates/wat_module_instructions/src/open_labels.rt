//! The open labels that have an identifier.
ghost use Rattle.std.specs.Prelude.{◌≡◌, [], ◌∷◌, drop, IsSome, OnOk, OnErr};
ghost use Rattle.std.specs.BTreeMap.{get_by, UpdatesBy};
ghost use Rattle.std.specs.Cmp.Lexicographic.{slice_cmp};
ghost use Rattle.std.specs.Ordering.{nat_cmp};
ghost use Rattle.wat_module_instructions.specs.Heights.{height_of, seen};

use std::alloc::{AllocError, Global};
use std::collections::BTreeMap;
use std::marker::Model;

/// Maximum number of labels whose identifiers are searched one by one.
const FEW: usize = 16;

/// An open label with an identifier.
#[derive(Clone, Copy)]
struct OpenLabel<'n> {
    name: &'n str,
    /// Number of labels outside it.
    height: usize,
    /// Height of the label that has the same identifier and that it shadows, if both are among
    /// those after the first `FEW`.
    shadowed: Option<usize>,
}

/// The open labels that have an identifier, each with its height: the number of labels outside it.
/// The time to find one grows with the logarithm of their number.
#[derive(Drop)]
pub struct Labels<'n> {
    /// The innermost is last.
    open: Vec<OpenLabel<'n>>,
    /// Height of the innermost label with each identifier, among those after the first `FEW`.
    heights: BTreeMap<&'n str, usize>,
}

impl<'n> Model for Labels<'n> {
    ghost use Rattle.std.specs.Prelude.{List, ℕ};

    ghost Value = { List (List ℕ × ℕ) };

    ghost use Rattle.std.specs.Prelude.{reverse};
    ghost use Rattle.wat_module_instructions.specs.Heights.{AreHeights, AreShadowed, seen};

    ghost view = { λ l. seen l.open.items };

    ghost invariant = { λ l.
        AreHeights l.heights (reverse l.open.items) × AreShadowed (reverse l.open.items) };
}

impl<'n> Labels<'n> {
    /// Returns no labels. Does not allocate.
    pub fn none(alloc: Global) -> Labels<'n>
        ensures { result ≡ [] }
    {
        Labels {
            open: Vec::new(alloc),
            heights: BTreeMap::new(alloc),
        }
    }

    /// Opens a label.
    pub fn push(&mut self, name: &'n str, height: usize) -> Result<(), AllocError>
        ensures opened { OnOk result (self.new ≡ (name.now, height) ∷ self.old) }
        ensures unchanged { OnErr result (self.new ≡ self.old) }
    {
        if self.open.len() < FEW {
            self.open.push(OpenLabel {
                name,
                height,
                shadowed: None,
            })?;
            return Ok(());
        }
        self.open.reserve(1)?;
        let shadowed = self.heights.insert(name, height)?;
        self.open.push(OpenLabel {
            name,
            height,
            shadowed,
        })?;
        Ok(())
    }

    /// Closes the innermost label. Does not allocate.
    pub fn pop(&mut self)
        ensures { self.new ≡ drop 1 self.old }
    {
        if let Some(label) = self.open.pop() {
            if self.open.len() >= FEW {
                restore(&mut self.heights, label.name, label.shadowed);
            }
        }
    }

    /// Returns the height of the innermost label with this identifier.
    pub fn height(&self, name: &str) -> Option<usize>
        ensures { result ≡ height_of name.now self.now }
    {
        if self.open.len() <= FEW {
            return innermost(&self.open, name);
        }
        match self.heights.get(name) {
            Some(height) => Some(*height),
            None => innermost(&self.open[..FEW], name),
        }
    }
}

/// Sets the height of an identifier to that of the label that the closed one has shadowed, or
/// removes the identifier.
fn restore<'n>(heights: &mut BTreeMap<&'n str, usize>, name: &'n str, shadowed: Option<usize>)
    requires { IsSome (get_by (λ k. slice_cmp nat_cmp name.now k.now) heights.old) }
    ensures { UpdatesBy (λ x y. slice_cmp nat_cmp x.now y.now)
        (λ k. slice_cmp nat_cmp name.now k.now) heights.old heights.new shadowed }
{
    match shadowed {
        Some(outer) => {
            if let Some(height) = heights.get_mut(name) {
                *height = outer;
            }
        }
        None => {
            heights.remove(name);
        }
    }
}

/// Returns the height of the innermost of these labels that has this identifier.
fn innermost(labels: &[OpenLabel<'_>], name: &str) -> Option<usize>
    ensures { result ≡ height_of name.now (seen labels.now) }
{
    let mut outer = labels;
    while let [rest @ .., label] = outer {
        if label.name == name {
            return Some(label.height);
        }
        outer = rest;
    }
    None
}
