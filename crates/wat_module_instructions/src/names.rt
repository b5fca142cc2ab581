//! Identifiers and their indices.
ghost use Rattle.std.specs.Prelude.{◌≡◌, ◌≤◌, ◌<◌, ◌^◌, ◌++◌, [], None, length, map, is_some};
ghost use Rattle.std.specs.Prelude.{replicate, IfErr, IfOk, IfSome};
ghost use Rattle.wat_module_ast.specs.Grammar.{position};
ghost use Rattle.wat_module_instructions.specs.Indices.{AreIndices, labels_of};
ghost use Rattle.wat_module_ast.specs.Names.{are_distinct, has_name, repeated};
ghost use Rattle.wat_module_tokens.specs.Terminals.{label};

use std::alloc::{AllocError, Global};
use std::collections::BTreeMap;
use std::marker::Model;
use wat_module_tokens::token::Name;

/// A run of items of an index space, by their identifiers.
#[derive(Clone, Copy)]
pub enum NameRun<'n> {
    /// One item with this identifier, without `$`.
    Given(&'n str),
    /// This number of items without identifiers.
    Absent(usize),
}

/// Identifiers of the items of an index space, in the order of their indices.
#[derive(Drop)]
pub struct IndexedNames<'n> {
    /// The items by their identifiers. Any number of items without identifiers takes one run.
    names: Vec<NameRun<'n>>,
    /// Index of each identifier, if `names` has more than `FEW` runs. Otherwise empty.
    indices: BTreeMap<&'n str, usize>,
}

impl<'n> Model for IndexedNames<'n> {
    ghost use Rattle.std.specs.Prelude.{◌<◌, ◌^◌, List, length};
    ghost use Rattle.wat_module_instructions.specs.Indices.{IndicesOf, labels_of};
    ghost use Rattle.wat_module_tokens.specs.Terminals.{Label};

    ghost Value = { List Label };

    ghost view = { λ n. labels_of n.names.items };

    ghost invariant = { λ n. IndicesOf n.indices n.names.items
        × length (labels_of n.names.items) < 2 ^ 64 };
}

/// Maximum number of runs whose identifiers are searched one by one.
const FEW: usize = 16;

impl<'n> IndexedNames<'n> {
    /// Returns the identifiers of an empty index space. Does not allocate.
    pub fn none(alloc: Global) -> IndexedNames<'n>
        ensures { result ≡ [] }
    {
        IndexedNames {
            names: Vec::new(alloc),
            indices: BTreeMap::new(alloc),
        }
    }

    /// Indexes the identifiers of items. Returns `None` if two items have the same one.
    pub fn new(alloc: Global, names: Vec<Name<'n>>) -> Result<Option<IndexedNames<'n>>, AllocError>
        ensures these { IfOk result (λ found. IfSome found (λ these. these ≡
            map label names.entry.items)) }
        ensures distinct { IfOk result (λ found. is_some found ≡
            are_distinct (map label names.entry.items)) }
    {
        let runs = runs_of(alloc, &names)?;
        IndexedNames::from_runs(alloc, runs)
    }

    /// Indexes the identifiers of items by runs of items. The number of items must be below 2^64.
    /// Returns `None` if two items have the same identifier.
    pub fn from_runs(
        alloc: Global,
        names: Vec<NameRun<'n>>,
    ) -> Result<Option<IndexedNames<'n>>, AllocError>
        requires { length (labels_of names.items) < 2 ^ 64 }
        ensures these { IfOk result (λ found. IfSome found (λ these. these ≡
            labels_of names.entry.items)) }
        ensures distinct { IfOk result (λ found. is_some found ≡
            are_distinct (labels_of names.entry.items)) }
    {
        if names.len() <= FEW {
            return Ok(few(alloc, names));
        }
        match indices(alloc, &names)? {
            Some(indices) => Ok(Some(IndexedNames { names, indices })),
            None => Ok(None),
        }
    }

    /// Returns the index of the first item with this identifier.
    pub fn position(&self, name: &str) -> Option<usize>
        ensures { result ≡ position 0 name.now self.now }
    {
        if self.names.len() <= FEW {
            return first(&self.names, name);
        }
        self.indices.get(name).copied()
    }
}

/// Appends this number of items without identifiers to runs of items.
pub fn push_unnamed(names: &mut Vec<NameRun<'_>>, count: usize) -> Result<(), AllocError>
    ensures appended { IfOk result (λ _. labels_of names.new.items ≡
        labels_of names.old.items ++ replicate count None) }
    ensures kept { IfErr result (λ _. names.new.items ≡ names.old.items) }
{
    if count > 0 {
        names.push(NameRun::Absent(count))?;
    }
    Ok(())
}

/// Returns `true` if no two items of these runs have the same identifier. The number of items must
/// be below 2^64. Does not allocate for 16 runs or fewer.
pub fn have_distinct_names(alloc: Global, names: &[NameRun<'_>]) -> Result<bool, AllocError>
    requires { length (labels_of names.now) < 2 ^ 64 }
    ensures { IfOk result (λ found. found ≡ are_distinct (labels_of names.now)) }
{
    if names.len() <= FEW {
        return Ok(are_distinct(names));
    }
    let indices = indices(alloc, names)?;
    Ok(indices.is_some())
}

/// Returns the runs of items with these identifiers.
fn runs_of<'n>(alloc: Global, names: &[Name<'n>]) -> Result<Vec<NameRun<'n>>, AllocError>
    ensures { IfOk result (λ runs. labels_of runs.items ≡ map label names.now) }
{
    let mut runs = Vec::new(alloc);
    let mut unnamed = 0;
    for name in names {
        match *name {
            Name::Given(given) => {
                push_unnamed(&mut runs, unnamed)?;
                unnamed = 0;
                runs.push(NameRun::Given(given))?;
            }
            Name::Absent => {
                unnamed += 1;
            }
        }
    }
    push_unnamed(&mut runs, unnamed)?;
    Ok(runs)
}

/// Returns the identifiers of items by at most `FEW` runs, or `None` if two items have the same
/// one.
fn few<'n>(alloc: Global, names: Vec<NameRun<'n>>) -> Option<IndexedNames<'n>>
    requires few { length names.items ≤ 16 }
    requires small { length (labels_of names.items) < 2 ^ 64 }
    ensures these { IfSome result (λ these. these ≡ labels_of names.entry.items) }
    ensures distinct { is_some result ≡ are_distinct (labels_of names.entry.items) }
{
    if are_distinct(&names) {
        return Some(IndexedNames {
            names,
            indices: BTreeMap::new(alloc),
        });
    }
    None
}

/// Returns a map from identifiers to indices, or `None` if two items have the same identifier.
fn indices<'n>(
    alloc: Global,
    names: &[NameRun<'n>],
) -> Result<Option<BTreeMap<&'n str, usize>>, AllocError>
    requires { length (labels_of names.now) < 2 ^ 64 }
    ensures these { IfOk result (λ found. IfSome found (λ these. AreIndices these
        (labels_of names.now))) }
    ensures distinct { IfOk result (λ found. is_some found ≡ are_distinct (labels_of names.now)) }
{
    let mut indices = BTreeMap::new(alloc);
    let mut index = 0;
    for run in names {
        match *run {
            NameRun::Given(given) => {
                if indices.insert(given, index)?.is_some() {
                    return Ok(None);
                }
                index += 1;
            }
            NameRun::Absent(count) => {
                index += count;
            }
        }
    }
    Ok(Some(indices))
}

/// Returns the indices of the first item with a repeated identifier and of the first item that has
/// the identifier of an earlier one, which is the same. Returns `None` if the identifiers are
/// distinct.
#[tactic(auto, unfolding(wat_module_ast::specs::Names::repeated))]
pub fn repeated(alloc: Global, names: &[Name<'_>]) -> Result<Option<(usize, usize)>, AllocError>
    ensures { IfOk result (λ found. found ≡ repeated (map label names.now)) }
{
    let mut indices = BTreeMap::new(alloc);
    for (i, name) in names.iter().enumerate() {
        if let Name::Given(given) = *name {
            if let Some(first) = indices.insert(given, i)? {
                return Ok(Some((first, i)));
            }
        }
    }
    Ok(None)
}

/// Returns the index of the first item with this identifier.
fn first(names: &[NameRun<'_>], name: &str) -> Option<usize>
    requires { length (labels_of names.now) < 2 ^ 64 }
    ensures { result ≡ position 0 name.now (labels_of names.now) }
{
    let mut index = 0;
    for run in names {
        match *run {
            NameRun::Given(given) => {
                if given == name {
                    return Some(index);
                }
                index += 1;
            }
            NameRun::Absent(count) => {
                index += count;
            }
        }
    }
    None
}

/// Returns `true` if an item has this identifier.
fn has_name(names: &[NameRun<'_>], name: &str) -> bool
    ensures { result ≡ has_name name.now (labels_of names.now) }
{
    for run in names {
        if let NameRun::Given(given) = *run {
            if given == name {
                return true;
            }
        }
    }
    false
}

/// Returns `true` if no two items have the same identifier.
fn are_distinct(names: &[NameRun<'_>]) -> bool
    ensures { result ≡ are_distinct (labels_of names.now) }
{
    for (i, run) in names.iter().enumerate() {
        if let NameRun::Given(given) = *run {
            if has_name(&names[i + 1..], given) {
                return false;
            }
        }
    }
    true
}
