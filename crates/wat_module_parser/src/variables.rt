//! Parameters, results and locals with their identifiers, and their types alone.
ghost use Rattle.std.specs.Prelude.{◌≡◌, ◌==◌, ◌<◌, ◌^◌, ◌+◌, ◌++◌, ◌∷◌, [], Some, length, map, IfOk};
ghost use Rattle.std.specs.List.{flat_map};
ghost use Rattle.wat_module_ast.specs.Fields as grammar;
ghost use Rattle.wat_module_ast.specs.Names.{are_distinct, associations};
ghost use Rattle.wat_module_ast.specs.Views.{association_of, local_types};
ghost use Rattle.wat_module_instructions.specs.Indices.{labels_of};
ghost use Rattle.wat_module_parser.specs.Views.{listed_use_of, use_of};
ghost use Rattle.wat_module_ast.specs.TypeViews as bare;
ghost use Rattle.wat_module_ast.specs.TypeViews.{type_of};

use std::alloc::{AllocError, Global};
use std::marker::Model;
use wat_module_ast::fields::{Locals, NameAssociation};
use wat_module_ast::instruction::ValueType;
use wat_module_ast::types::{FunctionType, TypeUse};
use wat_module_instructions::names::{NameRun, have_distinct_names, push_unnamed};

/// Parameters, results or locals, in the order of their indices.
#[derive(Drop)]
pub(crate) struct Variables<'a> {
    /// Types of the variables.
    types: Vec<ValueType>,
    /// Identifiers of the variables up to the last one that has one.
    names: Vec<NameRun<'a>>,
    /// Number of variables that `names` describes.
    named: usize,
}

impl<'a> Model for Variables<'a> {
    ghost use Rattle.std.specs.Prelude.{◌≡◌, ◌≤◌, List, length};
    ghost use Rattle.wat_module_ast.specs.Fields.{Variable};
    ghost use Rattle.wat_module_instructions.specs.Indices.{labels_of};
    ghost use Rattle.wat_module_parser.specs.NamedTypes.{variables_of};

    ghost Value = { List Variable };

    ghost view = { λ v. variables_of (labels_of v.names.items) v.types.items };

    ghost invariant = { λ v. (v.named ≡ length (labels_of v.names.items))
        × v.named ≤ length v.types.items };
}

/// A type use whose parameters keep their identifiers.
#[derive(Drop)]
pub(crate) enum NamedUse<'s, 'a> {
    /// Any other type use. While the types are not known, also one with an index only.
    Listed(ListedUse<'a>),
    /// A type use with an index that lists no parameters and no results: the index, and its type.
    Indexed(usize, &'s FunctionType),
}

/// A type use by its parameters and results.
#[derive(Drop)]
pub(crate) struct ListedUse<'a> {
    /// Type index, if given.
    pub(crate) index: Option<usize>,
    /// Parameters.
    pub(crate) params: Variables<'a>,
    /// Results.
    pub(crate) results: Variables<'a>,
}

impl<'a> Variables<'a> {
    /// Returns no variables. Does not allocate.
    pub(crate) fn none(alloc: Global) -> Variables<'a>
        ensures { result ≡ [] }
    {
        Variables {
            types: Vec::new(alloc),
            names: Vec::new(alloc),
            named: 0,
        }
    }

    /// Appends a variable without an identifier.
    pub(crate) fn push(&mut self, of: ValueType) -> Result<(), AllocError>
        ensures { IfOk result (λ _. self.new ≡ self.old ++ grammar.unnamed of ∷ []) }
    {
        self.types.push(of)?;
        Ok(())
    }

    /// Appends a variable with an identifier.
    pub(crate) fn push_named(&mut self, name: &'a str, of: ValueType) -> Result<(), AllocError>
        ensures { IfOk result (λ _. self.new ≡
            self.old ++ grammar.variable (Some name.now) of ∷ []) }
    {
        let count = self.types.len();
        push_unnamed(&mut self.names, count - self.named)?;
        self.named = count;
        self.types.push(of)?;
        self.names.push(NameRun::Given(name))?;
        self.named = count + 1;
        Ok(())
    }

    /// Returns `true` if there are no variables.
    pub(crate) fn is_empty(&self) -> bool
        ensures { result ≡ (length self.now == 0) }
    {
        self.types.is_empty()
    }

    /// Returns the number of variables.
    pub(crate) fn len(&self) -> usize
        ensures count { result ≡ length self.now }
        ensures small { length self.now < 2 ^ 63 }
    {
        self.types.len()
    }

    /// Returns the types of the variables.
    pub(crate) fn types(&self) -> &[ValueType]
        ensures { result.now ≡ map grammar.type_of self.now }
    {
        &self.types
    }

    /// Returns the types of the variables.
    pub(crate) fn into_types(self) -> Vec<ValueType>
        ensures { result.items ≡ map grammar.type_of self.entry }
    {
        self.types
    }

    /// Returns `true` if no two variables have the same identifier. Does not allocate if at most 8
    /// variables have one.
    pub(crate) fn are_distinct(&self, alloc: Global) -> Result<bool, AllocError>
        ensures { IfOk result (λ b. b ≡ are_distinct (map grammar.name_of self.now)) }
    {
        have_distinct_names(alloc, &self.names)
    }

    /// Appends the identifiers of the variables to runs of items.
    #[inline(always)]
    pub(crate) fn append_names(&self, names: &mut Vec<NameRun<'a>>) -> Result<(), AllocError>
        ensures names { IfOk result (λ _. labels_of names.new.items ≡
            labels_of names.old.items ++ map grammar.name_of self.now) }
        ensures small { length self.now < 2 ^ 63 }
    {
        if self.types.is_empty() {
            return Ok(());
        }
        names.extend_from_slice(&self.names)?;
        push_unnamed(names, self.types.len() - self.named)
    }
}

/// Returns a copy of value types.
pub(crate) fn value_types(alloc: Global, types: &[ValueType]) -> Result<Vec<ValueType>, AllocError>
    ensures { IfOk result (λ copy. copy.items ≡ types.now) }
{
    let mut copy = Vec::with_capacity(alloc, types.len())?;
    copy.extend_from_slice(types)?;
    Ok(copy)
}

/// Returns locals of these types as maximal runs of consecutive locals of one type.
pub(crate) fn locals_of(alloc: Global, types: &[ValueType]) -> Result<Vec<Locals>, AllocError>
    ensures { IfOk result (λ locals. flat_map local_types locals.items ≡ types.now) }
{
    match types {
        [first, others @ ..] => locals_after(alloc, *first, others),
        [] => Ok(Vec::new(alloc)),
    }
}

/// Returns a local of type `first`, and locals of the types `others` after it, as maximal runs of
/// consecutive locals of one type.
fn locals_after(
    alloc: Global,
    first: ValueType,
    others: &[ValueType],
) -> Result<Vec<Locals>, AllocError>
    ensures { IfOk result (λ locals. flat_map local_types locals.items ≡ first ∷ others.now) }
{
    let mut locals = Vec::new(alloc);
    let mut count = 1;
    let mut of = first;
    for other in others {
        if *other == of {
            count += 1;
        } else {
            locals.push(Locals { count, of })?;
            count = 1;
            of = *other;
        }
    }
    locals.push(Locals { count, of })?;
    Ok(locals)
}

/// Returns a copy of the function type with these parameters and results.
pub(crate) fn function_type(
    alloc: Global,
    params: &Variables<'_>,
    results: &Variables<'_>,
) -> Result<FunctionType, AllocError>
    ensures { IfOk result (λ of. type_of of ≡ grammar.function_type params.now results.now) }
{
    let params = value_types(alloc, params.types())?;
    let results = value_types(alloc, results.types())?;
    Ok(FunctionType { params, results })
}

/// Returns the function type with these parameters and results, whose identifiers are dropped.
pub(crate) fn into_function_type(params: Variables<'_>, results: Variables<'_>) -> FunctionType
    ensures { type_of result ≡ grammar.function_type params.entry results.entry }
{
    FunctionType {
        params: params.into_types(),
        results: results.into_types(),
    }
}

/// Returns `true` if no two parameters of a type use have the same identifier.
#[tactic(auto, using(crate::proofs::Unnamed::distinct))]
pub(crate) fn are_parameters_distinct(
    alloc: Global,
    uses: &NamedUse<'_, '_>,
) -> Result<bool, AllocError>
    ensures { IfOk result (λ b. b ≡
        are_distinct (map grammar.name_of (use_of uses.now).params)) }
{
    match uses {
        NamedUse::Listed(listed) => listed.params.are_distinct(alloc),
        NamedUse::Indexed(_, _) => Ok(true),
    }
}

/// Returns the type use without the identifiers of its parameters.
pub(crate) fn without_names(uses: NamedUse<'_, '_>) -> TypeUse
    ensures { bare.use_of result ≡ grammar.without_names (use_of uses.entry) }
{
    match uses {
        NamedUse::Indexed(index, _) => TypeUse::Index(index),
        NamedUse::Listed(listed) => listed_without_names(listed),
    }
}

/// Returns the type use without the identifiers of its parameters. Its type is not returned if it
/// has an index.
fn listed_without_names(uses: ListedUse<'_>) -> TypeUse
    ensures { bare.use_of result ≡ grammar.without_names (listed_use_of uses.entry) }
{
    let ListedUse {
        index,
        params,
        results,
    } = uses;
    match index {
        Some(index) => TypeUse::Index(index),
        None => TypeUse::Inline(into_function_type(params, results)),
    }
}

/// Returns the identifiers of the parameters of a type use and of locals, by their indices.
#[tactic(auto, using(crate::proofs::NameMaps::listed, crate::proofs::NameMaps::indexed))]
pub(crate) fn local_names<'a>(
    alloc: Global,
    uses: &NamedUse<'_, 'a>,
    locals: &Variables<'a>,
) -> Result<Vec<NameAssociation<'a>>, AllocError>
    ensures { IfOk result (λ names. map association_of names.items ≡
        grammar.local_associations (use_of uses.now).params locals.now) }
{
    match uses {
        NamedUse::Listed(listed) => {
            let params = with_names(Vec::new(alloc), 0, &listed.params)?;
            let names = with_names(params, listed.params.len(), locals)?;
            Ok(names)
        }
        NamedUse::Indexed(_, of) => {
            let names = with_names(Vec::new(alloc), of.params.len(), locals)?;
            Ok(names)
        }
    }
}

/// Returns `names` with the identifiers of variables appended, by their indices, which begin at
/// `first`. `first` must be below 2^63.
fn with_names<'a>(
    names: Vec<NameAssociation<'a>>,
    first: usize,
    variables: &Variables<'a>,
) -> Result<Vec<NameAssociation<'a>>, AllocError>
    requires { first < 2 ^ 63 }
    ensures { IfOk result (λ all. map association_of all.items ≡
        map association_of names.entry.items ++
        associations first (map grammar.name_of variables.now)) }
{
    with_runs(names, first, &variables.names)
}

/// Returns `names` with the identifiers of items appended, by their indices, which begin at
/// `first`. All indices must be below 2^64.
fn with_runs<'a>(
    names: Vec<NameAssociation<'a>>,
    first: usize,
    runs: &[NameRun<'a>],
) -> Result<Vec<NameAssociation<'a>>, AllocError>
    requires { first + length (labels_of runs.now) < 2 ^ 64 }
    ensures { IfOk result (λ all. map association_of all.items ≡
        map association_of names.entry.items ++ associations first (labels_of runs.now)) }
{
    let mut names = names;
    let mut index = first;
    for run in runs {
        match *run {
            NameRun::Given(name) => {
                names.push(NameAssociation { index, name })?;
                index += 1;
            }
            NameRun::Absent(count) => {
                index += count;
            }
        }
    }
    Ok(names)
}
