//! The context of an item of a text: the open groups, and the names of the field so far.
ghost use Rattle.std.specs.Prelude.{◌≡◌, ◌<◌, ◌+◌, ◌^◌, ◌&&◌, ◌||◌, ◌∷◌, [], map, IfOk};
ghost use Rattle.wat_module_annotations.specs.Names as names;
ghost use Rattle.wat_module_annotations.specs.Values.{context_of, field_names_of, item_of, label_of};
ghost use Rattle.wat_module_annotations.specs.Values.{occurrence_of, variable_of};

use crate::names::FieldNames;
use crate::reading::{Item, Occurrence, VariableName};
use std::alloc::{AllocError, Global};
use wat_lexer_parser::token::NameAnnotation;

/// The context of an item of a text.
#[derive(Drop)]
pub struct Context<'a> {
    /// Number of open groups, without that of the module.
    pub depth: usize,
    /// `true` if the field can still have parameters and locals of its own.
    pub in_header: bool,
    /// Labels of the folded `if`s whose `(then` is still to come, the innermost last.
    pub held: Vec<VariableName<'a>>,
    /// Names of the field so far.
    pub field: FieldNames<'a>,
}

impl<'a> Context<'a> {
    /// Returns the context after the first tokens of a field, which open `depth` groups.
    pub fn begun(alloc: Global, depth: usize, item: Option<NameAnnotation<'a>>) -> Context<'a>
        ensures { context_of result ≡ names.begun depth (label_of item.entry) }
    {
        Context {
            depth,
            in_header: true,
            held: Vec::new(alloc),
            field: FieldNames::only_item(alloc, item),
        }
    }

    /// Returns the context after the first tokens of a field, or of a group in one.
    fn entered(self, alloc: Global, item: Option<NameAnnotation<'a>>) -> Context<'a>
        requires { self.depth + 1 < 2 ^ 64 }
        ensures { context_of result ≡ names.entered (label_of item.entry) (context_of self.entry) }
    {
        if self.depth == 0 {
            return Context::begun(alloc, 1, item);
        }
        self.deeper()
    }

    /// Returns the context with one more open group.
    fn deeper(self) -> Context<'a>
        requires { self.depth + 1 < 2 ^ 64 }
        ensures { context_of result ≡ names.deeper 1 (context_of self.entry) }
    {
        let depth = self.depth + 1;
        Context { depth, ..self }
    }

    /// Returns the context after `)`.
    fn shallower(self, alloc: Global) -> Context<'a>
        ensures { context_of result ≡ names.shallower self.entry.depth (context_of self.entry) }
    {
        if self.depth < 2 {
            return Context::begun(alloc, 0, None);
        }
        let depth = self.depth - 1;
        Context { depth, ..self }
    }

    /// Returns the context after a token or group that ends the header of a field.
    fn past_header(self) -> Context<'a>
        ensures is { context_of result ≡ names.past_header (context_of self.entry) }
        ensures depth { result.depth ≡ self.entry.depth }
    {
        let in_header = self.in_header && self.depth != 1;
        Context { in_header, ..self }
    }

    /// Returns the context after the label of an instruction.
    fn labeled(self, name: Option<NameAnnotation<'a>>) -> Result<Context<'a>, AllocError>
        ensures is { IfOk result (λ c. context_of c
            ≡ names.labeled (label_of name.entry) (context_of self.entry)) }
        ensures depth { IfOk result (λ c. c.depth ≡ self.entry.depth) }
    {
        let mut context = self;
        context.field.labels.push(VariableName { name })?;
        Ok(context)
    }

    /// Returns the context after the label of a folded `if`.
    fn holding(self, name: Option<NameAnnotation<'a>>) -> Result<Context<'a>, AllocError>
        ensures is { IfOk result (λ c. context_of c
            ≡ names.holding (label_of name.entry) (context_of self.entry)) }
        ensures depth { IfOk result (λ c. c.depth ≡ self.entry.depth) }
    {
        let mut context = self;
        context.held.push(VariableName { name })?;
        Ok(context)
    }

    /// Returns the context after `(then`, without its group.
    fn released(self) -> Result<Context<'a>, AllocError>
        ensures is { IfOk result (λ c. context_of c ≡ names.released (context_of self.entry)) }
        ensures depth { IfOk result (λ c. c.depth ≡ self.entry.depth) }
    {
        let mut context = self;
        if let Some(label) = context.held.pop() {
            context.field.labels.push(label)?;
        }
        Ok(context)
    }

    /// Returns the context after parameters or locals.
    fn declaring(
        self,
        is_param: bool,
        declared: Vec<VariableName<'a>>,
    ) -> Result<Context<'a>, AllocError>
        ensures is { IfOk result (λ c. context_of c ≡ names.declaring is_param
            (map variable_of declared.entry.items) (context_of self.entry)) }
        ensures depth { IfOk result (λ c. c.depth ≡ self.entry.depth) }
    {
        if !self.in_header {
            return Ok(self);
        }
        let mut context = self;
        let mut declared = declared;
        let is_declared = declares(&declared);
        context.field.has_params = has_params(context.field.has_params, is_param, is_declared);
        context.field.variables.append(&mut declared)?;
        Ok(context)
    }

    /// Returns the context after a parameter or local with an annotation.
    fn declaring_one(
        self,
        is_param: bool,
        name: Option<NameAnnotation<'a>>,
    ) -> Result<Context<'a>, AllocError>
        ensures is { IfOk result (λ c. context_of c ≡ names.declaring is_param
            (label_of name.entry ∷ []) (context_of self.entry)) }
        ensures depth { IfOk result (λ c. c.depth ≡ self.entry.depth) }
    {
        if !self.in_header {
            return Ok(self);
        }
        let mut context = self;
        context.field.has_params = has_params(context.field.has_params, is_param, true);
        context.field.variables.push(VariableName { name })?;
        Ok(context)
    }

    /// Returns the context after an item.
    #[tactic(auto, unfolding(crate::specs::Names::after))]
    pub fn after(self, alloc: Global, item: Item<'a>) -> Result<Context<'a>, AllocError>
        requires { self.depth + 2 < 2 ^ 64 }
        ensures { IfOk result (λ c. context_of c
            ≡ names.after (item_of item.entry) (context_of self.entry)) }
    {
        match item {
            Item::Stray(_) | Item::Module(_) => Ok(self),
            Item::Open => Ok(self.past_header().entered(alloc, None)),
            Item::Close => Ok(self.shallower(alloc)),
            Item::Header => Ok(self.entered(alloc, None)),
            Item::Field(of) => Ok(self.entered(alloc, of.name)),
            Item::Import(of) => Ok(Context::begun(alloc, 2, of.name)),
            Item::Variables(is_param, declared) => self.declaring(is_param, declared),
            Item::Variable(is_param, of) => self.declaring_one(is_param, of.name),
            Item::Block(of) => self.past_header().labeled(of.name),
            Item::FoldedBlock(of) => Ok(self.past_header().labeled(of.name)?.deeper()),
            Item::FoldedIf(of) => Ok(self.past_header().holding(of.name)?.deeper()),
            Item::Then => Ok(self.released()?.deeper()),
            Item::Other => Ok(self.past_header()),
        }
    }

    /// Returns the offset of the annotation of an item, if it may not be there.
    #[tactic(auto, unfolding(crate::specs::Names::misplaced))]
    pub fn misplaced(&self, item: &Item<'a>) -> Option<usize>
        ensures { result ≡ names.misplaced (item_of item.now) (context_of self.now) }
    {
        match item {
            Item::Stray(offset) => Some(*offset),
            Item::Field(of) if self.depth > 0 => annotated(of),
            Item::Variable(_, of) if !self.in_header => Some(of.offset),
            _ => None,
        }
    }
}

/// Returns `true` if a field declares a parameter: it did before, or a group of parameters that is
/// not empty follows.
fn has_params(known: bool, is_param: bool, is_declared: bool) -> bool
    ensures { result ≡ (known || (is_param && is_declared)) }
{
    known || is_param && is_declared
}

/// Returns `true` if there are parameters or locals.
fn declares(declared: &[VariableName<'_>]) -> bool
    ensures { result ≡ names.declares (map variable_of declared.now) }
{
    !declared.is_empty()
}

/// Returns the offset of a binding occurrence, if it has an annotation.
fn annotated(of: &Occurrence<'_>) -> Option<usize>
    ensures { result ≡ names.annotated (occurrence_of of.now) }
{
    match of.name {
        Some(_) => Some(of.offset),
        None => None,
    }
}
