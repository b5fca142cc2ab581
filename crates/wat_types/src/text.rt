//! Parses the function types of a module.
ghost use Rattle.std.specs.Prelude.{◌≡◌, ◌≤◌, ◌<◌, IfOk, OnErr, length, map};
ghost use Rattle.std.specs.List.{flat_map};
ghost use Rattle.wat_lexer_parser.specs.readings.Reads.{IsKept, Reads};
ghost use Rattle.wat_lexer_parser.specs.readings.Readings.{mapped};
ghost use Rattle.wat_types.specs.Meanings.{definitions, params, results, vals};
ghost use Rattle.wat_types.specs.Signatures.{signature};

use crate::types::{FuncType, ValType};
use std::alloc::{AllocError, Global};
use std::marker::PhantomData;
use wat_lexer_parser::parser::{Parse, Parser};
use wat_lexer_parser::token::{Id, Parens};
use wat_lexer_parser::{Error, kw};

impl<'a> Parse<'a> for ValType {
    ghost use Rattle.wat_types.specs.Meanings.{val};
    ghost use Rattle.wat_types.specs.declared.types.ValType.{ValType};

    ghost Value = { ValType };

    ghost value = { λ v. v };

    ghost meaning = { val };

    #[tactic(auto, unfolding(crate::specs::Meanings::val))]
    fn parse(parser: &mut Parser<'a>) -> Result<ValType, Error> {
        let mut lookahead = parser.lookahead1();
        if lookahead.peek::<kw::i32>()? {
            drop(lookahead);
            return number_type::<kw::i32>(parser, ValType::I32);
        }
        if lookahead.peek::<kw::i64>()? {
            drop(lookahead);
            return number_type::<kw::i64>(parser, ValType::I64);
        }
        if lookahead.peek::<kw::f32>()? {
            drop(lookahead);
            return number_type::<kw::f32>(parser, ValType::F32);
        }
        if lookahead.peek::<kw::f64>()? {
            drop(lookahead);
            return number_type::<kw::f64>(parser, ValType::F64);
        }
        Err(lookahead.error())
    }
}

/// Parses the keyword `K`, and returns the number type `of` that it denotes.
fn number_type<'a, K: Parse<'a>>(parser: &mut Parser<'a>, of: ValType) -> Result<ValType, Error>
    ensures kept { IsKept parser.old parser.new }
    ensures on { parser.old.place ≤ parser.new.place }
    ensures reads { Reads (λ v. v) (mapped (λ _. of) K.meaning) parser.old result
        parser.new.place }
{
    parser.parse::<K>()?;
    Ok(of)
}

/// Parses all number types before `)`.
fn vals(parser: &mut Parser<'_>) -> Result<Vec<ValType>, Error>
    ensures kept { IsKept parser.old parser.new }
    ensures on { parser.old.place ≤ parser.new.place }
    ensures reads { Reads (λ v. v.items) vals parser.old result parser.new.place }
{
    parser.all_of::<ValType>()
}

/// The number types of a group with the keyword `K`, `param` or `result`.
#[derive(Drop)]
struct Listed<K> {
    types: Vec<ValType>,
    of: PhantomData<K>,
}

/// Concatenates the types of all these groups.
fn joined<K>(alloc: Global, lists: &[Parens<Listed<K>>]) -> Result<Vec<ValType>, AllocError>
    ensures types { IfOk result (λ types.
        types.items ≡ flat_map (λ l. l.inner.types.items) lists.now) }
    ensures some { OnErr result (0 < length lists.now) }
{
    let mut types = Vec::new(alloc);
    for list in lists {
        types.extend_from_slice(&list.inner.types)?;
    }
    Ok(types)
}

/// Parses the contents of a `(param ..)` group: an identifier and one type, or any number of types.
impl<'a> Parse<'a> for Listed<kw::param> {
    ghost use Rattle.std.specs.Prelude.{List};
    ghost use Rattle.wat_types.specs.Meanings.{param};
    ghost use Rattle.wat_types.specs.declared.types.ValType.{ValType};

    ghost Value = { List ValType };

    ghost value = { λ p. p.types.items };

    ghost meaning = { param };

    #[tactic(auto, unfolding(crate::specs::Meanings::param))]
    fn parse(parser: &mut Parser<'a>) -> Result<Self, Error> {
        parser.parse::<kw::param>()?;
        if parser.parse::<Option<Id<'a>>>()?.is_none() {
            return Ok(Listed {
                types: vals(parser)?,
                of: PhantomData,
            });
        }
        let mut types = Vec::new(parser.alloc());
        types.push(parser.parse::<ValType>()?)?;
        Ok(Listed {
            types,
            of: PhantomData,
        })
    }
}

/// Parses the contents of a `(result ..)` group.
impl<'a> Parse<'a> for Listed<kw::result> {
    ghost use Rattle.std.specs.Prelude.{List};
    ghost use Rattle.wat_types.specs.Meanings.{returns};
    ghost use Rattle.wat_types.specs.declared.types.ValType.{ValType};

    ghost Value = { List ValType };

    ghost value = { λ r. r.types.items };

    ghost meaning = { returns };

    #[tactic(auto, unfolding(crate::specs::Meanings::returns))]
    fn parse(parser: &mut Parser<'a>) -> Result<Self, Error> {
        parser.parse::<kw::result>()?;
        Ok(Listed {
            types: vals(parser)?,
            of: PhantomData,
        })
    }
}

/// Parses all consecutive `(param ..)` groups, and concatenates their types.
fn params(parser: &mut Parser<'_>) -> Result<Vec<ValType>, Error>
    ensures kept { IsKept parser.old parser.new }
    ensures on { parser.old.place ≤ parser.new.place }
    ensures reads { Reads (λ v. v.items) params parser.old result parser.new.place }
{
    let all = parser.all_after::<kw::param, Parens<Listed<kw::param>>>()?;
    Ok(joined(parser.alloc(), &all)?)
}

/// Parses all `(result ..)` groups before `)`, and concatenates their types.
fn results(parser: &mut Parser<'_>) -> Result<Vec<ValType>, Error>
    ensures kept { IsKept parser.old parser.new }
    ensures on { parser.old.place ≤ parser.new.place }
    ensures reads { Reads (λ v. v.items) results parser.old result parser.new.place }
{
    let all = parser.all_of::<Parens<Listed<kw::result>>>()?;
    Ok(joined(parser.alloc(), &all)?)
}

/// Parses the contents of a `(func ..)` group.
impl<'a> Parse<'a> for FuncType {
    ghost use Rattle.wat_types.specs.Meanings.{func};
    ghost use Rattle.wat_types.specs.Signatures.{Signature, signature};

    ghost Value = { Signature };

    ghost value = { signature };

    ghost meaning = { func };

    #[tactic(auto, unfolding(crate::specs::Meanings::func))]
    fn parse(parser: &mut Parser<'a>) -> Result<FuncType, Error> {
        parser.parse::<kw::func>()?;
        let params = params(parser)?;
        let results = results(parser)?;
        Ok(FuncType { params, results })
    }
}

/// The contents of a `(type ..)` group, without its identifier.
#[derive(Drop)]
struct Definition {
    func: FuncType,
}

impl<'a> Parse<'a> for Definition {
    ghost use Rattle.wat_types.specs.Meanings.{definition};
    ghost use Rattle.wat_types.specs.Signatures.{Signature, signature};

    ghost Value = { Signature };

    ghost value = { λ d. signature d.func };

    ghost meaning = { definition };

    #[tactic(auto, unfolding(crate::specs::Meanings::definition))]
    fn parse(parser: &mut Parser<'a>) -> Result<Definition, Error> {
        parser.parse::<kw::type_>()?;
        parser.parse::<Option<Id<'a>>>()?;
        Ok(Definition {
            func: parser.parens_of::<FuncType>()?,
        })
    }
}

/// Parses all `(type ..)` groups before `)`.
fn definitions(parser: &mut Parser<'_>) -> Result<Vec<FuncType>, Error>
    ensures kept { IsKept parser.old parser.new }
    ensures on { parser.old.place ≤ parser.new.place }
    ensures reads { Reads (λ v. map signature v.items) definitions parser.old result
        parser.new.place }
{
    let mut types = Vec::new(parser.alloc());
    while !parser.is_empty() {
        let definition = parser.parens_of::<Definition>()?;
        types.push(definition.func)?;
    }
    Ok(types)
}

/// The contents of a `(module ..)` group.
#[derive(Drop)]
struct Fields {
    types: Vec<FuncType>,
}

impl<'a> Parse<'a> for Fields {
    ghost use Rattle.std.specs.Prelude.{List, map};
    ghost use Rattle.wat_types.specs.Meanings.{fields};
    ghost use Rattle.wat_types.specs.Signatures.{Signature, signature};

    ghost Value = { List Signature };

    ghost value = { λ f. map signature f.types.items };

    ghost meaning = { fields };

    #[tactic(auto, unfolding(crate::specs::Meanings::fields))]
    fn parse(parser: &mut Parser<'a>) -> Result<Fields, Error> {
        parser.parse::<kw::module>()?;
        Ok(Fields {
            types: definitions(parser)?,
        })
    }
}

/// A module with function types and nothing else.
#[derive(Drop)]
pub(crate) struct Module {
    pub(crate) types: Vec<FuncType>,
}

impl<'a> Parse<'a> for Module {
    ghost use Rattle.std.specs.Prelude.{List, map};
    ghost use Rattle.wat_types.specs.Meanings.{fields, module_types};
    ghost use Rattle.wat_types.specs.Signatures.{Signature, signature};

    ghost Value = { List Signature };

    ghost value = { λ m. map signature m.types.items };

    ghost meaning = { module_types };

    fn parse(parser: &mut Parser<'a>) -> Result<Module, Error> {
        let fields = parser.parens_of::<Fields>()?;
        Ok(Module {
            types: fields.types,
        })
    }
}
