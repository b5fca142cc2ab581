//! Encodes the code section: the locals and instructions of the functions.
ghost use Rattle.std.specs.Prelude.{◌≡◌, ◌≤◌, ◌+◌, ◌++◌, ℕ, OnOk, IfOk, length, replicate};
ghost use Rattle.std.specs.List.{flat_map};
ghost use Rattle.wat_module_ast.specs.Views.{fields_of, function_of};
ghost use Rattle.wat_lex.specs.binary.Encoding.{list_encoding};
ghost use Rattle.wat_module_encoder.specs.Binary as binary;
ghost use Rattle.wat_module_encoder.specs.Views.{bytes_of};

use crate::bytes::{put, put_section, put_sized};
use crate::instructions::put_instructions;
use std::alloc::{AllocError, Global};
use wat_module_ast::fields::{Field, Function, Locals};
use wat_module_ast::indexed_types::IndexedTypes;
use wat_module_ast::types::type_byte;

/// Appends a run of `count` locals whose type has the encoding `byte`: the count and the byte.
/// Appends nothing if `count` is 0.
fn put_run(out: &mut Vec<u8>, count: usize, byte: u8) -> Result<(), AllocError>
    ensures { OnOk result (out.new.items ≡
        out.old.items ++ flat_map binary.run_bytes (binary.runs_of (replicate count byte))) }
{
    if count > 0 {
        put(out, count)?;
        out.push(byte)?;
    }
    Ok(())
}

/// Returns the number of runs of `count` locals of one type: 1, or 0 if there are none.
#[tactic(auto, using(crate::proofs::RunLaws::count_one, crate::proofs::RunLaws::count_none))]
fn runs_in(count: usize) -> usize
    ensures is { (byte : ℕ) → result ≡ length (binary.runs_of (replicate count byte)) }
    ensures small { result ≤ 1 }
{
    if count > 0 { 1 } else { 0 }
}

/// Returns the number of maximal runs of consecutive locals of one type. Fails if a run has 2^64
/// locals or more.
fn run_count(locals: &[Locals]) -> Result<usize, AllocError>
    ensures { IfOk result (λ n. n ≡ length (binary.runs_of (bytes_of locals.now))) }
{
    let mut runs = 0;
    let mut count = 0;
    let mut byte = 0;
    for local in locals {
        let next = type_byte(local.of);
        if next == byte {
            count = sum(count, local.count)?;
        } else if local.count > 0 {
            runs += runs_in(count);
            count = local.count;
            byte = next;
        }
    }
    Ok(runs + runs_in(count))
}

/// Appends each maximal run of consecutive locals of one type. Fails if a run has 2^64 locals or
/// more.
fn put_runs(out: &mut Vec<u8>, locals: &[Locals]) -> Result<(), AllocError>
    ensures { OnOk result (out.new.items ≡
        out.old.items ++ flat_map binary.run_bytes (binary.runs_of (bytes_of locals.now))) }
{
    let mut count = 0;
    let mut byte = 0;
    for local in locals {
        let next = type_byte(local.of);
        if next == byte {
            count = sum(count, local.count)?;
        } else if local.count > 0 {
            put_run(out, count, byte)?;
            count = local.count;
            byte = next;
        }
    }
    put_run(out, count, byte)
}

/// Returns the sum of two counts. Fails if it is 2^64 or more.
fn sum(first: usize, second: usize) -> Result<usize, AllocError>
    ensures { IfOk result (λ n. n ≡ first + second) }
{
    match first.checked_add(second) {
        Some(sum) => Ok(sum),
        None => Err(AllocError),
    }
}

/// Appends locals: the number of their maximal runs of one type, and then each run.
fn put_locals(out: &mut Vec<u8>, locals: &[Locals]) -> Result<(), AllocError>
    ensures { OnOk result (out.new.items ≡
        out.old.items ++ list_encoding binary.run_bytes (binary.runs_of (bytes_of locals.now))) }
{
    put(out, run_count(locals)?)?;
    put_runs(out, locals)
}

/// Returns the encoding of a function without its size: its locals, its instructions and the final
/// `end`.
#[tactic(auto, unfolding(crate::specs::Binary::code))]
fn code(alloc: Global, types: &IndexedTypes, function: &Function<'_>) -> Result<Vec<u8>, AllocError>
    ensures { IfOk result (λ bytes. bytes.items ≡
        binary.code types.now (function_of function.now)) }
{
    let mut bytes = Vec::new(alloc);
    put_locals(&mut bytes, &function.locals)?;
    put_instructions(&mut bytes, types, &function.body)?;
    bytes.push(0x0B)?;
    Ok(bytes)
}

/// Appends the code section: for each function that a field defines, its size in bytes and then its
/// code.
pub(crate) fn put_codes(
    alloc: Global,
    out: &mut Vec<u8>,
    types: &IndexedTypes,
    fields: &[Field<'_>],
) -> Result<(), AllocError>
    ensures { OnOk result (out.new.items ≡
        out.old.items ++
        binary.list_section 10 (binary.code_bytes types.now)
        (binary.functions_of (fields_of fields.now))) }
{
    let mut items = Vec::new(alloc);
    let mut count = 0;
    for field in fields {
        if let Field::Func(function) = field {
            let code = code(alloc, types, function)?;
            put_sized(&mut items, &code)?;
            count += 1;
        }
    }
    put_section(alloc, out, 10, count, &items)
}
