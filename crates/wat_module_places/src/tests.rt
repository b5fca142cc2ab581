use crate::places::{place_in_module, place_of_field};
use std::alloc::Global;
use std::process::Abort;
use std::test::Fail;
use wat_module_lexer::{PackedText, PackedTokens, pack_tokens, shown_tokens};
use wat_module_tokens::stream::{TokenCursor, TokenStream};

/// Returns the offset of the first of the last `left` tokens of a text.
fn offset(rt: &impl Abort, alloc: Global, text: &str, left: usize) -> usize {
    assert!(rt; text.len() < 1000);
    match shown_tokens(alloc, text) {
        Ok(shown) => match shown.tokens.get(shown.tokens.len().saturating_sub(left)) {
            Some(token) => token.offset,
            None => text.len(),
        },
        Err(_) => panic!(rt; "{text} is not lexed"),
    }
}

/// Returns the number of tokens from the position of an instruction on.
fn left_in(
    alloc: Global,
    tokens: TokenCursor<'_, '_>,
    field: usize,
    instruction: usize,
) -> Result<Option<usize>, Fail> {
    match place_in_module(alloc, tokens, field, instruction)? {
        Some(place) => Ok(Some(place.len())),
        None => Ok(None),
    }
}

/// Returns the offset of the position of an instruction.
fn place(
    rt: &impl Abort,
    alloc: Global,
    text: &str,
    field: usize,
    instruction: usize,
) -> Result<Option<usize>, Fail> {
    assert!(rt; text.len() < 1000);
    match pack_tokens(alloc, text) {
        Ok(
            PackedText {
                packed,
                error: None,
            },
        ) => {
            let PackedTokens { tokens, kept } = packed;
            let source = TokenStream::new(text, tokens, &kept);
            match left_in(alloc, source.cursor(), field, instruction)? {
                Some(left) => Ok(Some(offset(rt, alloc, text, left))),
                None => Ok(None),
            }
        }
        _ => panic!(rt; "{text} is not lexed"),
    }
}

/// Checks that an instruction is at the end of `before` in the text of `before` and `after`.
fn is_at(
    rt: &impl Abort,
    alloc: Global,
    field: usize,
    instruction: usize,
    before: &str,
    after: &str,
) -> Result<(), Fail> {
    let text = format!(in alloc; "{before}{after}")?;
    let found = place(rt, alloc, text.as_str(), field, instruction)?;
    assert_eq!(rt; found, Some(before.len()), "{before}^{after}");
    Ok(())
}

#[test]
fn plain_instructions(rt: HostRuntime) -> Result<(), Fail> {
    let alloc = rt.alloc();
    is_at(&rt, alloc, 0, 0, "(module (func ", "nop))")?;
    is_at(&rt, alloc, 0, 1, "(func (param i32) local.get 0 ", "drop)")?;
    is_at(
        &rt,
        alloc,
        0,
        2,
        "(func $f (local i64) (nop) nop ",
        "i64.const 1)",
    )?;
    is_at(&rt, alloc, 0, 0, "(func (drop (", "i32.const 1)))")?;
    is_at(&rt, alloc, 0, 1, "(func (", "drop (i32.const 1)))")?;
    is_at(
        &rt,
        alloc,
        0,
        0,
        "(func (drop (i32.add (",
        "local.get 0) (i32.const 1))))",
    )?;
    is_at(
        &rt,
        alloc,
        0,
        1,
        "(func (drop (i32.add (local.get 0) (",
        "i32.const 1))))",
    )?;
    is_at(
        &rt,
        alloc,
        0,
        2,
        "(func (drop (",
        "i32.add (local.get 0) (i32.const 1))))",
    )?;
    is_at(
        &rt,
        alloc,
        0,
        3,
        "(func (",
        "drop (i32.add (local.get 0) (i32.const 1))))",
    )?;
    Ok(())
}

#[test]
fn immediates(rt: HostRuntime) -> Result<(), Fail> {
    let alloc = rt.alloc();
    is_at(
        &rt,
        alloc,
        0,
        1,
        "(func i32.load offset=4 align=4 ",
        "drop)",
    )?;
    is_at(
        &rt,
        alloc,
        0,
        1,
        "(func v128.const i8x16 0 0 0 0 0 0 0 0 0 0 0 0 0 0 0 0 ",
        "drop)",
    )?;
    is_at(
        &rt,
        alloc,
        0,
        1,
        "(func ref.null func ",
        "ref.null extern drop)",
    )?;
    is_at(
        &rt,
        alloc,
        0,
        2,
        "(func ref.null func ref.null extern ",
        "drop)",
    )?;
    is_at(
        &rt,
        alloc,
        0,
        1,
        "(func call_indirect (type 0) (param i32) (result f32) ",
        "nop)",
    )?;
    is_at(
        &rt,
        alloc,
        0,
        1,
        "(func select (result i32) ",
        "br_table 0 0 0 nop)",
    )?;
    is_at(
        &rt,
        alloc,
        0,
        2,
        "(func select (result i32) br_table 0 0 0 ",
        "nop)",
    )?;
    Ok(())
}

#[test]
fn blocks(rt: HostRuntime) -> Result<(), Fail> {
    let alloc = rt.alloc();
    is_at(
        &rt,
        alloc,
        0,
        0,
        "(func ",
        "block $l (result i32) nop end $l drop)",
    )?;
    is_at(
        &rt,
        alloc,
        0,
        2,
        "(func block $l (result i32) nop ",
        "end $l drop)",
    )?;
    is_at(
        &rt,
        alloc,
        0,
        3,
        "(func block $l (result i32) nop end $l ",
        "drop)",
    )?;
    is_at(&rt, alloc, 0, 2, "(func if nop ", "else drop end)")?;
    is_at(&rt, alloc, 0, 4, "(func if nop else drop ", "end)")?;
    is_at(&rt, alloc, 0, 0, "(func (", "loop $l (type 0) (nop)))")?;
    is_at(&rt, alloc, 0, 1, "(func (loop $l (type 0) (", "nop)))")?;
    is_at(&rt, alloc, 0, 2, "(func (loop $l (type 0) (nop)", "))")?;
    is_at(
        &rt,
        alloc,
        0,
        0,
        "(func (if (",
        "i32.const 1) (then nop) (else drop)))",
    )?;
    is_at(
        &rt,
        alloc,
        0,
        1,
        "(func (",
        "if (i32.const 1) (then nop) (else drop)))",
    )?;
    is_at(
        &rt,
        alloc,
        0,
        2,
        "(func (if (i32.const 1) (then ",
        "nop) (else drop)))",
    )?;
    is_at(
        &rt,
        alloc,
        0,
        3,
        "(func (if (i32.const 1) (then nop) (",
        "else drop)))",
    )?;
    is_at(
        &rt,
        alloc,
        0,
        4,
        "(func (if (i32.const 1) (then nop) (else ",
        "drop)))",
    )?;
    is_at(
        &rt,
        alloc,
        0,
        5,
        "(func (if (i32.const 1) (then nop) (else drop)",
        "))",
    )?;
    is_at(&rt, alloc, 0, 3, "(func (if (i32.const 1) (then nop)", "))")?;
    Ok(())
}

#[test]
fn fields(rt: HostRuntime) -> Result<(), Fail> {
    let alloc = rt.alloc();
    is_at(
        &rt,
        alloc,
        1,
        0,
        "(module $m (func (export \"a\") nop) (func ",
        "drop))",
    )?;
    is_at(&rt, alloc, 0, 1, "(module (", "func nop))")?;
    is_at(&rt, alloc, 0, 0, "(", "func (import \"a\" \"b\") (type 0))")?;
    is_at(&rt, alloc, 1, 0, "(memory 1) (", "start 0)")?;
    is_at(&rt, alloc, 0, 0, "(global (mut i32) (", "i32.const 1))")?;
    is_at(
        &rt,
        alloc,
        0,
        0,
        "(global $g (export \"a\") i32 ",
        "i32.const 1)",
    )?;
    is_at(
        &rt,
        alloc,
        0,
        0,
        "(data (memory 0) (offset ",
        "i32.const 1) \"a\")",
    )?;
    is_at(&rt, alloc, 0, 0, "(data (", "i32.const 1) \"a\")")?;
    is_at(
        &rt,
        alloc,
        0,
        0,
        "(elem (table 0) (",
        "i32.const 1) funcref (ref.func 0))",
    )?;
    is_at(
        &rt,
        alloc,
        0,
        1,
        "(elem (table 0) (i32.const 1) funcref (",
        "ref.func 0))",
    )?;
    is_at(
        &rt,
        alloc,
        0,
        1,
        "(elem declare funcref (ref.func 0) (item ",
        "ref.func 1))",
    )?;
    is_at(
        &rt,
        alloc,
        0,
        0,
        "(table funcref (elem (",
        "ref.null func)))",
    )?;
    is_at(&rt, alloc, 0, 0, "(", "table funcref (elem 0 1))")?;
    let found = place(&rt, alloc, "(module (func nop))", 1, 0)?;
    assert!(rt; found.is_none());
    Ok(())
}

#[test]
fn field_places(rt: HostRuntime) {
    let alloc = rt.alloc();
    let text = "(module (memory 1) (func))";
    match pack_tokens(alloc, text) {
        Ok(
            PackedText {
                packed,
                error: None,
            },
        ) => {
            let PackedTokens { tokens, kept } = packed;
            let source = TokenStream::new(text, tokens, &kept);
            match place_of_field(source.cursor(), 1) {
                Some(place) => assert_eq!(rt; place.len(), 3),
                None => panic!(rt; "no field"),
            }
            assert!(rt; place_of_field(source.cursor(), 2).is_none());
        }
        _ => panic!(rt; "{text} is not lexed"),
    }
}
