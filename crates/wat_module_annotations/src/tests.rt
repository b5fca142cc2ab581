use crate::names_of;
use std::alloc::Global;
use std::process::Abort;
use std::test::Fail;
use wat_lexer_parser::lexer::{Lexer, Settings};
use wat_lexer_parser::parser::LazyBuffer;

fn buffer<'a>(rt: &impl Abort, alloc: Global, text: &'a str) -> LazyBuffer<'a> {
    assert!(rt; text.len() < 1000);
    let settings = Settings {
        allow: true,
        strict: true,
    };
    LazyBuffer::new_with_lexer(alloc, Lexer::with_settings(text, settings))
}

fn refuses(
    rt: &impl Abort,
    alloc: Global,
    text: &str,
    offset: usize,
    message: &str,
) -> Result<(), Fail> {
    let buffer = buffer(rt, alloc, text);
    match names_of(alloc, &buffer) {
        Ok(_) => panic!(rt; "{text} is taken"),
        Err(error) => {
            let found = error.message(alloc)?;
            assert_eq!(rt; found.as_str(), message, "{text}");
            assert_eq!(rt; error.span().offset(), offset, "{text}");
        }
    }
    Ok(())
}

#[test]
fn refusals(rt: HostRuntime) -> Result<(), Fail> {
    let alloc = rt.alloc();
    refuses(&rt, alloc, "(func (@name))", 12, "expected a string")?;
    refuses(
        &rt,
        alloc,
        "(func (@name \"\\ff\"))",
        18,
        "malformed UTF-8 encoding",
    )?;
    refuses(&rt, alloc, "(func (@name \"a\" \"b\"))", 17, "expected `)`")?;
    refuses(
        &rt,
        alloc,
        "(func (param (@name \"x\")))",
        24,
        "expected a keyword",
    )?;
    refuses(
        &rt,
        alloc,
        "(func (param (@name \"x\") i32 i32))",
        29,
        "expected `)`",
    )?;
    let before = "annotation `@name` before the identifier";
    refuses(&rt, alloc, "(module (@name \"a\") $x)", 20, before)?;
    let misplaced = "annotation `@name` where no identifier may be";
    refuses(&rt, alloc, "(@name \"a\")", 0, misplaced)?;
    refuses(
        &rt,
        alloc,
        "(func (@name \"a\") (@name \"b\"))",
        18,
        misplaced,
    )?;
    Ok(())
}

#[test]
fn annotations(rt: HostRuntime) {
    let alloc = rt.alloc();
    let text = "(module $m (@name \"m\") (func (param (@name \"x\") i32) block (@name \"l\") end))";
    let buffer = buffer(&rt, alloc, text);
    match names_of(alloc, &buffer) {
        Ok(names) => {
            assert!(rt; names.of_module.is_some());
            assert_eq!(rt; names.fields.len(), 1);
            assert_eq!(rt; names.fields[0].variables.len(), 1);
            assert_eq!(rt; names.fields[0].labels.len(), 1);
            assert!(rt; names.fields[0].item.is_none());
        }
        Err(_) => panic!(rt; "{text} is refused"),
    }
}
