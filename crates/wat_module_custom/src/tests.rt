use crate::{buffer, custom_sections};
use std::alloc::Global;
use std::process::Abort;
use std::test::Fail;

fn has(rt: &impl Abort, alloc: Global, text: &str, count: usize) {
    assert!(rt; text.len() < 1000);
    let buffer = buffer(alloc, text);
    match custom_sections(alloc, &buffer) {
        Ok(sections) => assert_eq!(rt; sections.len(), count, "{text}"),
        Err(_) => panic!(rt; "{text} is refused"),
    }
}

fn refuses(
    rt: &impl Abort,
    alloc: Global,
    text: &str,
    offset: usize,
    message: &str,
) -> Result<(), Fail> {
    assert!(rt; text.len() < 1000);
    let buffer = buffer(alloc, text);
    match custom_sections(alloc, &buffer) {
        Ok(_) => panic!(rt; "{text} is taken"),
        Err(error) => {
            let found = error.message(alloc)?;
            assert_eq!(rt; found.as_str(), message, "{text}");
            assert_eq!(rt; error.span().offset(), offset, "{text}");
        }
    }
    Ok(())
}

#[test]
fn annotations(rt: HostRuntime) {
    let alloc = rt.alloc();
    has(&rt, alloc, "(module)", 0);
    has(&rt, alloc, "(@custom \"a\")", 1);
    has(
        &rt,
        alloc,
        "(module (@custom \"a\" \"b\" \"c\") (func) (@custom \"a\"))",
        2,
    );
    has(&rt, alloc, "(module $x (@custom \"a\" (before first)))", 1);
    has(
        &rt,
        alloc,
        "(func (param i32)) (@\"custom\" \"a\" (after code) \"x\\00\")",
        1,
    );
    has(&rt, alloc, "(func (@other (@custom)))", 0);
}

#[test]
fn refusals(rt: HostRuntime) -> Result<(), Fail> {
    let alloc = rt.alloc();
    refuses(&rt, alloc, "(@custom)", 8, "expected a string")?;
    refuses(&rt, alloc, "(@custom 4)", 9, "expected a string")?;
    refuses(
        &rt,
        alloc,
        "(@custom \"\\df\")",
        14,
        "malformed UTF-8 encoding",
    )?;
    refuses(&rt, alloc, "(@custom \"a\" here)", 13, "expected a string")?;
    refuses(
        &rt,
        alloc,
        "(@custom \"a\" (aft type))",
        14,
        "expected `before` or `after`",
    )?;
    refuses(
        &rt,
        alloc,
        "(@custom \"a\" (before types))",
        21,
        "expected `first` or a section",
    )?;
    refuses(
        &rt,
        alloc,
        "(@custom \"a\" (after first))",
        20,
        "expected `last` or a section",
    )?;
    refuses(
        &rt,
        alloc,
        "(@custom \"a\" (before type \"\"))",
        26,
        "expected `)`",
    )?;
    let misplaced = "annotation `@custom` where no field may be";
    refuses(&rt, alloc, "(func (@custom \"a\"))", 6, misplaced)?;
    refuses(&rt, alloc, "(@custom \"a\") (module)", 0, misplaced)?;
    refuses(&rt, alloc, "(module) (@custom \"a\")", 9, misplaced)?;
    refuses(&rt, alloc, "(module (@custom \"a\") $x)", 8, misplaced)?;
    refuses(&rt, alloc, "((@custom \"a\") module)", 1, misplaced)?;
    Ok(())
}
