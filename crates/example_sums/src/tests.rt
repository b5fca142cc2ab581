use crate::{Sum, Term, read};
use std::alloc::Global;
use std::process::Abort;
use std::test::Fail;
use wat_lexer_parser::Error;

fn sum_of(rt: &impl Abort, alloc: Global, text: &str) -> Result<Sum, Error> {
    assert!(rt; text.len() < 1000);
    read(alloc, text)
}

fn spells(rt: &impl Abort, alloc: Global, text: &str, terms: &[Term]) {
    match sum_of(rt, alloc, text) {
        Ok(sum) => assert_eq!(rt; &sum.terms[..], terms, "{text}"),
        Err(_) => panic!(rt; "{text} is no sum"),
    }
}

#[test]
fn sums(rt: HostRuntime) {
    let alloc = rt.alloc();
    spells(&rt, alloc, "(sum)", &[]);
    spells(
        &rt,
        alloc,
        "(sum 1 2 (neg 3))",
        &[Term(1), Term(2), Term(-3)],
    );
    spells(
        &rt,
        alloc,
        "(;a;) ( sum 0x10 (@b c) +7 ) ;;d",
        &[Term(16), Term(7)],
    );
}

fn refuses(
    rt: &impl Abort,
    alloc: Global,
    text: &str,
    offset: usize,
    message: &str,
) -> Result<(), Fail> {
    match sum_of(rt, alloc, text) {
        Ok(_) => panic!(rt; "{text} is a sum"),
        Err(error) => {
            let found = error.message(alloc)?;
            assert_eq!(rt; found.as_str(), message, "{text}");
            assert_eq!(rt; error.span().offset(), offset, "{text}");
        }
    }
    Ok(())
}

#[test]
fn refusals(rt: HostRuntime) -> Result<(), Fail> {
    let alloc = rt.alloc();
    refuses(&rt, alloc, "", 0, "expected `(`")?;
    refuses(&rt, alloc, "(neg 1)", 1, "expected keyword `sum`")?;
    let term = "unexpected token, expected u32 or left paren";
    refuses(&rt, alloc, "(sum x)", 5, term)?;
    refuses(&rt, alloc, "(sum (sum 1))", 6, "expected keyword `neg`")?;
    let range = "invalid u32 number: constant out of range";
    refuses(&rt, alloc, "(sum -1)", 5, range)?;
    refuses(&rt, alloc, "(sum 1", 6, "expected `)`")?;
    refuses(
        &rt,
        alloc,
        "(sum 1) 2",
        8,
        "extra tokens remaining after parse",
    )?;
    refuses(&rt, alloc, "(sum \"", 6, "unexpected end-of-file")
}
