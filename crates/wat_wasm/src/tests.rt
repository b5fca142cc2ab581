//! Tests of the export. The expected rows and messages are hand-written.
use crate::report::Report;
use crate::rows::Row;
use crate::wat_page_read;
use std::process::Abort;

const EMPTY: Row = Row { end: 0, kind: 99 };

/// Lexes a text into rows and a message, and returns the report.
fn read(text: &[u8], rows: &mut [Row], message: &mut [u8]) -> Report {
    let mut report = Report {
        ending: 9,
        rows: 9,
        offset: 9,
        line: 9,
        column: 9,
        message: 9,
    };
    wat_page_read(text, false, false, rows, message, &mut report);
    report
}

#[test]
fn a_text_to_its_end(rt: HostRuntime) {
    let mut rows = [EMPTY; 8];
    let mut message = [7; 4];
    let report = read(b"(f 1)", &mut rows, &mut message);
    let plain = Report {
        ending: 0,
        rows: 5,
        offset: 0,
        line: 0,
        column: 0,
        message: 0,
    };
    assert_eq!(rt; report, plain);
    assert_eq!(rt; message, [7; 4]);
    let ends = [(1, 4), (2, 8), (3, 3), (4, 11), (5, 5), (0, 99)];
    for (row, (end, kind)) in rows.iter().zip(ends.iter()) {
        assert_eq!(rt; (row.end, row.kind), (*end, *kind));
    }
}

#[test]
fn too_few_rows(rt: HostRuntime) {
    let mut rows = [EMPTY; 4];
    let report = read(b"(f 1)", &mut rows, &mut []);
    assert_eq!(rt; (report.ending, report.rows), (2, 4));
    let report = read(b"(f 1", &mut rows, &mut []);
    assert_eq!(rt; (report.ending, report.rows), (0, 4));
    let report = read(b"", &mut [], &mut []);
    assert_eq!(rt; (report.ending, report.rows), (0, 0));
}

#[test]
fn a_fault(rt: HostRuntime) {
    let mut message = [7; 128];
    let report = read("1\n é".as_bytes(), &mut [EMPTY; 8], &mut message);
    assert_eq!(rt; (report.ending, report.rows), (1, 2));
    assert_eq!(rt; (report.offset, report.line, report.column), (3, 1, 1));
    let known =
        "unexpected character '\\u{e9}'\n     --> <anon>:2:2\n      |\n    2 |  é\n      |  ^";
    assert_eq!(rt; report.message, known.len());
    assert!(rt; message.starts_with(known.as_bytes()));
    let mut few = [7; 28];
    let report = read("é".as_bytes(), &mut [], &mut few);
    assert_eq!(rt; (report.ending, report.message), (1, 28));
    assert!(rt; known.as_bytes().starts_with(&few));
}

#[test]
fn no_text(rt: HostRuntime) {
    let report = read(b"(a\xff", &mut [EMPTY; 8], &mut []);
    assert_eq!(rt; (report.ending, report.rows, report.offset), (3, 0, 2));
}

#[test]
fn the_flags(rt: HostRuntime) {
    let mut report = read(b"", &mut [], &mut []);
    let confusing = ";;\u{202e}".as_bytes();
    let doubled = b"\"\\u{1__0}\"";
    let rows = &mut [EMPTY; 8];
    wat_page_read(confusing, false, false, rows, &mut [], &mut report);
    assert_eq!(rt; report.ending, 1);
    wat_page_read(confusing, true, false, rows, &mut [], &mut report);
    assert_eq!(rt; report.ending, 0);
    wat_page_read(doubled, false, true, rows, &mut [], &mut report);
    assert_eq!(rt; report.ending, 1);
    wat_page_read(doubled, false, false, rows, &mut [], &mut report);
    assert_eq!(rt; report.ending, 0);
}
