//! Rows of the significant tokens, their links, and the rows that are visible to a parser.
ghost use Rattle.std.specs.Prelude.{◌≡◌, ◌≤◌, ◌<◌, ◌^◌, ◌-◌, length, take, drop, map};
ghost use Rattle.std.specs.Str.{IsCharBoundary, IsUtf8};
ghost use Rattle.wat_lexer_parser.specs.places.Places.{offset_at};
ghost use Rattle.wat_lexer_parser.specs.places.Source.{Source};
ghost use Rattle.wat_c_records.specs.Counting.{FillsCounting, OneFillCounting};
ghost use Rattle.wat_c_records.specs.Links.{AreLinked, without_link};
ghost use Rattle.wat_c_records.specs.Looks.{LooksAsIntegers, names_of};
ghost use Rattle.wat_c_records.specs.Places.{AreRowsOf, RowsOf, HaveTokensOf, raw_position};
ghost use Rattle.wat_c_records.specs.Rows.{setting};

use std::alloc::Global;
use std::str;
use wat_c_records::after::offset_after;
use wat_c_records::answers::Look;
use wat_c_records::counting::{Row, fill_counting};
use wat_c_records::laws::one_fill_counting;
use wat_c_records::links::link;
use wat_c_records::looks::look_as_integers;
use wat_c_records::rows::Filled;
use wat_lex::lexer::Settings;

/// Writes the rows of the significant tokens from byte `pos` on to `out`, until `out` is full, the
/// text ends, or there is a lexical error. Their links are 0. To get further rows, call the
/// function again with the returned `at` as `pos`. Elements of `out` after the first `count` are
/// unchanged.
#[unsafe(no_mangle)]
pub extern "C" fn wat_rows(
    text: &[u8],
    pos: usize,
    allow: bool,
    strict: bool,
    out: &mut [Row],
) -> Filled
    requires utf8 { IsUtf8 text.now }
    requires short { length text.now < 2 ^ 32 }
    requires boundary { IsCharBoundary text.now pos }
    ensures rows { FillsCounting (setting text.now allow strict) pos
        (length out.old) (take result.count out.new) result }
    ensures boundary { IsCharBoundary text.now result.at }
    ensures count { result.count ≤ length out.old }
    ensures rest { drop result.count out.new ≡ drop result.count out.old }
    ensures one { OneFillCounting (setting text.now allow strict) pos (length out.old) }
{
    one_fill_counting();
    let text = unsafe { str::from_utf8_unchecked(text) };
    fill_counting(text, pos, Settings { allow, strict }, out)
}

/// Sets the link of each row, and changes nothing else.
#[unsafe(no_mangle)]
pub extern "C" fn wat_links(rows: &mut [Row])
    requires { length rows.old < 2 ^ 32 - 1 }
    ensures linked { AreLinked rows.new }
    ensures kept { map without_link rows.new ≡ map without_link rows.old }
{
    link(rows);
}

/// Returns the first row, from index `place` on, that is visible to a parser. All rows are visible
/// except those of annotations with an unregistered name. `rows` must be all rows of the text with
/// their links, and `why` that of the last call of `wat_rows`. `names` contains the registered
/// names one after another, and `ends[i]` is the offset at which name `i` ends. Allocates only if
/// the name of an annotation contains an escape.
#[unsafe(no_mangle)]
pub extern "C" fn wat_shown(
    alloc: Global,
    text: &[u8],
    rows: &[Row],
    why: u32,
    place: usize,
    names: &[u8],
    ends: &[usize],
) -> Look
    requires utf8 { IsUtf8 text.now }
    requires short { length text.now < 2 ^ 32 }
    requires few { length rows.now < 2 ^ 32 }
    requires rows { RowsOf text.now rows.now why }
    ensures { (s : Source) → s.setting.text ≡ text.now → AreRowsOf s rows.now why →
        LooksAsIntegers s (length rows.now) place (names_of names.now ends.now) result }
{
    let text = unsafe { str::from_utf8_unchecked(text) };
    look_as_integers(alloc, text, rows, why, place, names, ends)
}

/// Returns the byte offset that a parser has reached after it consumed the first `place` rows: the
/// end of the last of them, or 0 if there is none. The links of the rows need not be set.
#[unsafe(no_mangle)]
pub extern "C" fn wat_after(rows: &[Row], place: usize) -> usize
    requires { place ≤ length rows.now }
    ensures { (s : Source) → HaveTokensOf s rows.now →
        result ≡ offset_at s.tokens (raw_position s.tokens place) }
{
    offset_after(rows, place)
}
