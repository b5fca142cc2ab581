//! The offset of a parser that has consumed a number of rows.
ghost use Rattle.std.specs.Prelude.{◌≡◌, ◌≤◌, ◌<◌, ◌^◌, length};
ghost use Rattle.wat_lexer_parser.specs.places.Places.{offset_at};
ghost use Rattle.wat_lexer_parser.specs.places.Source.{Source};
ghost use Rattle.wat_c_records.specs.Places.{HaveTokensOf, raw_position};

use crate::counting::Row;

/// Returns the offset in the text of a parser that has consumed the first `count` rows: the end of
/// the last of them, or 0 if there is none. The links of the rows need not be set.
pub fn offset_after(rows: &[Row], count: usize) -> usize
    requires { count ≤ length rows.now }
    ensures { (s : Source) → HaveTokensOf s rows.now →
        result ≡ offset_at s.tokens (raw_position s.tokens count) }
{
    if count == 0 {
        return 0;
    }
    let last = rows[count - 1];
    last.offset as usize + last.len as usize
}
