//! Links from rows to the ends of groups in parentheses.
ghost use Rattle.std.specs.Prelude.{◌≡◌, ◌<◌, ◌+◌, ◌-◌, ◌^◌, length, map, slice_get, IfSome};
ghost use Rattle.wat_c_records.specs.Links.{
  AreLinked,
  IsLink,
  LinkedFrom,
  closes,
  codes_of,
  opens,
  without_link,
};

use crate::counting::Row;

/// Returns `true` if the code is that of a `(`, with or without `@` after it.
fn opens(code: u8) -> bool
    ensures { result ≡ opens code }
{
    code == 4 || code == 16
}

/// Returns `true` if the code is that of a `)`.
fn closes(code: u8) -> bool
    ensures { result ≡ closes code }
{
    code == 5
}

/// Returns the row at an index, or `None` if there are fewer rows.
pub fn row_at(rows: &[Row], number: usize) -> Option<Row>
    ensures value { result ≡ slice_get rows.now number }
    ensures within { IfSome result (λ _. number < length rows.now) }
    ensures small { length rows.now < 2 ^ 63 }
{
    rows.get(number).copied()
}

/// Returns the link of the row at an index. All rows after it must have their links.
fn link_of(rows: &[Row], number: usize) -> u32
    requires few { length rows.now < 2 ^ 32 - 1 }
    requires within { number < length rows.now }
    requires linked { LinkedFrom (number + 1) rows.now }
    ensures { IsLink (codes_of rows.now) number result }
{
    let Some(next) = row_at(rows, number + 1) else {
        return 0;
    };
    if closes(next.kind.code) {
        return number as u32 + 2;
    }
    if !opens(next.kind.code) {
        return next.link;
    }
    if next.link == 0 {
        return 0;
    }
    rows[next.link as usize - 1].link
}

/// Sets the link of each row, and changes nothing else.
pub fn link(rows: &mut [Row])
    requires { length rows.old < 2 ^ 32 - 1 }
    ensures linked { AreLinked rows.new }
    ensures kept { map without_link rows.new ≡ map without_link rows.old }
{
    let mut number = rows.len();
    'links: while number > 0 {
        number -= 1;
        rows[number].link = link_of(rows, number);
    }
}
