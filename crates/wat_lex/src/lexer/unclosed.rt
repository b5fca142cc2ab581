//! Block comments without their closing `;)`. Error recovery skips only the `(;` of such a comment,
//! so that without marks the lexer would search the rest of the text once for each of them.
ghost use Rattle.std.specs.Prelude.{
  ◌≡◌,
  ◌≢◌,
  ◌⊎◌,
  ◌≤◌,
  ◌<◌,
  ◌^◌,
  ◌↔◌,
  ◌+◌,
  ◌-◌,
  IsTrue,
  length,
  drop,
  slice_index,
};
ghost use Rattle.wat_lex.specs.inside.Closings.{ClosesAtMost};
ghost use Rattle.wat_lex.specs.tokens.Unclosed.{AreMarks, UnclosedAt};

use crate::lexer::Lexer;
use crate::lexer::scan::byte_at;

/// Returns `true` if `(;` is at index `i`.
pub fn opens_at(text: &[u8], i: usize) -> bool
    requires { i < length text.now }
    ensures { IsTrue result ↔ (slice_index text.now i ≡ 40)
        × (slice_index text.now (i + 1) ≡ 59) }
{
    byte_at(text, i) == b'(' && byte_at(text, i + 1) == b';'
}

/// Returns `true` if `;)` is at index `i`.
fn closes_at(text: &[u8], i: usize) -> bool
    requires { i < length text.now }
    ensures { IsTrue result ↔ (slice_index text.now i ≡ 59)
        × (slice_index text.now (i + 1) ≡ 41) }
{
    byte_at(text, i) == b';' && byte_at(text, i + 1) == b')'
}

/// Returns the number of open comments that the text from index `i` on closes at most. `next` and
/// `after` are these numbers for the text from the next index on, and from the one after it.
fn closings(text: &[u8], i: usize, next: usize, after: usize) -> usize
    requires range { i < length text.now }
    requires next { ClosesAtMost next (drop (i + 1) text.now) }
    requires after { slice_index text.now (i + 1) ≢ 40 →
        ClosesAtMost after (drop (i + 2) text.now) }
    requires few { (next ≤ length text.now - (i + 1)) × (after ≤ length text.now - (i + 1)) }
    ensures most { ClosesAtMost result (drop i text.now) }
    ensures few { result ≤ length text.now - i }
{
    if opens_at(text, i) {
        after.saturating_sub(1)
    } else if closes_at(text, i) {
        after + 1
    } else {
        next
    }
}

/// Marks the unclosed comment at `at`: instead of the last of the first `used` marks, or after them
/// if `at` is before `half`. Returns the number of marks, and `half` for the comments before `at`:
/// if a mark was added, the offset in the middle between `from` and `at`.
fn mark_at(
    lexer: &Lexer<'_>,
    from: usize,
    at: usize,
    marks: &mut [u32],
    used: usize,
    half: usize,
) -> (usize, usize)
    requires range { (from ≤ at) × (at + 1 < 2 ^ 32) }
    requires unclosed { UnclosedAt lexer.now at }
    requires used { used ≤ length marks.old }
    requires marks { AreMarks lexer.now marks.old }
    ensures marks { AreMarks lexer.now marks.new }
    ensures used { result.0 ≤ length marks.old }
{
    let (used, half) = if at < half {
        ((used + 1).min(marks.len()), from + (at - from) / 2)
    } else {
        (used, half)
    };
    if used > 0 {
        marks[used - 1] = at as u32 + 1;
    }
    (used, half)
}

/// Marks unclosed comments from `from` up to `end`, after the first `known` marks. Their offsets
/// descend: a mark is less than half as far from `from` as the comment for which the mark before it
/// was added, and the last mark is the first unclosed comment.
fn mark_between(lexer: &Lexer<'_>, from: usize, end: usize, marks: &mut [u32], known: usize)
    requires range { end ≤ length lexer.now.text }
    requires end { (end ≡ length lexer.now.text) ⊎ UnclosedAt lexer.now end }
    requires known { known ≤ length marks.old }
    requires marks { AreMarks lexer.now marks.old }
    ensures { AreMarks lexer.now marks.new }
{
    let text = lexer.input().as_bytes();
    let (mut at, mut used, mut half) = (end, known, end);
    let (mut next, mut after) = (0, 0);
    while at > from {
        at -= 1;
        if after == 0 && opens_at(text, at) {
            (used, half) = mark_at(lexer, from, at, marks, used, half);
        }
        let here = closings(text, at, next, after);
        after = next;
        next = here;
    }
}

/// Returns the number of marks before the first 0.
fn count(marks: &[u32]) -> usize
    ensures { result ≤ length marks.now }
{
    marks
        .iter()
        .position(|mark| *mark == 0)
        .unwrap_or(marks.len())
}

/// Removes the last marks that are before the offset `pos`, and returns the number of those left.
fn remove_passed(lexer: &Lexer<'_>, marks: &mut [u32], known: usize, pos: usize) -> usize
    requires known { known ≤ length marks.old }
    requires marks { AreMarks lexer.now marks.old }
    ensures marks { AreMarks lexer.now marks.new }
    ensures left { result ≤ known }
{
    let mut left = known;
    while left > 0 && marks[left - 1] as usize <= pos {
        left -= 1;
        marks[left] = 0;
    }
    left
}

/// Returns the offset of the last of the first `known` marks, or the length of the text if there is
/// none.
fn last_marked(lexer: &Lexer<'_>, marks: &[u32], known: usize) -> usize
    requires known { known ≤ length marks.now }
    requires marks { AreMarks lexer.now marks.now }
    ensures range { result ≤ length lexer.now.text }
    ensures end { (result ≡ length lexer.now.text) ⊎ UnclosedAt lexer.now result }
{
    if known > 0 && marks[known - 1] > 0 {
        marks[known - 1] as usize - 1
    } else {
        lexer.input().len()
    }
}

/// Returns `true` if an unclosed comment at `pos` is marked. If marks before `pos` had to be
/// removed, it first marks the unclosed comments from `pos` up to the last mark that is left.
pub fn is_marked(lexer: &Lexer<'_>, pos: usize, marks: &mut [u32]) -> bool
    requires { AreMarks lexer.now marks.old }
    ensures unclosed { IsTrue result → UnclosedAt lexer.now pos }
    ensures marks { AreMarks lexer.now marks.new }
{
    let text = lexer.input().as_bytes();
    if pos >= text.len() || !opens_at(text, pos) {
        return false;
    }
    let known = count(marks);
    let left = remove_passed(lexer, marks, known, pos);
    if left < known {
        let end = last_marked(lexer, marks, left);
        mark_between(lexer, pos, end, marks, left);
    }
    last_marked(lexer, marks, count(marks)) == pos
}

/// Marks the unclosed comment at `pos`, after which no other one is marked yet.
pub fn mark_first(lexer: &Lexer<'_>, pos: usize, marks: &mut [u32])
    requires unclosed { UnclosedAt lexer.now pos }
    requires marks { AreMarks lexer.now marks.old }
    ensures { AreMarks lexer.now marks.new }
{
    let end = lexer.input().len();
    let used = count(marks);
    mark_at(lexer, pos, pos, marks, used, end);
}
