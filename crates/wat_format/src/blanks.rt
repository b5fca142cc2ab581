//! Writing of gaps: spaces and line ends.
ghost use Rattle.std.specs.Prelude.{◌≡◌, ◌≤◌, ◌++◌, OnOk};
ghost use Rattle.std.specs.Prelude.{string_bytes, replicate};
ghost use Rattle.wat_format.specs.Gaps.{gap_text};

use crate::gap::Gap;
use std::alloc::AllocError;

/// 80 spaces.
const BLANKS: &str =
    "                                                                                ";

/// Returns a string of `count` spaces, at most 80.
fn blanks(count: usize) -> &'static str
    requires { count ≤ 80 }
    ensures { result.now ≡ replicate count 32 }
{
    &BLANKS[..count]
}

/// Appends `count` spaces to `out`.
fn push_blanks(out: &mut String, count: usize) -> Result<(), AllocError>
    ensures { OnOk result (string_bytes out.new ≡ string_bytes out.old ++ replicate count 32) }
{
    let mut left = count;
    while left > 80 {
        out.push_str(blanks(80))?;
        left -= 80;
    }
    out.push_str(blanks(left))
}

/// Appends a gap to `out`. If the gap contains a line end, the next line is indented by 2 spaces
/// for each of its levels.
pub fn push_gap(out: &mut String, gap: Gap, level: u32) -> Result<(), AllocError>
    requires { level ≤ 50 }
    ensures { OnOk result (string_bytes out.new ≡ string_bytes out.old ++ gap_text gap level) }
{
    match gap {
        Gap::Touching => Ok(()),
        Gap::Blanks(count) => push_blanks(out, count),
        Gap::LineEnd => {
            out.push_str("\n")?;
            push_blanks(out, 2 * level as usize)
        }
        Gap::EmptyLine => {
            out.push_str("\n\n")?;
            push_blanks(out, 2 * level as usize)
        }
    }
}
