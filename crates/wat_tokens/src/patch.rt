//! Unified diff from a text to its formatted text.
use crate::diff::{Change, Place, Stretch, changes};
use crate::report::Named;
use std::alloc::{AllocError, Global};
use std::fmt;
use wat_tokens_io::block::Block;
use wat_tokens_run::ends::{Failed, Sink};

/// The number of unchanged lines before and after each change.
const CONTEXT: usize = 3;

/// The marker after a last line without a line feed.
const NO_END: &[u8] = b"\n\\ No newline at end of file\n";

/// The reason that a diff is incomplete.
#[derive(Clone, Copy, Debug, PartialEq, Eq)]
pub enum Unwritten {
    /// A write failed.
    Failed(Failed),
    /// An allocation failed.
    Memory(AllocError),
}

impl From<Failed> for Unwritten {
    fn from(failed: Failed) -> Unwritten {
        Unwritten::Failed(failed)
    }
}

impl From<AllocError> for Unwritten {
    fn from(refused: AllocError) -> Unwritten {
        Unwritten::Memory(refused)
    }
}

impl Stretch {
    /// Returns the number of lines.
    fn len(&self) -> usize {
        self.to.lines.saturating_sub(self.from.lines)
    }

    /// Returns the lines as bytes of `text`.
    fn of<'a>(&self, text: &'a [u8]) -> &'a [u8] {
        text.get(self.from.bytes..self.to.bytes).unwrap_or(&[])
    }

    /// Returns the lines together with the context before and after them.
    fn with_context(&self, text: &[u8]) -> Stretch {
        Stretch {
            from: lines_up(text, self.from, CONTEXT),
            to: lines_down(text, self.to, CONTEXT),
        }
    }
}

/// Displays the range of a hunk header: the first line and, unless it is 1, the number of lines. A
/// range of no lines is displayed as the number of the line before it and 0.
impl fmt::Display for Stretch {
    fn fmt<W: fmt::Write>(&self, f: &mut fmt::Formatter<W>) -> fmt::Result {
        let first = self.from.lines.saturating_add(1);
        match self.len() {
            0 => write!(f, "{},0", self.from.lines),
            1 => write!(f, "{first}"),
            len => write!(f, "{first},{len}"),
        }
    }
}

/// Returns the position one line up.
fn line_up(text: &[u8], place: Place) -> Place {
    let end = place.bytes.saturating_sub(1);
    let above = text.get(..end).unwrap_or(&[]);
    let bytes = match above.iter().rposition(|byte| *byte == b'\n') {
        Some(end) => end + 1,
        None => 0,
    };
    let lines = place.lines.saturating_sub(1);
    Place { bytes, lines }
}

/// Returns the position `count` lines up, or the start of the text.
fn lines_up(text: &[u8], place: Place, count: usize) -> Place {
    let mut place = place;
    for _ in 0..count {
        place = line_up(text, place);
    }
    place
}

/// Returns the position `count` lines down, or the end of the text.
fn lines_down(text: &[u8], place: Place, count: usize) -> Place {
    let rest = text.get(place.bytes..).unwrap_or(&[]);
    let mut place = place;
    for line in rest.split_inclusive(|byte| *byte == b'\n').take(count) {
        place.bytes = place.bytes.saturating_add(line.len());
        place.lines = place.lines.saturating_add(1);
    }
    place
}

/// Returns `true` if two changes belong to one hunk, because their contexts touch or overlap.
fn are_near(change: &Change, next: &Change) -> bool {
    Stretch::new(change.old.to, next.old.from).len() <= 2 * CONTEXT
}

/// A diff that is being written.
#[derive(Drop)]
struct Patch<'a> {
    text: &'a [u8],
    layout: &'a [u8],
    block: Block,
}

impl Patch<'_> {
    /// Writes lines, each after the mark.
    fn put_lines<W: Sink>(
        &mut self,
        output: &mut W,
        mark: &[u8],
        lines: &[u8],
    ) -> Result<(), Failed> {
        for line in lines.split_inclusive(|byte| *byte == b'\n') {
            self.block.put(output, mark)?;
            self.block.put(output, line)?;
            if !line.ends_with(b"\n") {
                self.block.put(output, NO_END)?;
            }
        }
        Ok(())
    }

    /// Writes the unchanged lines `above` a change, and the change.
    fn put_change<W: Sink>(
        &mut self,
        output: &mut W,
        above: Stretch,
        change: &Change,
    ) -> Result<(), Failed> {
        self.put_lines(output, b" ", above.of(self.text))?;
        self.put_lines(output, b"-", change.old.of(self.text))?;
        self.put_lines(output, b"+", change.new.of(self.layout))
    }

    /// Writes a hunk: its header, changes that are near each other, and the context around them.
    fn put_hunk<W: Sink>(
        &mut self,
        alloc: Global,
        output: &mut W,
        changes: &[Change],
    ) -> Result<(), Unwritten> {
        let (Some(first), Some(last)) = (changes.first(), changes.last()) else {
            return Ok(());
        };
        let old = Stretch::new(first.old.from, last.old.to).with_context(self.text);
        let new = Stretch::new(first.new.from, last.new.to).with_context(self.layout);
        let head = format!(in alloc; "@@ -{old} +{new} @@\n")?;
        self.block.put(output, head.as_bytes())?;
        let mut at = old.from;
        for change in changes {
            self.put_change(output, Stretch::new(at, change.old.from), change)?;
            at = change.old.to;
        }
        self.put_lines(output, b" ", Stretch::new(at, old.to).of(self.text))?;
        Ok(())
    }
}

/// Returns the file header: the lines with the names of both texts.
fn names(alloc: Global, file: &str) -> Result<String, AllocError> {
    // Readers of diffs accept a name that contains a space only if a tab ends it.
    let end = if file.contains(' ') { "\t" } else { "" };
    let name = Named(file);
    format!(in alloc; "--- {name}{end}\n+++ {name}{end}\n")
}

/// Writes the unified diff from the text of a file to its formatted text. If the two are equal,
/// writes only the file header.
///
/// # Errors
///
/// Fails if a write or an allocation fails; a prefix of the diff may have been written.
pub fn write_patch<'a, W: Sink>(
    alloc: Global,
    file: &str,
    text: &'a [u8],
    layout: &'a [u8],
    output: &mut W,
) -> Result<(), Unwritten> {
    let changes = changes(alloc, text, layout)?;
    let names = names(alloc, file)?;
    let mut patch = Patch {
        text,
        layout,
        block: Block::new(),
    };
    patch.block.put(output, names.as_bytes())?;
    for hunk in changes.chunk_by(|change, next| are_near(change, next)) {
        patch.put_hunk(alloc, output, hunk)?;
    }
    patch.block.write(output)?;
    Ok(())
}
