//! Prints a value to a writer in blocks of up to 4,096 bytes, without an allocation.
ghost use Rattle.std.specs.Prelude.{◌≡◌, ◌++◌, ◌+◌, ◌≤◌, ℕ, List, [], length, take, OnOk};
ghost use Rattle.std.specs.Prelude.{IfSome, IsOk};
ghost use Rattle.std.specs.Io.KnownBytes.{Appends, Keeps, append_known};

use std::fmt::Write;
use std::marker::Model;
use std::{fmt, io};

/// Capacity of a buffer, in bytes.
const BLOCK: usize = 4096;

/// A buffer of up to 4,096 bytes that are not yet written.
#[derive(Drop)]
struct Buffer {
    /// The buffer.
    bytes: [u8; BLOCK],
    /// Number of buffered bytes, from the start of `bytes`.
    used: usize,
}

impl Model for Buffer {
    ghost Value = { List ℕ };

    ghost view = { λ b. take b.used b.bytes };

    ghost invariant = { λ b. b.used ≤ 4096 };
}

impl Buffer {
    /// Creates an empty buffer.
    fn new() -> Buffer
        ensures { result ≡ [] }
    {
        Buffer {
            bytes: [0; BLOCK],
            used: 0,
        }
    }

    /// Returns the number of free bytes.
    fn free(&self) -> usize
        ensures { result + length self.now ≡ 4096 }
    {
        BLOCK - self.used
    }

    /// Returns the buffered bytes.
    fn as_slice(&self) -> &[u8]
        ensures { result.now ≡ self.now }
    {
        &self.bytes[..self.used]
    }

    /// Removes the buffered bytes.
    fn clear(&mut self)
        ensures { self.new ≡ [] }
    {
        self.used = 0;
    }

    /// Appends bytes, for which capacity must be left.
    fn push(&mut self, bytes: &[u8])
        requires { length self.old + length bytes.now ≤ 4096 }
        ensures { self.new ≡ self.old ++ bytes.now }
    {
        let end = self.used + bytes.len();
        self.bytes[self.used..end].copy_from_slice(bytes);
        self.used = end;
    }
}

/// A destination of formatted text: buffers the text and writes it in blocks.
#[derive(Drop)]
struct Printer<'a, W> {
    /// The writer of the blocks.
    output: &'a mut W,
    /// The text that is not yet written.
    buffer: Buffer,
    /// The error of the write that failed, if there is one.
    error: Option<io::Error>,
}

impl<W: io::Write> Printer<'_, W> {
    /// Writes the buffered bytes and empties the buffer.
    fn flush(&mut self) -> io::Result<()>
        ensures same { self.new.output.ghost_name ≡ self.old.output.ghost_name }
        ensures written { OnOk result (Keeps
            (append_known (W.contents self.old.output.now) self.old.buffer)
            (W.contents self.new.output.now)) }
        ensures empty { OnOk result (self.new.buffer ≡ []) }
    {
        self.output.write_all(self.buffer.as_slice())?;
        self.buffer.clear();
        Ok(())
    }

    /// Appends bytes. Writes the buffered bytes first if the new ones do not fit; bytes that are
    /// longer than a block are written directly after them.
    fn put(&mut self, bytes: &[u8]) -> io::Result<()>
        ensures same { self.new.output.ghost_name ≡ self.old.output.ghost_name }
        ensures put { OnOk result (Appends
            (append_known (W.contents self.old.output.now) self.old.buffer)
            (append_known (W.contents self.new.output.now) self.new.buffer) bytes.now) }
    {
        if bytes.len() > self.buffer.free() {
            self.flush()?;
        }
        if bytes.len() > BLOCK {
            return self.output.write_all(bytes);
        }
        self.buffer.push(bytes);
        Ok(())
    }

    /// Writes the buffered bytes if the whole text was printed, and otherwise returns the error of
    /// the write that failed. If none failed, returns an error of the kind `Other`.
    fn finish(&mut self, printed: fmt::Result) -> io::Result<()>
        ensures same { self.new.output.ghost_name ≡ self.old.output.ghost_name }
        ensures printed { OnOk result (IsOk printed) }
        ensures written { OnOk result (Keeps
            (append_known (W.contents self.old.output.now) self.old.buffer)
            (W.contents self.new.output.now)) }
    {
        if printed.is_ok() {
            return self.flush();
        }
        match self.error.take() {
            Some(error) => Err(error),
            None => Err(io::Error::from(io::ErrorKind::Other)),
        }
    }
}

impl<W: io::Write> fmt::Write for Printer<'_, W> {
    ghost write_str_gives = { λ s bs t. (t.output.ghost_name ≡ s.output.ghost_name)
        × Appends (append_known (W.contents s.output.now) s.buffer)
        (append_known (W.contents t.output.now) t.buffer) bs };

    fn write_str(&mut self, text: &str) -> fmt::Result {
        match self.put(text.as_bytes()) {
            Ok(()) => Ok(()),
            Err(error) => {
                self.error = Some(error);
                Err(fmt::Error)
            }
        }
    }
}

/// Prints a value to a writer, in blocks of up to 4,096 bytes. A part of the text that is longer is
/// written in one call. Does not allocate.
///
/// # Errors
///
/// Returns the error of the write that failed, after a prefix of the text was written.
pub fn print<W: io::Write, D: fmt::Display + Drop>(output: &mut W, value: D) -> io::Result<()>
    ensures { OnOk result (IfSome (D.output value)
        (Appends (W.contents output.old) (W.contents output.new))) }
{
    let mut printer = Printer {
        output,
        buffer: Buffer::new(),
        error: None,
    };
    let printed = write!(printer, "{value}");
    let result = printer.finish(printed);
    let Printer { output, .. } = printer;
    // Needed only by the proof: it shows which bytes the writer holds at the end.
    let _ = &*output;
    result
}
