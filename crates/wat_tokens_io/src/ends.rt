//! Abstracts sources of input and sinks for output.
ghost use Rattle.std.specs.Prelude.{◌≡◌, ℕ, Bool, false, List, Option, None, IfOk, OnOk, OnErr};
ghost use Rattle.std.specs.Prelude.{is_some};
ghost use Rattle.std.specs.Io.KnownBytes.{Appends, Keeps};
ghost use Rattle.wat_tokens_io.specs.Streams.{ReadsInto, AppendsPrefix, failure_after, reached_end};
ghost use Rattle.wat_tokens_io.specs.Plain.{plain_inner, plain_failure, plain_ended};
ghost use Rattle.wat_tokens_io.specs.declared.failed.Failed.{Failed};

pub use crate::failed::Failed;
use crate::failed::taken;
use std::io;

/// A source of input.
pub trait Source {
    // The remaining bytes, if they are known.
    ghost left: { Self → Option (List ℕ) };

    // The failure of the last call that failed, if there is one.
    ghost failure: { Self → Option Failed };

    // `true` if the last read found the end of the input.
    ghost has_ended: { Self → Bool };

    /// Reads bytes into the buffer, and returns their number. If the buffer is not empty, 0 is
    /// returned only at the end of the input.
    ///
    /// # Errors
    ///
    /// Returns the failure of the read. No bytes of the input are consumed.
    fn read(&mut self, buffer: &mut [u8]) -> Result<usize, Failed>
        ensures bytes { IfOk result (ReadsInto (left self.old) (left self.new) buffer.new) }
        ensures unread { OnErr result (Keeps (left self.old) (left self.new)) }
        ensures failed { failure self.new ≡ failure_after (failure self.old) result }
        ensures ended { has_ended self.new ≡ reached_end result buffer.new };

    /// Returns `true` if a call has returned `Failed`.
    fn failed(&self) -> bool
        ensures { result ≡ is_some (failure self.now) };

    /// Returns `true` if the last read found the end of the input: its buffer was not empty, and it
    /// read no bytes.
    fn ended(&self) -> bool
        ensures { result ≡ has_ended self.now };
}

/// A sink for output.
pub trait Sink {
    // The bytes that were written, if they are known.
    ghost held: { Self → Option (List ℕ) };

    // The failure of the last call that failed, if there is one.
    ghost failure: { Self → Option Failed };

    /// Writes all the bytes.
    ///
    /// # Errors
    ///
    /// Returns the failure of the write, after a prefix of the bytes was written.
    fn write_all(&mut self, bytes: &[u8]) -> Result<(), Failed>
        ensures bytes { OnOk result (Appends (held self.old) (held self.new) bytes.now) }
        ensures cut { OnErr result (AppendsPrefix (held self.old) (held self.new) bytes.now) }
        ensures failed { failure self.new ≡ failure_after (failure self.old) result };

    /// Returns `true` if a call has returned `Failed`.
    fn failed(&self) -> bool
        ensures { result ≡ is_some (failure self.now) };
}

/// A source over a reader of the standard library, or a sink over a writer. Errors of the reader or
/// writer are returned as `Failed`; no call is retried.
#[derive(Drop)]
pub struct Plain<T> {
    /// The reader or writer.
    inner: T,
    /// The failure of the last call that failed, if there is one.
    failure: Option<Failed>,
    /// A flag that is set if the last read found the end of the input.
    ended: bool,
}

impl<T> Plain<T> {
    /// Creates a source over a reader, or a sink over a writer.
    pub fn new(inner: T) -> Plain<T>
        ensures inner { plain_inner result ≡ inner }
        ensures fresh { plain_failure result ≡ None }
        ensures unread { plain_ended result ≡ false }
    {
        Plain {
            inner,
            failure: None,
            ended: false,
        }
    }

    /// Returns the reader or writer.
    pub fn into_inner(self) -> T
        ensures { result ≡ plain_inner self }
    {
        let Plain { inner, .. } = self;
        inner
    }
}

impl<T: io::Read> Source for Plain<T> {
    ghost left = { λ p. T.remaining (plain_inner p) };

    ghost failure = { λ p. plain_failure p };

    ghost has_ended = { λ p. plain_ended p };

    fn read(&mut self, buffer: &mut [u8]) -> Result<usize, Failed> {
        self.ended = false;
        match self.inner.read(buffer) {
            Ok(count) => {
                self.ended = count == 0 && !buffer.is_empty();
                Ok(count)
            }
            Err(error) => {
                let failed = Failed::of(&error);
                self.failure = Some(failed);
                Err(failed)
            }
        }
    }

    fn failed(&self) -> bool {
        self.failure.is_some()
    }

    fn ended(&self) -> bool {
        self.ended
    }
}

impl<T: io::Write> Sink for Plain<T> {
    ghost held = { λ p. T.contents (plain_inner p) };

    ghost failure = { λ p. plain_failure p };

    fn write_all(&mut self, bytes: &[u8]) -> Result<(), Failed> {
        let written = write_through(&mut self.inner, bytes);
        if let Err(failed) = written {
            self.failure = Some(failed);
        }
        written
    }

    fn failed(&self) -> bool {
        self.failure.is_some()
    }
}

/// Writes all the bytes and flushes the writer. Stops at the first error, or if the writer consumes
/// no bytes.
fn write_through<W: io::Write>(writer: &mut W, bytes: &[u8]) -> Result<(), Failed>
    ensures bytes { OnOk result
        (Appends (W.contents writer.old) (W.contents writer.new) bytes.now) }
    ensures cut { OnErr result
        (AppendsPrefix (W.contents writer.old) (W.contents writer.new) bytes.now) }
{
    let mut written = 0;
    while written < bytes.len() {
        let count = taken(writer.write(&bytes[written..]))?;
        written += count;
    }
    match writer.flush() {
        Ok(()) => Ok(()),
        Err(error) => Err(Failed::of(&error)),
    }
}
