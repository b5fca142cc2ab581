//! Buffers output in a block of 64 KiB, which is written to the sink if the next bytes may not fit.
ghost use Rattle.std.specs.Prelude.{◌≡◌, ◌++◌, ◌+◌, ◌<◌, ◌≤◌, ◌^◌, ℕ, List, []};
ghost use Rattle.std.specs.Prelude.{length, take, codes, OnOk, OnErr};
ghost use Rattle.std.specs.Io.KnownBytes.{Appends};
ghost use Rattle.wat_tokens_io.specs.Blocks.{Puts};
ghost use Rattle.wat_tokens_io.specs.JsonRows.{json_tail, json_head};
ghost use Rattle.wat_tokens_io.specs.Lines.{line};
ghost use Rattle.wat_tokens_io.specs.Streams.{AppendsPrefix, failure_after};

use crate::ends::{Failed, Sink};
use crate::line::{Place, ROOM, put_line};
use crate::members::{put_head, put_tail};
use std::marker::Model;
use wat_lex::lexer::Token;

/// Capacity of a block, in bytes.
const BLOCK: usize = 65_536;

/// A buffer of up to 65,536 bytes that are not yet written to a sink.
#[derive(Drop)]
pub struct Block {
    /// The buffer.
    bytes: [u8; BLOCK],
    /// Number of buffered bytes, from the start of `bytes`.
    used: usize,
}

impl Model for Block {
    ghost Value = { List ℕ };

    ghost view = { λ b. take b.used b.bytes };

    ghost invariant = { λ b. b.used ≤ 65536 };
}

impl Block {
    /// Creates an empty block.
    pub fn new() -> Block
        ensures { result ≡ [] }
    {
        Block {
            bytes: [0; BLOCK],
            used: 0,
        }
    }

    /// Writes the buffered bytes to the sink and empties the block.
    ///
    /// # Errors
    ///
    /// Returns the failure of the sink, after a prefix of the bytes was written.
    #[inline(never)]
    pub fn write<W: Sink>(&mut self, output: &mut W) -> Result<(), Failed>
        ensures written { OnOk result (Appends (W.held output.old) (W.held output.new) self.old) }
        ensures empty { OnOk result (self.new ≡ []) }
        ensures cut { OnErr result
            (AppendsPrefix (W.held output.old) (W.held output.new) self.old) }
        ensures failed { W.failure output.new ≡ failure_after (W.failure output.old) result }
    {
        output.write_all(&self.bytes[..self.used])?;
        self.used = 0;
        Ok(())
    }

    /// Writes the block to the sink if fewer than `count` bytes are free in it.
    #[inline(always)]
    pub(crate) fn ensure_capacity<W: Sink>(
        &mut self,
        output: &mut W,
        count: usize,
    ) -> Result<(), Failed>
        requires { count ≤ 65536 }
        ensures put { OnOk result
            (Puts (W.held output.old) (W.held output.new) self.old self.new []) }
        ensures room { OnOk result (length self.new + count ≤ 65536) }
        ensures cut { OnErr result
            (AppendsPrefix (W.held output.old) (W.held output.new) self.old) }
        ensures failed { W.failure output.new ≡ failure_after (W.failure output.old) result }
    {
        if count <= BLOCK - self.used {
            return Ok(());
        }
        self.write(output)
    }

    /// Appends bytes, for which capacity must be left. A single byte is stored without a call.
    #[inline(always)]
    fn push(&mut self, bytes: &[u8])
        requires { length self.old + length bytes.now ≤ 65536 }
        ensures { self.new ≡ self.old ++ bytes.now }
    {
        let end = self.used + bytes.len();
        if bytes.len() == 1 {
            self.bytes[self.used] = bytes[0];
        } else {
            self.bytes[self.used..end].copy_from_slice(bytes);
        }
        self.used = end;
    }

    /// Appends a token's line. At least 38 bytes must be free.
    #[inline(always)]
    fn push_line(&mut self, place: &mut Place, token: &Token)
        requires room { length self.old + 38 ≤ 65536 }
        requires short { token.now.offset + token.now.len < 2 ^ 32 }
        ensures { self.new ≡ self.old ++ line token.now }
    {
        self.used += put_line(&mut self.bytes[self.used..], place, token);
    }

    /// Appends the members of a token's JSON object before its text, without the start of the line,
    /// and the quotation mark that opens the text. At least 96 bytes must be free.
    #[inline(always)]
    pub(crate) fn push_head(&mut self, place: &mut Place, token: &Token)
        requires room { length self.old + 96 ≤ 65536 }
        requires short { token.now.offset + token.now.len < 2 ^ 32 }
        ensures { self.new ≡ self.old ++ (json_head token.now ++ codes "\"") }
    {
        self.used += put_head(&mut self.bytes[self.used..], place, token);
    }

    /// Appends the quotation mark that closes a token's text, and the members of its JSON object
    /// after the text. `line` and `column` count from 0. At least 96 bytes must be free.
    #[inline(always)]
    pub(crate) fn push_tail(&mut self, place: &mut Place, line: usize, column: usize)
        requires room { length self.old + 96 ≤ 65536 }
        requires line { line < 2 ^ 32 }
        requires column { column < 2 ^ 32 }
        ensures { self.new ≡ self.old ++ (codes "\"" ++ json_tail (line, column)) }
    {
        self.used += put_tail(&mut self.bytes[self.used..], place, line, column);
    }

    /// Appends bytes. Writes the block to the sink first if the bytes do not fit; bytes that are
    /// longer than a block are written directly after it.
    ///
    /// # Errors
    ///
    /// Returns the failure of the sink, after a prefix of the block and `bytes` was written.
    #[inline(always)]
    pub fn put<W: Sink>(&mut self, output: &mut W, bytes: &[u8]) -> Result<(), Failed>
        ensures put { OnOk result
            (Puts (W.held output.old) (W.held output.new) self.old self.new bytes.now) }
        ensures cut { OnErr result
            (AppendsPrefix (W.held output.old) (W.held output.new) (self.old ++ bytes.now)) }
        ensures failed { W.failure output.new ≡ failure_after (W.failure output.old) result }
    {
        if bytes.len() > BLOCK {
            self.write(output)?;
            return output.write_all(bytes);
        }
        self.ensure_capacity(output, bytes.len())?;
        self.push(bytes);
        Ok(())
    }

    /// Appends a token's line. Writes the block to the sink first if the line may not fit.
    ///
    /// # Errors
    ///
    /// Returns the failure of the sink, after a prefix of the block was written.
    #[inline(always)]
    pub fn put_line<W: Sink>(
        &mut self,
        output: &mut W,
        place: &mut Place,
        token: &Token,
    ) -> Result<(), Failed>
        requires { token.now.offset + token.now.len < 2 ^ 32 }
        ensures put { OnOk result
            (Puts (W.held output.old) (W.held output.new) self.old self.new (line token.now)) }
        ensures cut { OnErr result
            (AppendsPrefix (W.held output.old) (W.held output.new) (self.old ++ line token.now)) }
        ensures failed { W.failure output.new ≡ failure_after (W.failure output.old) result }
    {
        self.ensure_capacity(output, ROOM)?;
        self.push_line(place, token);
        Ok(())
    }
}
