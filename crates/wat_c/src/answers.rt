//! Results of readers, and their copies into a buffer of the caller. The fields of `Answer` and of
//! `Checked` are private, so that only this module constructs them, and so that they report an
//! allocation failure only if there was an `AllocError`.
ghost use Rattle.std.specs.Prelude.{◌≡◌, length, Ok, Err};
ghost use Rattle.wat_c.specs.Answers.{answer_of, left_of, put, status_of};
ghost use Rattle.wat_c.specs.Compiling.{checked_of};

use std::alloc::AllocError;
use wat_c_records::rows::fault_code;
use wat_lex::lexer::LexError;

/// Result of a function that writes bytes to a buffer: the length of the result, and a status.
#[repr(C)]
#[derive(Clone, Copy, Debug, PartialEq)]
pub struct Answer {
    /// Length of the result in bytes. If it is greater than the length of the buffer, nothing was
    /// written. It is 0 if `status` is not 0.
    needed: usize,
    /// 0 if there is a result, even if the buffer is too small. Otherwise 1 if the token or error
    /// to read is not there, the text is not a module, or the formatted text is too long, 2 after
    /// an allocation failure, 3 if the number lacks the part or the name is valid, or the code of a
    /// lexical error or of the error in a name.
    status: u32,
}

/// Result of `wat_check`: the error of a text, and the status of its message.
#[repr(C)]
#[derive(Clone, Copy, Debug, PartialEq)]
pub struct Checked {
    /// Byte offset of the error. It is 0 if `status` is not 0.
    offset: usize,
    /// Length in bytes of the token at `offset`. It is 0 if no token begins there, and for a
    /// lexical error.
    len: usize,
    /// Length of the message in bytes. If it is greater than the length of the buffer, nothing was
    /// written. It is 0 if `status` is not 0.
    needed: usize,
    /// 0 if the text has an error, even if the buffer is too small. Otherwise 3 if it has none, or
    /// 2 after an allocation failure.
    status: u32,
}

impl Checked {
    /// Returns the result for an error at `offset` of `len` bytes, whose message was written with
    /// the result `message`.
    pub(crate) fn at(offset: usize, len: usize, message: Answer) -> Checked
        ensures { result ≡ record {
          offset = offset;
          len = len;
          needed = message.needed;
          status = message.status;
        } }
    {
        Checked {
            offset,
            len,
            needed: message.needed,
            status: message.status,
        }
    }

    /// Returns the result without an error, for this reason.
    pub(crate) fn without(reason: Refusal) -> Checked
        ensures { result ≡ checked_of (Err reason) }
    {
        Checked::at(0, 0, reason.answer())
    }
}

impl Answer {
    /// Returns the successful result of this length.
    pub(crate) fn of_len(needed: usize) -> Answer
        ensures { result ≡ record { needed = needed; status = 0 } }
    {
        Answer { needed, status: 0 }
    }
}

/// Reason why a reader has no result.
#[derive(Clone, Copy, Debug, PartialEq)]
pub enum Refusal {
    /// The token or the error to read is not there, the text is not a module, or the formatted text
    /// is too long.
    Other,
    /// An allocation failure.
    Memory(AllocError),
    /// The number lacks the part, or the name or the text is valid.
    Absent,
    /// The name is invalid, or the text has a lexical error.
    Fault(LexError),
}

impl Refusal {
    /// Returns the status of this reason.
    fn status(self) -> u32
        ensures { result ≡ status_of self }
    {
        match self {
            Refusal::Other => 1,
            Refusal::Memory(_) => 2,
            Refusal::Absent => 3,
            Refusal::Fault(error) => fault_code(error),
        }
    }

    /// Returns the result of the reader: the length 0, and the status of this reason.
    pub fn answer(self) -> Answer
        ensures { result ≡ answer_of (Err self) }
    {
        Answer {
            needed: 0,
            status: self.status(),
        }
    }
}

/// Copies the bytes to the front of `out` if they fit, and returns their number. If they do not
/// fit, `out` is unchanged.
pub fn give(bytes: &[u8], out: &mut [u8]) -> Answer
    ensures known { result ≡ answer_of (Ok bytes.now) }
    ensures left { out.new ≡ left_of out.old (Ok bytes.now) }
{
    let needed = bytes.len();
    if needed <= out.len() {
        out[..needed].copy_from_slice(bytes);
    }
    Answer::of_len(needed)
}
