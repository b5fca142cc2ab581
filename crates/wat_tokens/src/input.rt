//! Sources of texts: files and standard input.
ghost use Rattle.std.specs.Prelude.{◌≡◌, None, IfOk};
ghost use Rattle.wat_tokens_io.specs.Plain.{plain_failure};

use std::fs::File;
use std::io;
use std::rt::Stdin;
use wat_tokens_run::ends::{Failed, Plain};

/// Standard input or an open file.
#[derive(Drop)]
pub enum Input {
    Standard(Stdin),
    File(File),
}

impl io::Read for Input {
    fn read(&mut self, buffer: &mut [u8]) -> io::Result<usize> {
        match self {
            Input::Standard(input) => input.read(buffer),
            Input::File(file) => file.read(buffer),
        }
    }
}

/// Opens a file for reading. The name `-` is standard input.
pub fn open(rt: &HostRuntime, file: &str) -> Result<Plain<Input>, Failed>
    ensures { IfOk result (λ input. plain_failure input ≡ None) }
{
    if file == "-" {
        return Ok(Plain::new(Input::Standard(rt.stdin())));
    }
    match File::open(rt, file) {
        Ok(file) => Ok(Plain::new(Input::File(file))),
        Err(error) => Err(Failed::of(&error)),
    }
}
