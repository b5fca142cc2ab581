//! The output file of `types` and `module`.
ghost use Rattle.std.specs.Prelude.{◌≡◌, None, IfOk};

use std::alloc::AllocError;
use std::fs::File;
use std::io::Write;
use wat_tokens_run::ends::{Failed, Sink};

/// A file that is created, or emptied, before its first byte is written. It stays unchanged if no
/// byte is written.
#[derive(Drop)]
pub struct Target<'a> {
    rt: &'a HostRuntime,
    name: String,
    file: Option<File>,
    failure: Option<Failed>,
}

impl<'a> Target<'a> {
    /// Returns the target with this name. Allocates a copy of the name.
    pub fn new(rt: &'a HostRuntime, name: &str) -> Result<Target<'a>, AllocError>
        ensures { IfOk result (λ target. target.failure ≡ None) }
    {
        Ok(Target {
            rt,
            name: String::from_str(rt.alloc(), name)?,
            file: None,
            failure: None,
        })
    }
}

impl Sink for Target<'_> {
    ghost use Rattle.std.specs.Prelude.{None};

    ghost held = { λ _. None };

    ghost failure = { λ target. target.failure };

    fn write_all(&mut self, bytes: &[u8]) -> Result<(), Failed> {
        let written = write(self.rt, self.name.as_str(), &mut self.file, bytes);
        if let Err(failed) = written {
            self.failure = Some(failed);
        }
        written
    }

    fn failed(&self) -> bool {
        self.failure.is_some()
    }
}

/// Writes bytes to a file, which is created or emptied first if it is not yet open. Does nothing if
/// `bytes` is empty.
fn write(
    rt: &HostRuntime,
    name: &str,
    file: &mut Option<File>,
    bytes: &[u8],
) -> Result<(), Failed> {
    if bytes.is_empty() {
        return Ok(());
    }
    let mut opened = match file.take() {
        Some(opened) => opened,
        None => match File::create(rt, name) {
            Ok(opened) => opened,
            Err(error) => return Err(Failed::of(&error)),
        },
    };
    let written = opened.write_all(bytes);
    *file = Some(opened);
    match written {
        Ok(()) => Ok(()),
        Err(error) => Err(Failed::of(&error)),
    }
}
