//! The program `wat_tokens`: lists the tokens of WebAssembly texts from files or standard input,
//! formats the texts, or compiles them.
#![tactic(auto)]

mod diff;
mod folders;
mod input;
mod kept;
mod layout;
mod original;
mod patch;
mod replace;
mod report;
mod rewrite;
mod target;

use input::{Input, open};
use layout::lay_out;
use std::alloc::AllocError;
use std::io::IsTerminal;
use std::process::ExitCode;
use std::{env, fs, io};
use target::Target;
use wat_tokens_run::Settings;
use wat_tokens_run::complaint::Complaint;
use wat_tokens_run::ends::{Failed, Plain};
use wat_tokens_run::options::Mode;
use wat_tokens_run::outcome::{Exit, Outcome};
use wat_tokens_run::respond::{Inputs, respond};
use wat_tokens_run::run::RunFailure;

/// The files and the standard output of the host.
#[derive(Drop)]
struct Files<'a>(&'a HostRuntime);

impl<'a> Inputs for Files<'a> {
    ghost use Rattle.std.specs.Prelude.{None};

    type Input = Plain<Input>;

    type Output = Target<'a>;

    ghost found = { λ _ _. None };

    ghost there = { λ _ _. None };

    ghost shown = { λ _. None };

    ghost writes = { λ _ _ _. Unit {0} };

    ghost opened = { λ _ _ _. Unit {0} };

    ghost laid_out = { λ _ _ _ _ _ _. Unit {0} };

    fn is_there(&self, file: &str) -> bool {
        fs::metadata(self.0, file).is_ok()
    }

    fn is_shown(&self) -> bool {
        self.0.stdout().is_terminal()
    }

    fn create(&self, file: &str) -> Result<Target<'a>, AllocError> {
        Target::new(self.0, file)
    }

    fn open(&mut self, file: &str) -> Result<Plain<Input>, Failed> {
        open(self.0, file)
    }

    fn lay_out(&mut self, settings: Settings, mode: Mode, file: &str) -> Exit {
        lay_out(self.0, settings, mode, file)
    }
}

/// Returns the command-line arguments after the program name.
fn words(rt: &HostRuntime) -> io::Result<Vec<String>> {
    let mut words = Vec::new(rt.alloc());
    for word in env::args(rt)?.skip(1) {
        words.push(word)?;
    }
    Ok(words)
}

/// Returns the outcome for a command line that can't be read. The standard library keeps only the
/// kind of an error, so an allocation failure is recognized by its kind.
fn not_read(error: &io::Error) -> Outcome<'static> {
    match error.kind() {
        io::ErrorKind::OutOfMemory => Outcome::Refused(RunFailure::from(AllocError)),
        _ => Outcome::Wrong(Complaint::Usage),
    }
}

/// Executes the command line with standard output as the output, and returns the exit status.
fn answer(rt: &HostRuntime) -> Exit {
    let words = match words(rt) {
        Ok(words) => words,
        Err(error) => {
            let outcome = not_read(&error);
            let _ = outcome.report(None, &mut rt.stderr());
            return outcome.exit(false);
        }
    };
    let mut output = Plain::new(rt.stdout());
    respond(
        rt.alloc(),
        &words,
        &mut Files(rt),
        &mut output,
        &mut rt.stderr(),
    )
}

fn main(rt: HostRuntime) -> ExitCode {
    ExitCode::from(answer(&rt).code())
}
