//! Reports of `fmt`.
use std::{fmt, io};
use wat_tokens_run::ends::Failed;
use wat_tokens_run::named::Shown;
use wat_tokens_run::outcome::{Exit, Outcome};
use wat_tokens_run::printer::print;
use wat_tokens_run::respond::name_of;
use wat_tokens_run::run::RunFailure;

/// The name of a file, displayed as in reports and lists.
#[derive(Clone, Copy)]
pub struct Named<'a>(pub &'a str);

impl fmt::Display for Named<'_> {
    fn fmt<W: fmt::Write>(&self, f: &mut fmt::Formatter<W>) -> fmt::Result {
        write!(f, "{}", Shown(name_of(self.0)))
    }
}

/// A failed system call: its name and its error.
#[derive(Clone, Copy)]
pub struct Failure<'a>(pub &'static str, pub &'a io::Error);

impl fmt::Display for Failure<'_> {
    fn fmt<W: fmt::Write>(&self, f: &mut fmt::Formatter<W>) -> fmt::Result {
        match self.1.kind() {
            io::ErrorKind::OutOfMemory => write!(f, "out of memory"),
            _ => write!(f, "{} failed{}", self.0, Failed::of(self.1)),
        }
    }
}

/// Reports an outcome for a file, and returns the exit status.
pub fn report(rt: &HostRuntime, file: &str, outcome: &Outcome<'_>) -> Exit {
    let _ = outcome.report(Some(name_of(file)), &mut rt.stderr());
    outcome.exit(true)
}

/// Reports a message that no outcome has, and returns the exit status 2.
pub fn complain<D: fmt::Display>(rt: &HostRuntime, file: &str, what: &D) -> Exit {
    let name = Named(file);
    let _ = print(
        &mut rt.stderr(),
        format_args!("wat_tokens: {name}: {what}\n"),
    );
    Outcome::Kept.exit(true)
}

/// Reports that standard output can't be written, and returns the exit status.
pub fn not_written(rt: &HostRuntime, file: &str, failed: Failed) -> Exit {
    report(rt, file, &Outcome::Refused(RunFailure::Write(failed)))
}

/// Reports that a file or folder can't be opened, and returns the exit status.
pub fn not_opened(rt: &HostRuntime, file: &str, error: &io::Error) -> Exit {
    complain(rt, file, &Failure("open", error))
}

/// Prints the name of a file that is not formatted, and returns the exit status.
pub fn name(rt: &HostRuntime, file: &str) -> Exit {
    let name = Named(file);
    match print(&mut rt.stdout(), format_args!("{name}\n")) {
        Ok(()) => Outcome::Differs.exit(true),
        Err(error) => not_written(rt, file, Failed::of(&error)),
    }
}
