//! The command `fmt` for files and folders.
use crate::folders::{Kind, kind_of, push_entries};
use crate::input::open;
use crate::patch::{Unwritten, write_patch};
use crate::report::{complain, name, not_opened, not_written, report};
use crate::rewrite::{rewrite, rewrite_named};
use std::fs;
use wat_tokens_output::input::read_whole;
use wat_tokens_run::Settings;
use wat_tokens_run::ends::Plain;
use wat_tokens_run::fmt::{Compared, run_compare, run_fmt};
use wat_tokens_run::options::Mode;
use wat_tokens_run::outcome::{Exit, Outcome};
use wat_tokens_run::run::RunFailure;

/// Writes the formatted text of a file to standard output, and returns the exit status.
fn print_formatted(rt: &HostRuntime, settings: Settings, file: &str) -> Exit {
    let mut input = match open(rt, file) {
        Ok(input) => input,
        Err(failed) => return report(rt, file, &Outcome::Unopened(failed)),
    };
    let mut output = Plain::new(rt.stdout());
    let run = run_fmt(rt.alloc(), &mut input, &mut output, settings);
    report(rt, file, &Outcome::of_run(run))
}

/// Compares the text of a file with its formatted text, prints the name of the file if they differ,
/// and returns the exit status.
fn check(rt: &HostRuntime, settings: Settings, file: &str) -> Exit {
    let mut input = match open(rt, file) {
        Ok(input) => input,
        Err(failed) => return report(rt, file, &Outcome::Unopened(failed)),
    };
    match run_compare(rt.alloc(), &mut input, settings) {
        Ok(Compared::Same) => Exit::idle(),
        Ok(Compared::Other(_) | Compared::Longer) => name(rt, file),
        Ok(Compared::Faulty(error)) => report(rt, file, &Outcome::Faulty(error)),
        Err(error) => report(rt, file, &Outcome::Refused(error)),
    }
}

/// Writes the unified diff from a text to its formatted text, and returns the exit status.
fn write_difference(rt: &HostRuntime, file: &str, text: &[u8], layout: &[u8]) -> Exit {
    let mut output = Plain::new(rt.stdout());
    match write_patch(rt.alloc(), file, text, layout, &mut output) {
        Ok(()) => Outcome::Differs.exit(true),
        Err(Unwritten::Failed(failed)) => not_written(rt, file, failed),
        Err(Unwritten::Memory(refused)) => {
            report(rt, file, &Outcome::Refused(RunFailure::from(refused)))
        }
    }
}

/// Compares the text of a file with its formatted text, writes the unified diff if they differ, and
/// returns the exit status.
fn show_difference(rt: &HostRuntime, settings: Settings, file: &str) -> Exit {
    let mut input = match open(rt, file) {
        Ok(input) => input,
        Err(failed) => return report(rt, file, &Outcome::Unopened(failed)),
    };
    let bytes = match read_whole(rt.alloc(), &mut input) {
        Ok(bytes) => bytes,
        Err(error) => return report(rt, file, &Outcome::Refused(error)),
    };
    match run_compare(rt.alloc(), &mut Plain::new(bytes.as_slice()), settings) {
        Ok(Compared::Same) => Exit::idle(),
        Ok(Compared::Faulty(error)) => report(rt, file, &Outcome::Faulty(error)),
        Ok(Compared::Other(text)) => write_difference(rt, file, &bytes, text.as_bytes()),
        Ok(Compared::Longer) => complain(rt, file, &"its layout is too long"),
        Err(error) => report(rt, file, &Outcome::Refused(error)),
    }
}

/// Runs `fmt` on a file in one of its modes, and returns the exit status. The name `-` is standard
/// input, except in `Mode::Write`, which does not follow a symbolic link either.
fn format_file(rt: &HostRuntime, settings: Settings, mode: Mode, file: &str) -> Exit {
    match mode {
        Mode::Print => print_formatted(rt, settings, file),
        Mode::Check => check(rt, settings, file),
        Mode::Diff => show_difference(rt, settings, file),
        Mode::Write => rewrite(rt, settings, file, file),
    }
}

/// Runs `fmt` on an entry of a folder, and returns the exit status. The entries of a subfolder are
/// pushed on the stack `left`.
fn format_entry(
    rt: &HostRuntime,
    settings: Settings,
    mode: Mode,
    entry: &str,
    left: &mut Vec<String>,
) -> Exit {
    match kind_of(rt, entry) {
        Ok(Kind::Folder) => push_entries(rt, entry, left),
        Ok(Kind::Text) => format_file(rt, settings, mode, entry),
        Ok(Kind::Other) => Exit::idle(),
        Err(error) => not_opened(rt, entry, &error),
    }
}

/// Runs `fmt` on each text below a folder, and returns the greatest exit status.
fn format_folder(rt: &HostRuntime, settings: Settings, mode: Mode, folder: &str) -> Exit {
    let mut left = Vec::new(rt.alloc());
    let mut worst = push_entries(rt, folder, &mut left);
    for _ in 0..u64::MAX {
        let Some(entry) = left.pop() else {
            break;
        };
        worst = worst.or(format_entry(rt, settings, mode, entry.as_str(), &mut left));
    }
    worst
}

/// Returns `true` if the name is that of a folder, or of a symbolic link to one.
fn is_folder(rt: &HostRuntime, file: &str) -> bool {
    match fs::metadata(rt, file) {
        Ok(metadata) => metadata.is_dir(),
        Err(_) => false,
    }
}

/// Runs `fmt` on a file, or on each text below a folder, and returns the greatest exit status. The
/// name `-` is standard input.
pub fn lay_out(rt: &HostRuntime, settings: Settings, mode: Mode, file: &str) -> Exit {
    if file != "-" && is_folder(rt, file) {
        return format_folder(rt, settings, mode, file);
    }
    if mode == Mode::Write {
        return rewrite_named(rt, settings, file);
    }
    format_file(rt, settings, mode, file)
}
