//! Traversal of folders for `fmt`.
use crate::report::{Failure, complain, not_opened, report};
use std::alloc::AllocError;
use std::fs::ReadDir;
use std::{fs, io};
use wat_tokens_run::outcome::{Exit, Outcome};
use wat_tokens_run::run::RunFailure;

/// The kind of an entry of a folder.
#[derive(Clone, Copy, PartialEq, Eq)]
pub enum Kind {
    /// A folder, but not a symbolic link to one.
    Folder,
    /// A regular file with the extension `.wat` or `.wast`.
    Text,
    /// Any other entry, which `fmt` ignores. A symbolic link is one, so that no file outside the
    /// folder is read or replaced.
    Other,
}

/// Returns `true` if the name ends with `.wat` or `.wast`.
fn is_text_name(name: &str) -> bool {
    name.ends_with(".wat") || name.ends_with(".wast")
}

/// Returns the kind of an entry.
pub fn kind_of(rt: &HostRuntime, entry: &str) -> io::Result<Kind> {
    let metadata = fs::symlink_metadata(rt, entry)?;
    if metadata.is_dir() {
        Ok(Kind::Folder)
    } else if metadata.is_file() && is_text_name(entry) {
        Ok(Kind::Text)
    } else {
        Ok(Kind::Other)
    }
}

/// Reports an entry of a folder that can't be read, and returns the exit status.
fn not_listed(rt: &HostRuntime, folder: &str, error: &io::Error) -> Exit {
    if error.kind() == io::ErrorKind::InvalidFilename {
        return complain(rt, folder, &"a name in it is not UTF-8");
    }
    complain(rt, folder, &Failure("read", error))
}

/// Appends the paths of the readable entries of a folder to `entries`, reports the other entries,
/// and returns the exit status.
fn gather(
    rt: &HostRuntime,
    folder: &str,
    listing: ReadDir,
    entries: &mut Vec<String>,
) -> Result<Exit, AllocError> {
    let mut status = Exit::idle();
    for entry in listing {
        match entry {
            Ok(entry) => entries.push(String::from_str(rt.alloc(), entry.path().as_str())?)?,
            Err(error) => status = not_listed(rt, folder, &error),
        }
    }
    Ok(status)
}

/// Pushes the entries of a folder on the stack `left`, in descending order of their names, and
/// returns the exit status. Fails if an allocation fails.
fn try_push(
    rt: &HostRuntime,
    folder: &str,
    listing: ReadDir,
    left: &mut Vec<String>,
) -> Result<Exit, AllocError> {
    let mut entries = Vec::new(rt.alloc());
    let status = gather(rt, folder, listing, &mut entries)?;
    entries.sort_unstable();
    for entry in entries.into_iter().rev() {
        left.push(entry)?;
    }
    Ok(status)
}

/// Pushes the entries of a folder on the stack `left`, in descending order of their names, so that
/// the first is popped first. Reports every error and returns the exit status.
pub fn push_entries(rt: &HostRuntime, folder: &str, left: &mut Vec<String>) -> Exit {
    let listing = match fs::read_dir(rt, folder) {
        Ok(listing) => listing,
        Err(error) => return not_opened(rt, folder, &error),
    };
    match try_push(rt, folder, listing, left) {
        Ok(status) => status,
        Err(refused) => report(rt, folder, &Outcome::Refused(RunFailure::from(refused))),
    }
}
