//! The reasons for which `fmt --write` leaves a file unchanged.
use crate::report::Failure;
use std::alloc::AllocError;
use std::{fmt, io};
use wat_tokens_run::named::Shown;

/// The reason that a file was not replaced.
#[derive(Drop)]
pub enum Kept {
    /// The file can't be opened.
    Unopened(io::Error),
    /// The file is a FIFO, a device, a socket or a directory.
    Special,
    /// The file is read-only.
    ReadOnly,
    /// A temporary file with this name exists already.
    Busy(String),
    /// The temporary file with this name can't be created.
    NotCreated(String, io::Error),
    /// The owner or the group of the file can't be given to the temporary file.
    Owner,
    /// The file was changed, replaced or removed after it was opened.
    Changed,
    /// A system call or an allocation failed.
    Unwritten(io::Error),
}

impl From<AllocError> for Kept {
    fn from(refused: AllocError) -> Kept {
        Kept::Unwritten(io::Error::from(refused))
    }
}

impl From<io::Error> for Kept {
    fn from(error: io::Error) -> Kept {
        Kept::Unwritten(error)
    }
}

impl fmt::Display for Kept {
    fn fmt<W: fmt::Write>(&self, f: &mut fmt::Formatter<W>) -> fmt::Result {
        match self {
            Kept::Unopened(error) => write!(f, "{}", Failure("open", error)),
            Kept::Special => write!(f, "not a regular file, left as it is"),
            Kept::ReadOnly => write!(f, "read-only, left as it is"),
            Kept::Busy(name) => write!(
                f,
                "{} is there already: remove it, or another run is at work",
                Shown(name)
            ),
            Kept::NotCreated(name, error) => write!(
                f,
                "{}: {}",
                Shown(name),
                Failure("open", error)
            ),
            Kept::Owner => write!(f, "its owner or group cannot be kept, left as it is"),
            Kept::Changed => write!(f, "changed or removed meanwhile, left as it is"),
            Kept::Unwritten(error) => write!(f, "{}", Failure("write", error)),
        }
    }
}
