//! Results of a peek into rows. The fields of `Look` are private, so that only this module
//! constructs it, and so that it reports an allocation failure only if there was an `AllocError`.
ghost use Rattle.std.specs.Prelude.{◌≡◌, ◌<◌, ◌^◌};
ghost use Rattle.wat_c_records.specs.Looks.{look_row};
ghost use Rattle.wat_c_records.specs.inside.Naming.{IsWithin};

use std::alloc::AllocError;

/// Reason why no row is visible.
#[derive(Clone, Copy, Debug, PartialEq)]
pub enum NotVisible {
    /// The end of the text.
    TextEnd,
    /// An allocation failure.
    Memory(AllocError),
    /// The lexical error at which the rows end.
    TextFault,
    /// The end of the text inside an annotation whose name is not registered. The value is the
    /// index of the `(` that opens it.
    Unclosed(usize),
    /// An annotation whose name is empty or not UTF-8. The value is the index of the row of this
    /// name.
    Misnamed(usize),
}

/// Result of a peek into rows, as integers: an index or the number of rows, and a status.
#[repr(C)]
#[derive(Clone, Copy, Debug, PartialEq)]
pub struct Look {
    /// Index of the visible row if `status` is 0, of the `(` if it is 4, of the annotation's name
    /// if it is 5; otherwise the number of rows.
    row: u32,
    /// 0 if a row is visible, 1 at the end of the text, 2 after an allocation failure, 3 at a
    /// lexical error, 4 if the text ends inside an annotation whose name is not registered, 5 if
    /// the name of an annotation is empty or not UTF-8.
    status: u32,
}

impl Look {
    /// Converts the result of `look_at` to integers. `rows` is the number of rows.
    pub fn of(found: Result<usize, NotVisible>, rows: usize) -> Look
        requires few { rows < 2 ^ 32 }
        requires within { IsWithin rows found }
        ensures { result ≡ look_row rows found }
    {
        let (row, status) = match found {
            Ok(number) => (number, 0),
            Err(NotVisible::TextEnd) => (rows, 1),
            Err(NotVisible::Memory(_)) => (rows, 2),
            Err(NotVisible::TextFault) => (rows, 3),
            Err(NotVisible::Unclosed(number)) => (number, 4),
            Err(NotVisible::Misnamed(number)) => (number, 5),
        };
        Look {
            row: row as u32,
            status,
        }
    }

    /// Returns the index of a row, or the number of rows; `status` tells which.
    pub fn row(&self) -> u32
        ensures { result ≡ self.now.row }
    {
        self.row
    }

    /// Returns the status: 0 if a row is visible, otherwise the reason why none is.
    pub fn status(&self) -> u32
        ensures { result ≡ self.now.status }
    {
        self.status
    }
}
