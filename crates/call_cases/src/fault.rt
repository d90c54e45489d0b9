// Why the recorded cases cannot be performed to the end.
// `main` prints it by `Debug`: a derive of its conversions would ask for messages that nothing prints.
use std::alloc::{AllocError, AllocFailed};
use std::io;

// What stops the program.
#[derive(Debug, Drop)]
pub enum Fault {
    Failed(io::Error),
    NoMemory,
    // The line of this number, counted from 1, has no meaning where it stands.
    Unread(usize),
    // A case names no kind.
    NoKind,
    // The code is no grade of the case's kind.
    NoGrade(u32),
}

impl From<io::Error> for Fault {
    fn from(error: io::Error) -> Fault {
        Fault::Failed(error)
    }
}

impl From<AllocError> for Fault {
    fn from(_: AllocError) -> Fault {
        Fault::NoMemory
    }
}

impl<T: Drop> From<AllocFailed<T>> for Fault {
    fn from(_: AllocFailed<T>) -> Fault {
        Fault::NoMemory
    }
}
