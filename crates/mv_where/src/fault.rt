//! Why the program fails.

use mv_values::memory::NoMemory;

#[derive(Clone, Copy)]
pub enum Fault {
    NoMemory,
    /// Standard input or the file can't be read.
    Unread,
    /// Standard output can't be written.
    Unwritten,
}

impl From<NoMemory> for Fault {
    fn from(_error: NoMemory) -> Fault {
        Fault::NoMemory
    }
}
