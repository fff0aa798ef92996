//! Why the program fails.

use mv_edge::reading::ReadFault;
use mv_values::memory::NoMemory;

#[derive(Clone, Copy)]
pub(crate) enum Fault {
    NoMemory,
    /// Standard input can't be read.
    Unread,
    /// Standard output can't be written.
    Unwritten,
    /// A call was left open. No run has shown it.
    Open,
}

impl From<NoMemory> for Fault {
    fn from(_error: NoMemory) -> Fault {
        Fault::NoMemory
    }
}

impl From<ReadFault> for Fault {
    fn from(fault: ReadFault) -> Fault {
        match fault {
            ReadFault::NoMemory => Fault::NoMemory,
            ReadFault::Failed => Fault::Unread,
        }
    }
}
