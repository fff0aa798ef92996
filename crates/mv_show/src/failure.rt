//! Why the program fails.

use mv_trace::fault::TextFault;
use mv_values::memory::NoMemory;

/// Why the program fails.
#[derive(Clone, Copy)]
pub enum Failure {
    /// The words after the program's name are others than it takes.
    Words,
    /// The text or the script is refused.
    Refused(TextFault),
    NoMemory,
    /// Standard input or the script can't be read.
    Unread,
    /// Standard output can't be written.
    Unwritten,
}

impl Failure {
    /// Returns the exit status.
    pub fn status(self) -> u8 {
        match self {
            Failure::Refused(_) => 1,
            Failure::Words => 2,
            Failure::NoMemory => 3,
            Failure::Unread => 4,
            Failure::Unwritten => 5,
        }
    }
}

impl From<NoMemory> for Failure {
    fn from(_error: NoMemory) -> Failure {
        Failure::NoMemory
    }
}

impl From<TextFault> for Failure {
    fn from(fault: TextFault) -> Failure {
        match fault {
            TextFault::NoMemory => Failure::NoMemory,
            _ => Failure::Refused(fault),
        }
    }
}
