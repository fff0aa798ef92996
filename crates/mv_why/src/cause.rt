//! Why records of a call are executed again.

use mv_values::list::List;
use mv_values::value::Key;

/// Why a repair executed a record: the first point of the rule that the record fails. Numbers are those of records in
/// their run, from 0.
#[derive(Drop)]
pub enum Reason {
    /// The old run has no record with its path.
    New,
    /// The repair executed the IF or FOR that holds it, too. This is the number of its record.
    Controller {
        parent: usize,
    },
    /// A variable that it reads doesn't stay. This is the first one in the text of its statement, by the records of the
    /// two runs that set it last, or `None` where it has its initial value.
    Reads {
        old: Option<usize>,
        fresh: Option<usize>,
    },
    /// A change hits it. This is the least one, by its commit, table and key.
    Hit {
        commit: u32,
        table: u8,
        key: Key,
    },
    /// A write touches it, of a record of either run that a repair doesn't keep. This is the least path of such a record.
    Touched {
        path: List<usize>,
    },
}

/// A record that a repair executed, by its number in the new run, and the reason.
#[derive(Drop)]
pub struct Cause {
    pub number: usize,
    pub reason: Reason,
}
