//! The commands of the program.

ghost use Rattle.std.specs.Prelude.{◌≡◌};
ghost use Rattle.mv_words.specs.declared.command.WordsFault.TheVariants.{NoMemory};

use mv_tpccgen::load::Load;
use mv_values::calls::Options;
use std::alloc::AllocError;

/// A command that the program takes.
#[derive(Clone, Copy)]
pub enum Command {
    /// Runs the calls of a script by this many workers, 1 to 64, and writes their history.
    Run {
        threads: u32,
        options: Options,
    },
    /// Makes the events of the script's own journal, and writes their history.
    Replay {
        options: Options,
    },
    /// Runs each call alone, after those before it, by the machine that defines what calls mean.
    Serial,
    /// Runs nothing, and writes which statements of a procedure may depend on which.
    Graph,
    /// Generates a workload, and runs it by this many workers, 1 to 64. Writes a summary. If `script` says so, runs
    /// nothing, and writes the print of the script.
    Tpcc {
        load: Load,
        script: bool,
        threads: u32,
        options: Options,
    },
    /// Says whether a report is the text of a lawful run of a script with this many rounds.
    Audit {
        rounds: u32,
    },
    /// Makes the events of the script's own journal, and writes for each repair which statements it executes again, and
    /// why.
    Why {
        options: Options,
    },
}

/// Why words give no command: they are none of the program's, or memory ran out.
#[derive(Clone, Copy, Debug)]
pub enum WordsFault {
    Usage,
    NoMemory,
}

impl From<AllocError> for WordsFault {
    ghost from_gives = { λ _ fault. fault ≡ NoMemory };

    fn from(_error: AllocError) -> WordsFault {
        WordsFault::NoMemory
    }
}
