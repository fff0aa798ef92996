//! How a run of the program ends.

ghost use Rattle.std.specs.Prelude.{◌≡◌};
ghost use Rattle.mv_top.specs.Answers.{code_of};

use mv_values::memory::NoMemory;
use mv_values::txt::Txt;

/// How the program ends. The number is the exit status.
#[derive(Clone, Copy, PartialEq, Eq)]
pub enum Status {
    /// The answer was written.
    Done = 0,
    /// The input was refused, and the refusal's line was written.
    Refused = 1,
    /// The words name no command, and the usage line was written.
    Usage = 2,
    /// Memory ran out, and nothing was written.
    NoMemory = 3,
    /// The source failed, and nothing was written.
    ReadFault = 4,
    /// The sink failed, and a proper prefix of the answer was written.
    WriteFault = 5,
}

impl Status {
    /// Returns the exit status of the program, from 0 to 5.
    pub fn code(self) -> u8
        ensures { result ≡ code_of self }
    {
        self as u8
    }
}

/// Why there is no answer: the input is refused, with the refusal's number and line, or memory ran out.
#[derive(Drop)]
pub enum Fault {
    Refused { number: u32, line: Txt },
    NoMemory,
}

impl From<NoMemory> for Fault {
    ghost use Rattle.std.specs.Prelude.{◌≡◌};
    ghost use Rattle.mv_top.specs.declared.status.Fault.TheVariants as fault;

    ghost from_gives = { λ _ e. e ≡ fault.NoMemory };

    fn from(_error: NoMemory) -> Fault {
        Fault::NoMemory
    }
}
