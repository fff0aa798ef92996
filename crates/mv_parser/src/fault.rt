//! The errors of parsing.

pub use mv_ast::limit::Which;
use mv_values::memory::NoMemory;

/// Why parsing failed. Tokens are counted from 1.
#[derive(Clone, Copy, PartialEq, Eq)]
pub enum ParseFault {
    /// No script continues with this token. It is the first such token, or one past the last.
    Syntax { token: u32 },
    /// This limit is exceeded, and this is the first token at which it is.
    Limit { which: Which, token: u32 },
    NoMemory,
}

impl From<NoMemory> for ParseFault {
    ghost use Rattle.std.specs.Prelude.{◌≡◌};
    ghost use Rattle.mv_parser.specs.declared.fault.ParseFault.TheVariants.{NoMemory as Refused};

    ghost from_gives = { λ _ e. e ≡ Refused };

    fn from(_refused: NoMemory) -> ParseFault {
        ParseFault::NoMemory
    }
}

/// Why a part of the grammar wasn't parsed: memory ran out, or a token is wrong. The number counts
/// the tokens from the wrong one to the end.
#[derive(Clone, Copy)]
pub(crate) enum Failure {
    Memory,
    Wrong(usize),
}

impl From<NoMemory> for Failure {
    ghost use Rattle.std.specs.Prelude.{◌≡◌};
    ghost use Rattle.mv_parser.specs.declared.fault.Failure.TheVariants.{Memory};

    ghost from_gives = { λ _ e. e ≡ Memory };

    fn from(_refused: NoMemory) -> Failure {
        Failure::Memory
    }
}
