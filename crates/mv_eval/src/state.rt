//! The state of a running call.

use mv_table::table::Tables;
use mv_values::calls::End;
use mv_values::list::List;
use mv_values::memory::NoMemory;
use mv_values::txt::Txt;
use mv_values::value::{Row, Value};

/// What a variable holds: a value, the current row of a loop, or the rows of a ROWS parameter.
#[derive(Drop)]
pub enum Content {
    Scalar(Value),
    Turn(Row),
    Turns(List<Row>),
}

/// The variables of a call, by number. `found` is the number of `:found`.
#[derive(Drop)]
pub struct Env {
    pub held: List<Content>,
    pub found: usize,
}

/// A running call: its variables, the tables, and the lines that it has printed.
#[derive(Drop)]
pub struct State {
    pub env: Env,
    pub tables: Tables,
    pub lines: List<Txt>,
}

/// Why statements stopped: memory ran out, or the call was rolled back.
#[derive(Drop)]
pub enum Stop {
    Memory,
    Ended(End),
}

impl From<NoMemory> for Stop {
    ghost use Rattle.std.specs.Prelude.{◌≡◌};
    ghost use Rattle.mv_eval.specs.declared.state.Stop.TheVariants.{Memory};

    ghost from_gives = { λ _ e. e ≡ Memory };

    fn from(_error: NoMemory) -> Stop {
        Stop::Memory
    }
}
