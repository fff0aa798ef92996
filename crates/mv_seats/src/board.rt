//! The board, and the name that ties its passes to it.

ghost use Rattle.std.specs.Prelude.{◌≡◌, ◌<◌, ◌≤◌, IfOk, length};
ghost use Rattle.mv_seats.specs.Knowing.{gate_pass};
ghost use Rattle.mv_seats.specs.Rule.{word_of};

use crate::pass::Pass;
use crate::rule::Law;
use crate::script::BoardScript;
use crate::view::View;
use atomic_table::{Seat, Table};
use mv_graph::graph::Graph;
use mv_values::calls::{Call, Options};
use mv_values::list::List;
use mv_values::memory::NoMemory;
use mv_values::rows::Database;
use std::alloc::Global;
use std::marker::{Brand, Model, PhantomData};

/// Names one board and its script. Boards, passes and their holders belong together if this parameter is the same type.
pub trait Making {
    ghost use Rattle.atomic_table.specs.Seated.{TableId};
    ghost use Rattle.mv_seats.specs.Scripts.{BoardScript};

    ghost board: { TableId };

    ghost script: { BoardScript };
}

impl Making for Brand {
    ghost use Rattle.mv_seats.specs.Names.{no_board, no_script};

    ghost board = { no_board };

    ghost script = { no_script };
}

/// A board without a name, with the pass of its gate.
#[derive(Drop)]
pub struct Blank {
    table: Table<u8, View, BoardScript, Law, Global>,
    seat: Seat<u8, View>,
}

impl Model for Blank {
    ghost use Rattle.mv_seats.specs.Scripts.{Made};
    ghost use Rattle.mv_seats.specs.Rule.{IsFirst};
    ghost use Rattle.mv_graph.specs.contracts.graph.Graph as graph;
    ghost use Rattle.std.specs.Coded.{codes};
    ghost use Rattle.std.specs.Prelude.{◌≤◌, length};

    ghost Value = { Made };

    ghost coded = { Prim.hlevel (codes, graph.the_row.coded) };

    ghost view = { λ b. record { board = b.table.shared.table_id; script = b.table.shared.key } };

    ghost invariant = { λ b. IsFirst b.table.shared.table_id b.table.shared.key b.seat × (length b.table.shared.key.calls ≤ 1000000) };
}

/// The count of commits, and a mark of each shard: the number of commits that its chains hold. All threads share it.
#[derive(Drop)]
pub struct Board<N: Making> {
    pub(crate) table: Table<u8, View, BoardScript, Law, Global>,
    of: PhantomData<N>,
    ghost board: { table.shared.table_id ≡ N.board },
    ghost script: { table.shared.key ≡ N.script },
    ghost words: { N.board.words ≡ word_of N.script.shards },
    ghost few: { length N.script.calls ≤ 1000000 },
}

impl Blank {
    /// Returns a board for 1 to 64 shards and at most 1,000,000 calls. Count and marks are 0. Fails if memory runs out.
    /// It takes 8 bytes for each shard and 8 more.
    pub fn new(
        alloc: Global,
        graphs: &List<Graph>,
        calls: &List<Call>,
        opening: &Database,
        options: &Options,
        shards: u32,
    ) -> Result<Blank, NoMemory>
        requires calls { length calls.now ≤ 1000000 }
        requires shards { (1 ≤ shards) × (shards ≤ 64) }
        ensures { IfOk result (λ blank. blank.script ≡ record { graphs = graphs.now; calls = calls.now; opening = opening.now; options = options.now; shards = shards }) }
    {
        let script = BoardScript::new(graphs, calls, opening, options, shards);
        let words = [0u64; 65];
        let (table, seat) = Table::of_words(alloc, &words[..shards as usize + 1], &script)?;
        Ok(Blank { table, seat })
    }

    /// Returns the board under its name, and the gate's pass, which has seen no commit and has every shard's role. `N`
    /// names this board and its script: the caller is generic in `N` and is called with `Brand`, for which its own
    /// caller picks this blank's board and script. It allocates no memory.
    pub fn open<N: Making>(self) -> (Board<N>, Pass<N>)
        requires board { self.board ≡ N.board }
        requires script { self.script ≡ N.script }
        ensures { result.1 ≡ gate_pass }
    {
        let Blank { table, seat } = self;
        let board = Board {
            table,
            of: PhantomData,
        };
        (board, Pass::of(seat))
    }
}
