//! The script of a board.

ghost use Rattle.std.specs.Prelude.{◌≡◌};

use mv_graph::graph::Graph;
use mv_values::calls::{Call, Options};
use mv_values::list::List;
use mv_values::rows::Database;
use std::marker::Model;
use std::snapshot::Snapshot;

/// The script of a board and its passes. Graphs, calls and the opening database are only for contracts, and take no
/// memory.
#[derive(Drop)]
pub struct BoardScript {
    graphs: Snapshot<List<Graph>>,
    calls: Snapshot<List<Call>>,
    opening: Snapshot<Database>,
    options: Options,
    shards: u32,
}

impl Model for BoardScript {
    ghost use Rattle.mv_seats.specs.Scripts.{BoardScript as About};
    ghost use Rattle.mv_graph.specs.contracts.graph.Graph as graph;
    ghost use Rattle.std.specs.Coded.{codes};

    ghost Value = { About };

    ghost coded = { Prim.hlevel (codes, graph.the_row.coded) };

    ghost view = { λ s. record { graphs = s.graphs.value; calls = s.calls.value; opening = s.opening.value; options = s.options; shards = s.shards } };
}

impl BoardScript {
    pub(crate) fn new(
        graphs: &List<Graph>,
        calls: &List<Call>,
        opening: &Database,
        options: &Options,
        shards: u32,
    ) -> BoardScript
        ensures { result ≡ record { graphs = graphs.now; calls = calls.now; opening = opening.now; options = options.now; shards = shards } }
    {
        BoardScript {
            graphs: Snapshot::of(graphs),
            calls: Snapshot::of(calls),
            opening: Snapshot::of(opening),
            options: *options,
            shards,
        }
    }
}
