//! What a seat knows.

use std::marker::{Model, PhantomData};

/// What a seat of the board knows. It is only for contracts: no value of it is made.
pub struct View {
    nothing: PhantomData<()>,
}

impl Model for View {
    ghost use Rattle.mv_seats.specs.Rule.{View as Seen, nobody};
    ghost use Rattle.mv_graph.specs.contracts.graph.Graph as graph;
    ghost use Rattle.std.specs.Coded.{codes};

    ghost Value = { Seen };

    ghost coded = { Prim.hlevel (codes, graph.the_row.coded) };

    ghost view = { λ _. nobody };
}
