//! Compiles the procedures of a script to graphs.

ghost use Rattle.std.specs.Prelude.{◌≡◌, ◌≤◌, ◌+◌, length, IfOk, All, map};
ghost use Rattle.std.specs.List.{AllZip};
ghost use Rattle.mv_catalog.specs.Text.{FitsText, IsTable};
ghost use Rattle.mv_graph.specs.Nodes.{nodes_in, IsGraph, IsSmall, IsSound, HasFewNodes};
ghost use Rattle.mv_graph.specs.Steps.{steps_in};
ghost use Rattle.mv_graph.specs.Tests.{tested_in};
ghost use Rattle.mv_compile.specs.Compiled.{graph_of, graphs_of, MeansText};

use crate::copies::copy_procedure;
use crate::nodes::{Slots, add_nodes};
use crate::steps::add_steps;
use crate::tested::add_tested;
use mv_catalog::resolved::{ProcInfo, Resolved};
use mv_graph::graph::{Graph, Node, Step};
use mv_values::copied::Copied;
use mv_values::list::List;
use mv_values::memory::NoMemory;
use mv_values::schema::TableInfo;
use mv_values::tested::Tested;
use std::alloc::Global;

/// Returns the tables, and how the variables of a procedure are numbered.
fn slots_of<'a>(tables: &'a [TableInfo], procedure: &ProcInfo) -> Slots<'a>
    requires { IsSmall procedure.now }
    ensures tables { result.tables.now ≡ tables.now }
    ensures params { result.params ≡ length procedure.now.params }
    ensures found { result.found ≡ length procedure.now.params + length procedure.now.defaults }
{
    let params = procedure.params.len();
    Slots {
        tables,
        params,
        found: (params + procedure.defaults.len()) as u16,
    }
}

/// Returns the nodes of a procedure over these tables, in the order of the text.
fn nodes_in(
    alloc: Global,
    tables: &[TableInfo],
    procedure: &ProcInfo,
) -> Result<List<Node>, NoMemory>
    requires small { IsSmall procedure.now }
    requires few { length tables.now ≤ 64 }
    requires each { All IsTable tables.now }
    ensures { IfOk result (λ nodes. nodes ≡ nodes_in tables.now procedure.now) }
{
    let slots = slots_of(tables, procedure);
    let loops = List::new(alloc);
    let mut nodes = List::new(alloc);
    add_nodes(
        alloc,
        &mut nodes,
        slots,
        procedure.body.as_slice(),
        None,
        &loops,
    )?;
    Ok(nodes)
}

/// Returns the steps of a procedure, in the order of the text.
fn steps_in(alloc: Global, procedure: &ProcInfo) -> Result<List<Step>, NoMemory>
    requires { IsSmall procedure.now }
    ensures { IfOk result (λ steps. steps ≡ steps_in procedure.now) }
{
    let mut steps = List::new(alloc);
    add_steps(
        alloc,
        &mut steps,
        procedure.params.len(),
        procedure.body.as_slice(),
    )?;
    Ok(steps)
}

/// Returns the columns that a procedure tests with `=`, each once, in the order of the text.
fn tested_in(alloc: Global, procedure: &ProcInfo) -> Result<List<Tested>, NoMemory>
    requires { IsSmall procedure.now }
    ensures { IfOk result (λ tested. tested ≡ tested_in procedure.now) }
{
    let mut tested = List::new(alloc);
    add_tested(&mut tested, procedure.body.as_slice())?;
    Ok(tested)
}

/// Returns the graph of a procedure over these tables.
fn graph_of(
    alloc: Global,
    tables: &List<TableInfo>,
    procedure: &ProcInfo,
) -> Result<Graph, NoMemory>
    requires small { IsSmall procedure.now }
    requires few { length tables.now ≤ 64 }
    requires each { All IsTable tables.now }
    ensures { IfOk result (λ graph. graph ≡ graph_of tables.now procedure.now) }
{
    let nodes = nodes_in(alloc, tables.as_slice(), procedure)?;
    let steps = steps_in(alloc, procedure)?;
    let tested = tested_in(alloc, procedure)?;
    let tables = tables.copy(alloc)?;
    let procedure = copy_procedure(alloc, procedure)?;
    Ok(Graph {
        tables,
        procedure,
        nodes,
        steps,
        tested,
    })
}

/// Returns the graphs of procedures over these tables.
fn graphs_of(
    alloc: Global,
    tables: &List<TableInfo>,
    procedures: &[ProcInfo],
) -> Result<List<Graph>, NoMemory>
    requires small { All IsSmall procedures.now }
    requires few { length tables.now ≤ 64 }
    requires each { All IsTable tables.now }
    ensures { IfOk result (λ graphs. graphs ≡ map (graph_of tables.now) procedures.now) }
{
    let mut graphs = List::new(alloc);
    for procedure in procedures {
        graphs.push(graph_of(alloc, tables, procedure)?)?;
    }
    Ok(graphs)
}

/// Returns the graphs of a script's procedures, in order. Its cost grows with the size of the script, with the
/// square of the number of variables that a statement names, and with the number of `=` tests of a procedure times that
/// of the columns that it tests so.
#[tactic(auto, using(crate::proofs::Small::all_small, crate::proofs::Small::all_few_nodes))]
pub fn compile(alloc: Global, resolved: &Resolved) -> Result<List<Graph>, NoMemory>
    requires { FitsText resolved.now }
    ensures graphs { IfOk result (λ graphs. graphs ≡ graphs_of resolved.now) }
    // Each graph has the nodes and the tested columns of its procedure, and means what the procedure's text means.
    ensures nodes { IfOk result (All IsGraph) }
    ensures few { IfOk result (All HasFewNodes) }
    ensures sound { IfOk result (All IsSound) }
    ensures means { IfOk result (λ graphs. AllZip (MeansText resolved.now.tables) graphs resolved.now.procedures) }
{
    let graphs = graphs_of(alloc, &resolved.tables, resolved.procedures.as_slice())?;
    Ok(graphs)
}
