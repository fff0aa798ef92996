//! The text of graphs: which statements each statement may depend on.

ghost use Rattle.std.specs.Prelude.{◌≡◌, ◌<◌, ◌≤◌, ◌^◌, ◌++◌, length, All, IfOk, OnOk};
ghost use Rattle.mv_graph.specs.Edges.{edges};
ghost use Rattle.mv_graph.specs.Nodes.{HasFewNodes};
ghost use Rattle.mv_report.specs.Graphs.{keyword_text, edge_text, letter_of, has_edge, kind_text, edges_text, statement_text, statements_text, graph_text, procedures_text, graphs_text};

use crate::number::write_number;
use mv_catalog::resolved::{ProcInfo, Resolved};
use mv_graph::graph::{Edges, Graph, Keyword, Node};
use mv_values::list::List;
use mv_values::memory::NoMemory;
use std::alloc::Global;

/// A kind of edge to a statement: from the one that directly holds it, from one that sets a variable that it reads, or
/// from one that changes a table that it asks.
#[derive(Clone, Copy)]
pub(crate) enum Kind {
    Control,
    Variable,
    Table,
}

/// Returns the text of the graphs of a script's procedures. Takes time quadratic in the number of a procedure's
/// statements.
pub fn render_graphs(
    alloc: Global,
    resolved: &Resolved,
    graphs: &List<Graph>,
) -> Result<List<u8>, NoMemory>
    requires { All HasFewNodes graphs.now }
    ensures { IfOk result (λ text. text ≡ graphs_text resolved.now graphs.now) }
{
    let mut text = List::new(alloc);
    write_graphs(resolved.procedures.as_slice(), graphs.as_slice(), &mut text)?;
    text.append(b"end\n")?;
    Ok(text)
}

/// Adds the procedures in declared order.
fn write_graphs(
    procedures: &[ProcInfo],
    graphs: &[Graph],
    text: &mut List<u8>,
) -> Result<(), NoMemory>
    requires { All HasFewNodes graphs.now }
    ensures { OnOk result (text.new ≡ text.old ++ procedures_text procedures.now graphs.now) }
{
    let count = procedures.len().min(graphs.len());
    for place in 0..count {
        write_graph(&procedures[place], &graphs[place], text)?;
    }
    Ok(())
}

/// Adds a procedure: its name, and a line for each statement.
fn write_graph(procedure: &ProcInfo, graph: &Graph, text: &mut List<u8>) -> Result<(), NoMemory>
    requires { HasFewNodes graph.now }
    ensures { OnOk result (text.new ≡ text.old ++ graph_text procedure.now graph.now) }
{
    text.append(b"procedure ")?;
    text.append(procedure.name.as_slice())?;
    text.push(b'\n')?;
    write_statements(graph, graph.nodes.as_slice(), text)
}

/// Adds a line for each statement.
fn write_statements(graph: &Graph, nodes: &[Node], text: &mut List<u8>) -> Result<(), NoMemory>
    requires graph { HasFewNodes graph.now }
    requires nodes { length nodes.now < 2 ^ 16 }
    ensures { OnOk result (text.new ≡ text.old ++ statements_text graph.now nodes.now) }
{
    for (before, node) in nodes.iter().enumerate() {
        write_statement(graph, (before + 1) as u16, node, text)?;
    }
    Ok(())
}

/// Adds the line of a statement.
fn write_statement(
    graph: &Graph,
    number: u16,
    node: &Node,
    text: &mut List<u8>,
) -> Result<(), NoMemory>
    requires { HasFewNodes graph.now }
    ensures { OnOk result (text.new ≡ text.old ++ statement_text graph.now number node.now) }
{
    write_number(number, text)?;
    text.push(b' ')?;
    text.append(keyword_name(node.keyword))?;
    write_edges(graph, number, text)?;
    text.push(b'\n')
}

/// Adds the edges to a statement, kind by kind.
fn write_edges(graph: &Graph, to: u16, text: &mut List<u8>) -> Result<(), NoMemory>
    requires { HasFewNodes graph.now }
    ensures { OnOk result (text.new ≡ text.old ++ edges_text graph.now to) }
{
    let nodes = graph.nodes.as_slice();
    write_kind(graph, to, Kind::Control, nodes, text)?;
    write_kind(graph, to, Kind::Variable, nodes, text)?;
    write_kind(graph, to, Kind::Table, nodes, text)
}

/// Adds the edges of a kind to a statement.
fn write_kind(
    graph: &Graph,
    to: u16,
    kind: Kind,
    nodes: &[Node],
    text: &mut List<u8>,
) -> Result<(), NoMemory>
    requires { length nodes.now < 2 ^ 16 }
    ensures { OnOk result (text.new ≡ text.old ++ kind_text graph.now to kind nodes.now) }
{
    for (before, _node) in nodes.iter().enumerate() {
        write_edge(graph, (before + 1) as u16, to, kind, text)?;
    }
    Ok(())
}

/// Adds the edge of a kind from one statement to another, if there is one.
fn write_edge(
    graph: &Graph,
    from: u16,
    to: u16,
    kind: Kind,
    text: &mut List<u8>,
) -> Result<(), NoMemory>
    ensures { OnOk result (text.new ≡ text.old ++ edge_text (letter_of kind) from (has_edge kind (edges graph.now from to))) }
{
    if !has_edge(kind, graph.edge(from, to)) {
        return Ok(());
    }
    text.push(b' ')?;
    text.append(letter_of(kind))?;
    write_number(from, text)
}

/// Whether there is an edge of this kind.
fn has_edge(kind: Kind, edges: Edges) -> bool
    ensures { result ≡ has_edge kind edges }
{
    match kind {
        Kind::Control => edges.control,
        Kind::Variable => edges.variable,
        Kind::Table => edges.table,
    }
}

/// Returns the letter of a kind of edge.
fn letter_of(kind: Kind) -> &'static [u8]
    ensures { result.now ≡ letter_of kind }
{
    match kind {
        Kind::Control => b"c",
        Kind::Variable => b"v",
        Kind::Table => b"t",
    }
}

/// Returns a keyword in lower case.
fn keyword_name(keyword: Keyword) -> &'static [u8]
    ensures { result.now ≡ keyword_text keyword }
{
    match keyword {
        Keyword::Set => b"set",
        Keyword::Select => b"select",
        Keyword::For => b"for",
        Keyword::If => b"if",
        Keyword::Insert => b"insert",
        Keyword::Update => b"update",
        Keyword::Delete => b"delete",
        Keyword::Print => b"print",
        Keyword::Rollback => b"rollback",
    }
}
